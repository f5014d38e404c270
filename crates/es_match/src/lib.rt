//! Whether a query holds on a document.
#![tactic(auto)]

mod asking;
mod laws;
mod making;
pub mod matcher;
mod matching;
mod searching;
mod testing;
#[cfg(test)]
mod tests;

pub use laws::holds_alike;
pub use matcher::Matcher;
pub use matching::holds;
