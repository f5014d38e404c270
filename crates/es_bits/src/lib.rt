//! Lists of truth values of a fixed length, 64 to a word: which of many documents a query selects.
#![tactic(auto)]

mod selection;
#[cfg(test)]
mod tests;
mod words;

pub use es_base::{Copied, NoMemory};
pub use selection::Bits;
