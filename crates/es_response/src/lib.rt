//! A reply, and the bytes of its response; those responses that are fixed.
#![tactic(auto)]

mod reply;
mod responses;
#[cfg(test)]
mod tests;

pub use es_base::NoMemory;
pub use reply::{Reply, error};
pub use responses::fixed;
