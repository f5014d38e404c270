//! Decisions: what the caller of a request may do, by the roles that its halves were composed to.
#![tactic(auto)]

mod acting;
mod deciding;
pub mod kinds;
mod lawful;

pub use deciding::{decide, decide_cluster, permit, run_as};
pub use kinds::Halves;
pub use lawful::laws;
