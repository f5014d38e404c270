//! One connection on a node of its own, from its first byte to its end.
#![tactic(auto)]

mod alone;
mod lawful;
mod run;

pub use lawful::laws;
pub use run::{Ran, run_script};
