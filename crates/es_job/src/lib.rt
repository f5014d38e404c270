//! One call on a vault, from its first step to its reply.
#![tactic(auto)]

pub mod due;
pub mod job;
mod lawful;
pub mod note;
mod reads;
pub mod stepping;
mod telling;
pub mod work;

pub use job::{Finished, Job, Trail};
pub use lawful::laws;
pub use note::{NextStep, Note};
