//! Users, roles and API keys: who sends a request, by which roles it is decided, and how all of it changes.
#![tactic(auto)]

pub mod change;
mod changing;
mod halves;
pub mod invalidating;
mod keys;
mod knowing;
mod lawful;
mod opening;
mod records;

pub use change::{SecurityChange, drops};
pub use invalidating::Invalidation;
pub use keys::may_make;
pub use lawful::laws;
pub use records::Records;
