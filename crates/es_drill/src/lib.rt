//! The drill: a schedule of the steps of up to 26 actors on one vault, and what each of them notes.
#![tactic(auto)]

mod ending;
mod lawful;
mod lines;
mod printing;
mod reading;
mod taking;
mod turning;

pub use ending::{Drilled, ScheduleFault};
pub use lawful::laws;
pub use taking::drill;
