//! A lock with tickets: threads take turns at one value, whose list of entries only grows.
#![tactic(auto)]

mod gate;
mod stands;
mod steps;
#[cfg(test)]
mod tests;
mod tickets;

pub use gate::{Gate, Pass, Turn, Unmade};
pub use stands::Stands;
