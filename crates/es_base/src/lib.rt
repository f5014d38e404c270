//! Lists, texts and shared values that contracts see as values, and the one error of a refused allocation.
#![tactic(auto)]

mod memory;
mod seq;
mod shared;
#[cfg(test)]
mod tests;
mod text;

pub use memory::NoMemory;
pub use seq::{Copied, Seq};
pub use shared::Shared;
pub use text::{Str, Strs};
