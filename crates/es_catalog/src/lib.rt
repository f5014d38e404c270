//! Indices with their mappings and documents, of which each version stands beside the others.
#![tactic(auto)]

mod catalog;
pub mod change;
mod index;

pub use catalog::Catalog;
pub use change::DocChange;
pub use index::{Index, Stored};
