//! Queries, read from JSON trees and printed as such.
#![tactic(auto)]

mod copying;
mod forms;
pub mod kinds;
mod laws;
mod printing;
mod reading;
#[cfg(test)]
mod tests;

pub use kinds::{Bounds, Clauses, Queries, Query};
pub use laws::{is_read_by_clause, read_is_sound, same_print_is_same};
pub use reading::{QueryClause, QueryForm};
