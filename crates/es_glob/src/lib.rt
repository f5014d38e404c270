//! Patterns over names with `*`, `?` and `\`, and rules over fields that are made of them.
#![tactic(auto)]

mod characters;
mod fault;
mod field;
mod mark;
mod matching;
mod pattern;
mod reading;
mod set;

pub use fault::PatternFault;
pub use field::{FieldClause, FieldPair, FieldPairs, FieldRule};
pub use pattern::Pattern;
pub use set::{PatternSet, Patterns};
