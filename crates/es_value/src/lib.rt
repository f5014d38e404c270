//! Typed values of JSON scalars: keywords, whole numbers and dates.
#![tactic(auto)]

mod dates;
mod digits;
pub mod kinds;
mod lending;
mod numbers;
mod order;
mod parts;
#[cfg(test)]
mod tests;
mod typing;

pub use dates::read_date;
pub use kinds::{FieldType, Lent, Value, Values};
pub use numbers::read_number;
pub use typing::{read_keyword, read_lent, read_value, read_whole};
