//! The types of an index's fields, and the values of documents under them.
#![tactic(auto)]

mod arranging;
mod checking;
pub mod kinds;
mod mapping;
mod narrowing;
mod paths;
mod printing;
mod reading;
mod sizes;
#[cfg(test)]
mod tests;

pub use es_value::{FieldType, Value, Values, read_date, read_value};
pub use kinds::ValueFault;
pub use mapping::{Mapping, PathTest};
pub use reading::MappingForm;
