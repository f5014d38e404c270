//! From requests of the wire to requests as values.
#![tactic(auto)]

mod asking;
mod fields;
mod methods;
mod naming;
mod parameters;
mod path;
mod query;
mod reading;
mod segments;
mod stop;
mod target;

pub use reading::{read_call, read_request};
