//! JSON trees whose numbers are whole: reading, printing, leaves, members by name, copies and equality.
#![tactic(auto)]

mod copying;
mod equality;
mod fault;
pub mod kinds;
mod lawful;
mod ordered;
mod person;
mod printing;
mod reading;
mod room;
#[cfg(test)]
mod tests;
mod tree;
mod walking;

pub use es_base::{Copied, NoMemory, Seq, Str, Strs};
pub use fault::{BodyFault, TreeFault};
pub use lawful::laws;
pub use ordered::Ordered;
pub use person::Person;
pub use printing::print;
pub use reading::{MAX_LEVELS, read, read_within};
pub use room::room_for;
pub use tree::{Member, Members, Named, Tree, Trees};
pub use walking::{leaves, longer_path};
