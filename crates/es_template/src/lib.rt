//! Templates: JSON trees whose texts have tags, read once and filled for a person.
#![tactic(auto)]

mod copying;
mod filling;
pub mod kinds;
mod lawful;
mod marks;
mod printing;
mod reading;
mod room;
mod sources;
mod tags;

pub use es_base::{NoMemory, Str, Strs};
pub use es_tree::Person;
pub use kinds::{Piece, Pieces, Property, Template, TemplateMembers, Templates};
pub use lawful::laws;
pub use reading::SourceForm;
