//! Grammars over JSON trees: readers that give a value or the place of the first fault, and printers whose trees
//! read back.
#![tactic(auto)]

mod form;
mod lawful;
mod lists;
mod maps;
mod members;
mod places;
mod printing;
#[cfg(test)]
mod tests;
mod values;

pub use form::{Form, MemberForm, Name, Prints, PrintsValue, Spelled, Spelling};
pub use lawful::laws;
pub use lists::{EmptyList, ListOf, OneOrList, OneOrMore, items};
pub use maps::{AnyName, MapOf};
pub use members::{each, ends, members_of, next, only, optional};
pub use places::{at, here, if_holds, needed, or_empty, or_no_members, placed, under, under_item};
pub use printing::{add, single, trees};
pub use values::{Any, Nullable, Object, Text, TextOf, Truth, Whole};
