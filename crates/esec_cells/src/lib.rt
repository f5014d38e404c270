//! What the programs of tables have in common: cells of lines, the walk over the lines, and what cells say of persons,
//! descriptors and permissions.
#![tactic(auto)]

mod actions;
mod cells;
mod escapes;
mod faults;
mod permissions;
mod persons;
mod roles;
mod telling;
mod walking;

pub use actions::{ACTIONS, CLUSTER_ACTIONS, action_of, cluster_action_of};
pub use cells::{Cells, tree_of};
pub use escapes::{digit_of, escaped, unescaped};
pub use faults::Fault;
pub use permissions::{alone, both};
pub use persons::{metadata_of, person_of, text_named, texts_of};
pub use roles::{checked, role_of};
pub use telling::{add, fault, hexadecimal, number, truth};
pub use walking::{Tables, compared};
