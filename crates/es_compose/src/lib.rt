//! Roles composed from descriptors: what they grant, and which documents and fields they permit.
#![tactic(auto)]

mod actions;
mod checking;
pub mod kinds;
mod lawful;
mod member;
mod part;
mod permitting;
pub mod query;
mod role;

pub use checking::{CheckedForm, check_descriptor, read_checked};
pub use kinds::{DocClause, DocQueries, DocRule, Permission};
pub use lawful::laws;
pub use part::RolePart;
pub use query::{RoleQuery, RoleQueryForm};
pub use role::{Descriptors, Role, RoleParts, compose, limit};
