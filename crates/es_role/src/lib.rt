//! Descriptors of roles: what they grant, read from JSON trees and printed as such.
#![tactic(auto)]

mod forms;
pub mod kinds;
mod lawful;
mod printing;
mod reading;

pub use es_glob::{FieldPair, PatternSet};
pub use es_priv::{ClusterPrivilege, IndexPrivilege};
pub use forms::PatternText;
pub use kinds::{ClusterPrivileges, Descriptor, IndexGroup, IndexGroups, IndexPrivileges};
pub use lawful::laws;
pub use reading::DescriptorForm;
