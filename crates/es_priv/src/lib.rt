//! Privileges, the actions that they grant, and the names of both.
#![tactic(auto)]

pub mod kinds;
mod names;
mod table;
#[cfg(test)]
mod tests;

pub use kinds::{Action, ClusterAction, ClusterPrivilege, IndexPrivilege};
pub use names::{
    action_name, cluster_action_name, cluster_name, index_name, read_cluster, read_index,
};
pub use table::{granting, granting_cluster, grants, grants_cluster};
