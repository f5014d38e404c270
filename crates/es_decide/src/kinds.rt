//! Halves of a decision.
use es_base::Shared;
use es_compose::Role;

/// The roles by which the requests of a subject are decided. Contracts see lists of descriptors.
#[derive(Drop)]
pub struct Halves {
    /// What the caller may do: a user's roles, a key's assigned descriptors, or its limits where it has none assigned.
    pub first: Shared<Role>,
    /// What limits the first: the limits of a key with assigned descriptors.
    pub limit: Option<Shared<Role>>,
    /// What the user may do as whom the caller runs.
    pub target: Option<Shared<Role>>,
}
