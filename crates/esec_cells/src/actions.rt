//! Actions by their names.
use crate::faults::Fault;
use es_priv::{Action, ClusterAction, action_name, cluster_action_name};

/// All actions on an index.
pub const ACTIONS: [Action; 9] = [
    Action::Get,
    Action::Search,
    Action::Put,
    Action::Create,
    Action::Delete,
    Action::CreateIndex,
    Action::DeleteIndex,
    Action::GetMapping,
    Action::PutMapping,
];

/// All actions on the cluster.
pub const CLUSTER_ACTIONS: [ClusterAction; 3] = [
    ClusterAction::Security,
    ClusterAction::OwnKeys,
    ClusterAction::AnyKeys,
];

/// The action on an index of this name.
pub fn action_of(name: &str) -> Result<Action, Fault> {
    for action in ACTIONS {
        if action_name(action) == name {
            return Ok(action);
        }
    }
    Err(Fault::Line)
}

/// The action on the cluster of this name.
pub fn cluster_action_of(name: &str) -> Result<ClusterAction, Fault> {
    for action in CLUSTER_ACTIONS {
        if cluster_action_name(action) == name {
            return Ok(action);
        }
    }
    Err(Fault::Line)
}
