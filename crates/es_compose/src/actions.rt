//! Sets of actions, which are asked without a look at the privileges that grant them.
ghost use Rattle.std.specs.Prelude.{◌≡◌};
ghost use Rattle.es_compose.specs.Roles.{some_grants, some_grants_cluster};
ghost use Rattle.es_compose.specs.Sets.{actions_of, has_action, cluster_actions_of, has_cluster_action};

use es_priv::{Action, ClusterAction, ClusterPrivilege, IndexPrivilege, grants, grants_cluster};

/// Actions on indices.
#[derive(Clone, Copy, Debug)]
pub struct Actions {
    get: bool,
    search: bool,
    put: bool,
    create: bool,
    delete: bool,
    create_index: bool,
    delete_index: bool,
    get_mapping: bool,
    put_mapping: bool,
}

/// Actions on the cluster.
#[derive(Clone, Copy, Debug)]
pub struct ClusterActions {
    security: bool,
    own_keys: bool,
    any_keys: bool,
}

fn some_grants(privileges: &[IndexPrivilege], action: Action) -> bool
    ensures { result ≡ some_grants action privileges.now }
{
    privileges
        .iter()
        .any(|privilege| grants(*privilege, action))
}

fn some_grants_cluster(privileges: &[ClusterPrivilege], action: ClusterAction) -> bool
    ensures { result ≡ some_grants_cluster action privileges.now }
{
    privileges
        .iter()
        .any(|privilege| grants_cluster(*privilege, action))
}

impl Actions {
    /// The actions that one of the privileges grants.
    pub fn of(privileges: &[IndexPrivilege]) -> Actions
        ensures { result ≡ actions_of privileges.now }
    {
        Actions {
            get: some_grants(privileges, Action::Get),
            search: some_grants(privileges, Action::Search),
            put: some_grants(privileges, Action::Put),
            create: some_grants(privileges, Action::Create),
            delete: some_grants(privileges, Action::Delete),
            create_index: some_grants(privileges, Action::CreateIndex),
            delete_index: some_grants(privileges, Action::DeleteIndex),
            get_mapping: some_grants(privileges, Action::GetMapping),
            put_mapping: some_grants(privileges, Action::PutMapping),
        }
    }

    /// Whether the action is among them.
    pub fn has(&self, action: Action) -> bool
        ensures { result ≡ has_action self.now action }
    {
        match action {
            Action::Get => self.get,
            Action::Search => self.search,
            Action::Put => self.put,
            Action::Create => self.create,
            Action::Delete => self.delete,
            Action::CreateIndex => self.create_index,
            Action::DeleteIndex => self.delete_index,
            Action::GetMapping => self.get_mapping,
            Action::PutMapping => self.put_mapping,
        }
    }
}

impl ClusterActions {
    /// The actions that one of the privileges grants.
    pub fn of(privileges: &[ClusterPrivilege]) -> ClusterActions
        ensures { result ≡ cluster_actions_of privileges.now }
    {
        ClusterActions {
            security: some_grants_cluster(privileges, ClusterAction::Security),
            own_keys: some_grants_cluster(privileges, ClusterAction::OwnKeys),
            any_keys: some_grants_cluster(privileges, ClusterAction::AnyKeys),
        }
    }

    /// Whether the action is among them.
    pub fn has(&self, action: ClusterAction) -> bool
        ensures { result ≡ has_cluster_action self.now action }
    {
        match action {
            ClusterAction::Security => self.security,
            ClusterAction::OwnKeys => self.own_keys,
            ClusterAction::AnyKeys => self.any_keys,
        }
    }
}
