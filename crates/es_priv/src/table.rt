//! Which privileges grant which action. The table stands here alone.
ghost use Rattle.std.specs.Prelude.{◌≡◌, ◌↔◌, IsTrue, Contains};
ghost use Rattle.es_priv.specs.Table.{granting_of, granting_cluster_of, grants_of, grants_cluster_of};

use crate::kinds::{Action, ClusterAction, ClusterPrivilege, IndexPrivilege};

/// The privileges that grant an action on an index, from the narrowest on.
pub fn granting(action: Action) -> &'static [IndexPrivilege]
    ensures { result.now ≡ granting_of action }
{
    match action {
        Action::Get | Action::Search => &[IndexPrivilege::Read, IndexPrivilege::All],
        Action::Put => &[
            IndexPrivilege::Index,
            IndexPrivilege::Write,
            IndexPrivilege::All,
        ],
        Action::Create => &[
            IndexPrivilege::CreateDoc,
            IndexPrivilege::Index,
            IndexPrivilege::Write,
            IndexPrivilege::All,
        ],
        Action::Delete => &[
            IndexPrivilege::Delete,
            IndexPrivilege::Write,
            IndexPrivilege::All,
        ],
        Action::CreateIndex => &[
            IndexPrivilege::CreateIndex,
            IndexPrivilege::Manage,
            IndexPrivilege::All,
        ],
        Action::DeleteIndex => &[
            IndexPrivilege::DeleteIndex,
            IndexPrivilege::Manage,
            IndexPrivilege::All,
        ],
        Action::GetMapping => &[
            IndexPrivilege::ViewIndexMetadata,
            IndexPrivilege::Manage,
            IndexPrivilege::All,
        ],
        Action::PutMapping => &[IndexPrivilege::Manage, IndexPrivilege::All],
    }
}

/// The privileges that grant an action on the cluster, from the narrowest on.
pub fn granting_cluster(action: ClusterAction) -> &'static [ClusterPrivilege]
    ensures { result.now ≡ granting_cluster_of action }
{
    match action {
        ClusterAction::Security => &[ClusterPrivilege::ManageSecurity, ClusterPrivilege::All],
        ClusterAction::OwnKeys => &[
            ClusterPrivilege::ManageOwnApiKey,
            ClusterPrivilege::ManageApiKey,
            ClusterPrivilege::ManageSecurity,
            ClusterPrivilege::All,
        ],
        ClusterAction::AnyKeys => &[
            ClusterPrivilege::ManageApiKey,
            ClusterPrivilege::ManageSecurity,
            ClusterPrivilege::All,
        ],
    }
}

/// Whether a privilege grants an action on an index.
pub fn grants(privilege: IndexPrivilege, action: Action) -> bool
    ensures value { result ≡ grants_of privilege action }
    ensures row { IsTrue result ↔ Contains (granting_of action) privilege }
{
    granting(action).contains(&privilege)
}

/// Whether a privilege grants an action on the cluster.
pub fn grants_cluster(privilege: ClusterPrivilege, action: ClusterAction) -> bool
    ensures value { result ≡ grants_cluster_of privilege action }
    ensures row { IsTrue result ↔ Contains (granting_cluster_of action) privilege }
{
    granting_cluster(action).contains(&privilege)
}
