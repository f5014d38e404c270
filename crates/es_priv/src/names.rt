//! Names of privileges and actions.
ghost use Rattle.std.specs.Prelude.{◌≡◌, IfSome, Some};
ghost use Rattle.es_priv.specs.Names.{index_name_of, cluster_name_of, action_name_of, cluster_action_name_of, index_named, cluster_named};

use crate::kinds::{Action, ClusterAction, ClusterPrivilege, IndexPrivilege};

const INDEX_PRIVILEGES: [IndexPrivilege; 15] = [
    IndexPrivilege::All,
    IndexPrivilege::Read,
    IndexPrivilege::Index,
    IndexPrivilege::Write,
    IndexPrivilege::CreateDoc,
    IndexPrivilege::Delete,
    IndexPrivilege::CreateIndex,
    IndexPrivilege::DeleteIndex,
    IndexPrivilege::Manage,
    IndexPrivilege::ViewIndexMetadata,
    IndexPrivilege::Monitor,
    IndexPrivilege::Maintenance,
    IndexPrivilege::AutoConfigure,
    IndexPrivilege::ReadCrossCluster,
    IndexPrivilege::None,
];

const CLUSTER_PRIVILEGES: [ClusterPrivilege; 12] = [
    ClusterPrivilege::All,
    ClusterPrivilege::ManageSecurity,
    ClusterPrivilege::ManageApiKey,
    ClusterPrivilege::ManageOwnApiKey,
    ClusterPrivilege::Monitor,
    ClusterPrivilege::Manage,
    ClusterPrivilege::ReadSecurity,
    ClusterPrivilege::ManageIndexTemplates,
    ClusterPrivilege::ManageIlm,
    ClusterPrivilege::ManageIngestPipelines,
    ClusterPrivilege::ManagePipeline,
    ClusterPrivilege::None,
];

/// The index privilege of a name. `None` where no index privilege has it; names are compared byte for byte.
#[tactic(auto, unfolding(crate::specs::Names::index_named))]
pub fn read_index(name: &str) -> Option<IndexPrivilege>
    ensures value { result ≡ index_named name.now }
    ensures named { IfSome result (λ privilege. name.now ≡ index_name_of privilege) }
{
    INDEX_PRIVILEGES
        .iter()
        .copied()
        .find(|privilege| index_name(*privilege) == name)
}

/// The cluster privilege of a name. `None` where no cluster privilege has it; names are compared byte for byte.
#[tactic(auto, unfolding(crate::specs::Names::cluster_named))]
pub fn read_cluster(name: &str) -> Option<ClusterPrivilege>
    ensures value { result ≡ cluster_named name.now }
    ensures named { IfSome result (λ privilege. name.now ≡ cluster_name_of privilege) }
{
    CLUSTER_PRIVILEGES
        .iter()
        .copied()
        .find(|privilege| cluster_name(*privilege) == name)
}

/// The name of an index privilege.
#[tactic(auto, unfolding(crate::specs::Names::index_named))]
pub fn index_name(privilege: IndexPrivilege) -> &'static str
    ensures name { result.now ≡ index_name_of privilege }
    ensures reads { index_named result.now ≡ Some privilege }
{
    match privilege {
        IndexPrivilege::All => "all",
        IndexPrivilege::Read => "read",
        IndexPrivilege::Index => "index",
        IndexPrivilege::Write => "write",
        IndexPrivilege::CreateDoc => "create_doc",
        IndexPrivilege::Delete => "delete",
        IndexPrivilege::CreateIndex => "create_index",
        IndexPrivilege::DeleteIndex => "delete_index",
        IndexPrivilege::Manage => "manage",
        IndexPrivilege::ViewIndexMetadata => "view_index_metadata",
        IndexPrivilege::Monitor => "monitor",
        IndexPrivilege::Maintenance => "maintenance",
        IndexPrivilege::AutoConfigure => "auto_configure",
        IndexPrivilege::ReadCrossCluster => "read_cross_cluster",
        IndexPrivilege::None => "none",
    }
}

/// The name of a cluster privilege.
#[tactic(auto, unfolding(crate::specs::Names::cluster_named))]
pub fn cluster_name(privilege: ClusterPrivilege) -> &'static str
    ensures name { result.now ≡ cluster_name_of privilege }
    ensures reads { cluster_named result.now ≡ Some privilege }
{
    match privilege {
        ClusterPrivilege::All => "all",
        ClusterPrivilege::ManageSecurity => "manage_security",
        ClusterPrivilege::ManageApiKey => "manage_api_key",
        ClusterPrivilege::ManageOwnApiKey => "manage_own_api_key",
        ClusterPrivilege::Monitor => "monitor",
        ClusterPrivilege::Manage => "manage",
        ClusterPrivilege::ReadSecurity => "read_security",
        ClusterPrivilege::ManageIndexTemplates => "manage_index_templates",
        ClusterPrivilege::ManageIlm => "manage_ilm",
        ClusterPrivilege::ManageIngestPipelines => "manage_ingest_pipelines",
        ClusterPrivilege::ManagePipeline => "manage_pipeline",
        ClusterPrivilege::None => "none",
    }
}

/// The name of an action on an index.
pub fn action_name(action: Action) -> &'static str
    ensures { result.now ≡ action_name_of action }
{
    match action {
        Action::Get => "get",
        Action::Search => "search",
        Action::Put => "put",
        Action::Create => "create",
        Action::Delete => "delete",
        Action::CreateIndex => "create_index",
        Action::DeleteIndex => "delete_index",
        Action::GetMapping => "get_mapping",
        Action::PutMapping => "put_mapping",
    }
}

/// The name of an action on the cluster.
pub fn cluster_action_name(action: ClusterAction) -> &'static str
    ensures { result.now ≡ cluster_action_name_of action }
{
    match action {
        ClusterAction::Security => "security",
        ClusterAction::OwnKeys => "own_keys",
        ClusterAction::AnyKeys => "any_keys",
    }
}
