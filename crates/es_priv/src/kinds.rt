//! What can be done, and what can be granted.
use es_base::{Copied, NoMemory};
use std::alloc::Global;

/// What a request does to an index or to its documents.
#[derive(Clone, Copy, Debug, PartialEq, Eq)]
pub enum Action {
    /// Gets a document by its id.
    Get,
    /// Searches documents.
    Search,
    /// Puts a document, which may stand already.
    Put,
    /// Puts a document that does not stand yet.
    Create,
    /// Deletes a document.
    Delete,
    CreateIndex,
    DeleteIndex,
    /// Tells the fields of an index.
    GetMapping,
    /// Adds fields to an index.
    PutMapping,
}

/// What a request does to users, roles and keys.
#[derive(Clone, Copy, Debug, PartialEq, Eq)]
pub enum ClusterAction {
    /// Manages users and roles.
    Security,
    /// Manages the user's own keys.
    OwnKeys,
    /// Manages keys of all users.
    AnyKeys,
}

/// What a role grants on indices. `Monitor`, `Maintenance`, `AutoConfigure`, `ReadCrossCluster` and `None` grant
/// no action.
#[derive(Clone, Copy, Debug, PartialEq, Eq)]
pub enum IndexPrivilege {
    All,
    Read,
    Index,
    Write,
    CreateDoc,
    Delete,
    CreateIndex,
    DeleteIndex,
    Manage,
    ViewIndexMetadata,
    Monitor,
    Maintenance,
    AutoConfigure,
    ReadCrossCluster,
    None,
}

/// What a role grants on the cluster. `Monitor`, `Manage`, `ReadSecurity`, `ManageIndexTemplates`, `ManageIlm`,
/// `ManageIngestPipelines`, `ManagePipeline` and `None` grant no action.
#[derive(Clone, Copy, Debug, PartialEq, Eq)]
pub enum ClusterPrivilege {
    All,
    ManageSecurity,
    ManageApiKey,
    ManageOwnApiKey,
    Monitor,
    Manage,
    ReadSecurity,
    ManageIndexTemplates,
    ManageIlm,
    ManageIngestPipelines,
    ManagePipeline,
    None,
}

impl Copied for IndexPrivilege {
    fn copied(&self, _alloc: Global) -> Result<IndexPrivilege, NoMemory> {
        Ok(*self)
    }
}

impl Copied for ClusterPrivilege {
    fn copied(&self, _alloc: Global) -> Result<ClusterPrivilege, NoMemory> {
        Ok(*self)
    }
}
