//! What a descriptor says.
ghost use Rattle.std.specs.Prelude.{◌≡◌, IfOk};
ghost use Rattle.es_role.specs.Descriptors.{grants_nothing};

use es_base::{Copied, NoMemory, Seq};
use es_glob::{FieldPair, PatternSet};
use es_priv::{ClusterPrivilege, IndexPrivilege};
use es_tree::Tree;
use std::alloc::Global;

/// Privileges on the cluster, in order.
pub type ClusterPrivileges = Seq<ClusterPrivilege>;

/// Privileges on indices, in order.
pub type IndexPrivileges = Seq<IndexPrivilege>;

/// Members of `indices`, in order.
pub type IndexGroups = Seq<IndexGroup>;

/// What a role grants.
#[derive(Debug, Drop)]
pub struct Descriptor {
    pub cluster: ClusterPrivileges,
    pub indices: IndexGroups,
    /// Patterns over the names of the users that it may run as.
    pub run_as: PatternSet,
    /// An object that an administrator noted.
    pub metadata: Tree,
}

/// A member of `indices`: what a role grants on the indices that its patterns fit.
#[derive(Debug, Drop)]
pub struct IndexGroup {
    /// Patterns over names of indices, of which one has to fit.
    pub names: PatternSet,
    pub privileges: IndexPrivileges,
    /// Which fields are granted; all, where it is absent.
    pub fields: Option<FieldPair>,
    /// Which documents are granted; all, where it is absent.
    pub query: Option<Tree>,
}

impl IndexGroup {
    /// An equal member.
    pub fn copy(&self, alloc: Global) -> Result<IndexGroup, NoMemory>
        ensures { IfOk result (λ copy. copy ≡ self.now) }
    {
        Ok(IndexGroup {
            names: self.names.copy(alloc)?,
            privileges: self.privileges.copy(alloc)?,
            fields: copy_if_given(alloc, &self.fields)?,
            query: copy_if_given(alloc, &self.query)?,
        })
    }
}

impl Copied for IndexGroup {
    fn copied(&self, alloc: Global) -> Result<IndexGroup, NoMemory> {
        self.copy(alloc)
    }
}

fn copy_if_given<T: Copied + Drop>(alloc: Global, value: &Option<T>) -> Result<Option<T>, NoMemory>
    ensures { IfOk result (λ copy. copy ≡ value.now) }
{
    match value {
        Some(value) => Ok(Some(value.copied(alloc)?)),
        None => Ok(None),
    }
}

impl Descriptor {
    /// Whether it grants nothing: it has no privilege on the cluster, no member of `indices`, and no pattern of users to
    /// run as.
    pub fn grants_nothing(&self) -> bool
        ensures { result ≡ grants_nothing self.now }
    {
        self.cluster.is_empty() && self.indices.is_empty() && self.run_as.patterns().is_empty()
    }

    /// An equal descriptor.
    pub fn copy(&self, alloc: Global) -> Result<Descriptor, NoMemory>
        ensures { IfOk result (λ copy. copy ≡ self.now) }
    {
        Ok(Descriptor {
            cluster: self.cluster.copy(alloc)?,
            indices: self.indices.copy(alloc)?,
            run_as: self.run_as.copy(alloc)?,
            metadata: self.metadata.copy(alloc)?,
        })
    }
}

impl Copied for Descriptor {
    fn copied(&self, alloc: Global) -> Result<Descriptor, NoMemory> {
        self.copy(alloc)
    }
}
