//! Roles.
ghost use Rattle.std.specs.Prelude.{◌≡◌, map, IfOk};
ghost use Rattle.es_grammar.specs.Values.{has_some};
ghost use Rattle.es_compose.specs.Roles.{role_grants, role_grants_cluster, counting};
ghost use Rattle.es_compose.specs.Permissions.{permission_of, IsAlone, limited, role_runs_as};
ghost use Rattle.es_compose.specs.Ready.{ready, seen};

use crate::kinds::{DocClause, DocRule, Permission};
use crate::member::Member;
use crate::part::RolePart;
use crate::permitting::{documents, fields, granted};
use es_base::{NoMemory, Seq, Shared};
use es_glob::{FieldClause, FieldRule};
use es_priv::{Action, ClusterAction};
use es_role::Descriptor;
use es_tree::Person;
use std::alloc::Global;
use std::marker::Model;

/// Descriptors in order.
pub type Descriptors = Seq<Descriptor>;

/// Descriptors that were made ready, in order. Roles share them.
pub type RoleParts = Seq<Shared<RolePart>>;

/// Descriptors together: what any of them grants is granted. Contracts see the list of them.
#[derive(Drop)]
pub struct Role {
    parts: RoleParts,
}

impl Model for Role {
    ghost use Rattle.std.specs.Prelude.{List};
    ghost use Rattle.std.specs.Coded.{coded_list};
    ghost use Rattle.es_role.specs.declared.kinds.Descriptor.{Descriptor};
    ghost use Rattle.es_role.specs.contracts.kinds.Descriptor.{the_row};

    ghost Value = { List Descriptor };

    ghost coded = { coded_list the_row.coded };

    ghost view = { λ role. role.parts };
}

/// The role of the descriptors.
pub fn compose(alloc: Global, descriptors: Descriptors) -> Result<Role, NoMemory>
    ensures { IfOk result (λ role. role ≡ descriptors) }
{
    let mut parts = Seq::empty(alloc);
    for descriptor in descriptors.into_vec() {
        let part = RolePart::of(alloc, descriptor)?;
        parts.push(Shared::new(alloc, part)?)?;
    }
    Ok(Role { parts })
}

impl Role {
    /// The role of descriptors that were made ready. It takes no memory.
    pub fn of(parts: RoleParts) -> Role
        ensures { result ≡ parts }
    {
        Role { parts }
    }

    /// Whether the action on the index is granted: a member of a descriptor counts, that is one of its privileges
    /// grants the action and one of its patterns fits the index. It takes no memory.
    pub fn grants(&self, action: Action, index: &str) -> bool
        ensures granted { result ≡ role_grants self.now action index.now }
        ensures counting { result ≡ has_some (counting self.now action index.now) }
    {
        some_part(self.parts.as_slice(), action, index)
    }

    /// Whether one of the privileges grants the action on the cluster. It takes no memory.
    pub fn grants_cluster(&self, action: ClusterAction) -> bool
        ensures { result ≡ role_grants_cluster self.now action }
    {
        some_part_cluster(self.parts.as_slice(), action)
    }

    /// Whether a holder may run as the user of this name: one of the patterns fits. It takes no memory.
    pub fn runs_as(&self, name: &str) -> bool
        ensures { result ≡ role_runs_as self.now name.now }
    {
        some_part_runs_as(self.parts.as_slice(), name)
    }

    /// What the person is permitted for the action on the index: documents and fields are each united over the members
    /// that count. A template is filled only for a member that counts, and only where each of these has a query.
    pub fn permission(
        &self,
        alloc: Global,
        person: &Person,
        action: Action,
        index: &str,
    ) -> Result<Permission, NoMemory>
        ensures permission { IfOk result (λ permission. permission ≡ permission_of self.now person.now action index.now) }
        ensures alone { IfOk result (λ permission. IsAlone permission) }
    {
        let counting = members_counting(alloc, self.parts.as_slice(), action, index)?;
        let members = counting.as_slice();
        Ok(Permission {
            granted: granted(members),
            docs: DocRule {
                first: documents(alloc, person, members)?,
                second: DocClause::All,
            },
            fields: FieldRule {
                first: fields(alloc, members)?,
                second: FieldClause::All,
            },
        })
    }
}

/// What both permit, each of them a permission of its own: documents and fields have to be permitted by both.
#[tactic(auto, unfolding(crate::specs::Permissions::limited))]
pub fn limit(own: Permission, limits: Permission) -> Permission
    requires own { IsAlone own }
    requires limits { IsAlone limits }
    ensures { result ≡ limited own limits }
{
    Permission {
        granted: own.granted && limits.granted,
        docs: both_docs(own.docs, limits.docs),
        fields: both_fields(own.fields, limits.fields),
    }
}

fn both_docs(own: DocRule, limits: DocRule) -> DocRule
    ensures { result ≡ record { first = own.first; second = limits.first } }
{
    DocRule {
        first: own.first,
        second: limits.first,
    }
}

fn both_fields(own: FieldRule, limits: FieldRule) -> FieldRule
    ensures { result ≡ record { first = own.first; second = limits.first } }
{
    FieldRule {
        first: own.first,
        second: limits.first,
    }
}

// The members that count for the action on the index, in the order of the parts.
fn members_counting<'a>(
    alloc: Global,
    parts: &'a [Shared<RolePart>],
    action: Action,
    index: &str,
) -> Result<Vec<&'a Member>, NoMemory>
    ensures { IfOk result (λ members. seen members.items ≡ map ready (counting parts.now action index.now)) }
{
    let mut members = Vec::new(alloc);
    for part in parts {
        part.get().add_counting(&mut members, action, index)?;
    }
    Ok(members)
}

#[tactic(auto, unfolding(crate::specs::Roles::role_grants))]
fn some_part(parts: &[Shared<RolePart>], action: Action, index: &str) -> bool
    ensures { result ≡ role_grants parts.now action index.now }
{
    parts.iter().any(|part| part.get().grants(action, index))
}

#[tactic(auto, unfolding(crate::specs::Roles::role_grants_cluster))]
fn some_part_cluster(parts: &[Shared<RolePart>], action: ClusterAction) -> bool
    ensures { result ≡ role_grants_cluster parts.now action }
{
    parts.iter().any(|part| part.get().grants_cluster(action))
}

#[tactic(auto, unfolding(crate::specs::Permissions::role_runs_as))]
fn some_part_runs_as(parts: &[Shared<RolePart>], name: &str) -> bool
    ensures { result ≡ role_runs_as parts.now name.now }
{
    parts.iter().any(|part| part.get().runs_as(name))
}
