//! A descriptor, made ready.
ghost use Rattle.std.specs.Prelude.{◌≡◌, ◌++◌, map, filter, IfOk, OnOk};
ghost use Rattle.std.specs.List.{list_any};
ghost use Rattle.es_glob.specs.Patterns.{any_fits};
ghost use Rattle.es_compose.specs.Roles.{counts, grants_index, grants_cluster};
ghost use Rattle.es_compose.specs.Ready.{ready, seen};

use crate::actions::ClusterActions;
use crate::member::Member;
use es_base::{NoMemory, Seq};
use es_priv::{Action, ClusterAction};
use es_role::{Descriptor, IndexGroup};
use std::alloc::Global;
use std::marker::Model;

/// A descriptor made ready: each member of `indices` with the actions that its privileges grant, its rule over fields and
/// its query, and the actions on the cluster. Contracts see the descriptor.
#[derive(Drop)]
pub struct RolePart {
    actions: ClusterActions,
    members: Seq<Member>,
    descriptor: Descriptor,
}

impl Model for RolePart {
    ghost use Rattle.std.specs.Prelude.{◌≡◌, map};
    ghost use Rattle.es_role.specs.declared.kinds.Descriptor.{Descriptor};
    ghost use Rattle.es_role.specs.contracts.kinds.Descriptor.{the_row};
    ghost use Rattle.es_compose.specs.Sets.{cluster_actions_of};
    ghost use Rattle.es_compose.specs.Ready.{ready};

    ghost Value = { Descriptor };

    ghost coded = { the_row.coded };

    ghost view = { λ part. part.descriptor };

    ghost invariant = { λ part. (part.actions ≡ cluster_actions_of part.descriptor.cluster) × (part.members ≡ map ready part.descriptor.indices) };
}

fn members_of(alloc: Global, groups: &[IndexGroup]) -> Result<Seq<Member>, NoMemory>
    ensures { IfOk result (λ members. members ≡ map ready groups.now) }
{
    let mut members = Seq::empty(alloc);
    for group in groups {
        members.push(Member::of(alloc, group)?)?;
    }
    Ok(members)
}

impl RolePart {
    /// The descriptor made ready. It is kept as it is.
    pub fn of(alloc: Global, descriptor: Descriptor) -> Result<RolePart, NoMemory>
        ensures { IfOk result (λ part. part ≡ descriptor) }
    {
        Ok(RolePart {
            actions: ClusterActions::of(descriptor.cluster.as_slice()),
            members: members_of(alloc, descriptor.indices.as_slice())?,
            descriptor,
        })
    }

    /// The descriptor.
    pub fn descriptor(&self) -> &Descriptor
        ensures { result.now ≡ self.now }
    {
        &self.descriptor
    }

    /// Whether one of its members counts for the action on the index.
    pub fn grants(&self, action: Action, index: &str) -> bool
        ensures { result ≡ grants_index action index.now self.now }
    {
        let groups = self.descriptor.indices.as_slice();
        some_counts(self.members.as_slice(), groups, action, index)
    }

    /// Whether one of its privileges grants the action on the cluster.
    pub fn grants_cluster(&self, action: ClusterAction) -> bool
        ensures { result ≡ grants_cluster action self.now }
    {
        self.actions.has(action)
    }

    /// Whether one of its patterns of users to run as fits the name.
    pub fn runs_as(&self, name: &str) -> bool
        ensures { result ≡ any_fits self.now.run_as name.now }
    {
        self.descriptor.run_as.matches(name)
    }

    /// Adds its members that count for the action on the index.
    pub(crate) fn add_counting<'a>(
        &'a self,
        found: &mut Vec<&'a Member>,
        action: Action,
        index: &str,
    ) -> Result<(), NoMemory>
        ensures { OnOk result (seen found.new.items ≡ seen found.old.items ++ map ready (filter (counts action index.now) self.now.indices)) }
    {
        let groups = self.descriptor.indices.as_slice();
        add_members(found, self.members.as_slice(), groups, action, index)
    }
}

fn some_counts(members: &[Member], groups: &[IndexGroup], action: Action, index: &str) -> bool
    requires { members.now ≡ map ready groups.now }
    ensures { result ≡ list_any (counts action index.now) groups.now }
{
    let mut found = false;
    for (place, group) in groups.iter().enumerate() {
        found = found || members[place].counts(group, action, index);
    }
    found
}

fn add_members<'a>(
    found: &mut Vec<&'a Member>,
    members: &'a [Member],
    groups: &[IndexGroup],
    action: Action,
    index: &str,
) -> Result<(), NoMemory>
    requires { members.now ≡ map ready groups.now }
    ensures { OnOk result (seen found.new.items ≡ seen found.old.items ++ map ready (filter (counts action index.now) groups.now)) }
{
    for (place, group) in groups.iter().enumerate() {
        let member = &members[place];
        if member.counts(group, action, index) {
            found.push(member)?;
        }
    }
    Ok(())
}
