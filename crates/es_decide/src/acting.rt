//! The halves that decide.
ghost use Rattle.std.specs.Prelude.{◌≡◌, IfOk};
ghost use Rattle.es_compose.specs.Roles.{role_grants, role_grants_cluster};
ghost use Rattle.es_compose.specs.Permissions.{role_runs_as};
ghost use Rattle.es_decide.specs.Decisions.{own, acting_for, each_half, permitted_for};
ghost use Rattle.es_decide.specs.Lent.{halves_as};

use crate::kinds::Halves;
use es_base::{NoMemory, Seq};
use es_compose::{Permission, Role, limit};
use es_keys::Target;
use es_priv::{Action, ClusterAction};
use es_tree::Person;
use std::alloc::Global;

/// The halves that decide together.
#[derive(Clone, Copy)]
pub enum Acting<'h> {
    /// Nobody decides, and so nothing is granted.
    Nobody,
    /// One alone.
    One(&'h Role),
    /// One, and the one that limits it.
    Limited(&'h Role, &'h Role),
}

/// The halves of the caller itself.
#[tactic(auto, unfolding(crate::specs::Decisions::own))]
pub fn own_halves<'h>(halves: &'h Halves) -> Acting<'h>
    ensures { halves_as result ≡ own halves.now }
{
    match &halves.limit {
        None => Acting::One(halves.first.get()),
        Some(limits) => Acting::Limited(halves.first.get(), limits.get()),
    }
}

/// The halves that decide where the caller acts as the target.
#[tactic(auto, unfolding(crate::specs::Decisions::acting_for))]
pub fn acting_halves<'h>(target: &Target, halves: &'h Halves) -> Acting<'h>
    ensures { halves_as result ≡ acting_for target.now halves.now }
{
    match target {
        Target::Own => own_halves(halves),
        Target::As(_) => match &halves.target {
            Some(role) => Acting::One(role.get()),
            None => Acting::Nobody,
        },
        Target::Unknown => Acting::Nobody,
    }
}

impl<'h> Acting<'h> {
    /// Whether each half lets its holder run as the user of this name.
    #[tactic(auto, unfolding(es_compose::specs::Permissions::role_runs_as))]
    pub fn runs_as(self, name: &str) -> bool
        ensures { result ≡ each_half (λ role. role_runs_as role name.now) (halves_as self.entry) }
    {
        match self {
            Acting::Nobody => false,
            Acting::One(role) => role.runs_as(name),
            Acting::Limited(own, limits) => own.runs_as(name) && limits.runs_as(name),
        }
    }

    /// Whether each half grants the action on the index.
    #[tactic(auto, unfolding(es_compose::specs::Roles::role_grants))]
    pub fn grants(self, action: Action, index: &str) -> bool
        ensures { result ≡ each_half (λ role. role_grants role action index.now) (halves_as self.entry) }
    {
        match self {
            Acting::Nobody => false,
            Acting::One(role) => role.grants(action, index),
            Acting::Limited(own, limits) => {
                own.grants(action, index) && limits.grants(action, index)
            }
        }
    }

    /// Whether each half grants the action on the cluster.
    #[tactic(auto, unfolding(es_compose::specs::Roles::role_grants_cluster))]
    pub fn grants_cluster(self, action: ClusterAction) -> bool
        ensures { result ≡ each_half (λ role. role_grants_cluster role action) (halves_as self.entry) }
    {
        match self {
            Acting::Nobody => false,
            Acting::One(role) => role.grants_cluster(action),
            Acting::Limited(own, limits) => {
                own.grants_cluster(action) && limits.grants_cluster(action)
            }
        }
    }

    /// What each half permits the person for the action on the index.
    pub fn permission(
        self,
        alloc: Global,
        person: &Person,
        action: Action,
        index: &str,
    ) -> Result<Permission, NoMemory>
        ensures { IfOk result (λ permission. permission ≡ permitted_for person.now action index.now (halves_as self.entry)) }
    {
        match self {
            Acting::Nobody => Role::of(Seq::empty(alloc)).permission(alloc, person, action, index),
            Acting::One(role) => role.permission(alloc, person, action, index),
            Acting::Limited(own, limits) => {
                let own = own.permission(alloc, person, action, index)?;
                let limits = limits.permission(alloc, person, action, index)?;
                Ok(limit(own, limits))
            }
        }
    }
}
