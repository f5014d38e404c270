//! A member of a descriptor's `indices`, made ready.
ghost use Rattle.std.specs.Prelude.{◌≡◌, option_map, IfOk};
ghost use Rattle.es_compose.specs.Checked.{role_query};
ghost use Rattle.es_compose.specs.Roles.{counts};
ghost use Rattle.es_compose.specs.Ready.{ready};

use crate::actions::Actions;
use crate::query::{RoleQuery, role_query};
use es_base::{NoMemory, Shared};
use es_glob::FieldPair;
use es_priv::Action;
use es_role::IndexGroup;
use es_tree::Tree;
use std::alloc::Global;

/// What a member of `indices` grants, made ready.
#[derive(Drop)]
pub struct Member {
    /// The actions that its privileges grant.
    pub actions: Actions,
    /// Its rule over fields.
    pub fields: Option<Shared<FieldPair>>,
    /// Its query.
    pub query: Option<RoleQuery>,
}

fn ready_fields(
    alloc: Global,
    fields: &Option<FieldPair>,
) -> Result<Option<Shared<FieldPair>>, NoMemory>
    ensures { IfOk result (λ pair. pair ≡ fields.now) }
{
    match fields {
        Some(pair) => Ok(Some(Shared::new(alloc, pair.copy(alloc)?)?)),
        None => Ok(None),
    }
}

fn ready_query(alloc: Global, query: &Option<Tree>) -> Result<Option<RoleQuery>, NoMemory>
    ensures { IfOk result (λ found. found ≡ option_map role_query query.now) }
{
    match query {
        Some(tree) => Ok(Some(role_query(alloc, tree)?)),
        None => Ok(None),
    }
}

impl Member {
    /// The member made ready.
    #[tactic(auto, unfolding(crate::specs::Ready::ready))]
    pub fn of(alloc: Global, group: &IndexGroup) -> Result<Member, NoMemory>
        ensures { IfOk result (λ member. member ≡ ready group.now) }
    {
        Ok(Member {
            actions: Actions::of(group.privileges.as_slice()),
            fields: ready_fields(alloc, &group.fields)?,
            query: ready_query(alloc, &group.query)?,
        })
    }

    /// Whether the member of `indices` that it was made of counts for the action on the index: one of its privileges
    /// grants the action, and one of its patterns fits the index. The patterns are looked at only where the action is
    /// granted.
    pub fn counts(&self, group: &IndexGroup, action: Action, index: &str) -> bool
        ensures { self.now ≡ ready group.now → result ≡ counts action index.now group.now }
    {
        self.actions.has(action) && group.names.matches(index)
    }
}
