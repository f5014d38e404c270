//! What a rule over fields leaves of a document.
ghost use Rattle.std.specs.Prelude.{◌≡◌, IfOk, OnOk};
ghost use Rattle.std.specs.List.{filter_map};
ghost use Rattle.es_fields.specs.Projection.{member_if, list_if_any, object_if_any, left_of, project_of};
ghost use Rattle.es_fields.specs.Trails.{grants_behind, left_in};

use crate::trail::Trail;
use es_base::{NoMemory, Seq, Str};
use es_glob::FieldRule;
use es_tree::{Member, Members, Tree, Trees};
use std::alloc::Global;

/// What the rule leaves of a document: where it grants every field all of it, and else the scalars whose fields it
/// grants, in lists and objects that aren't empty. The outermost object stays, though nothing be left in it. It copies
/// what it keeps alone, and asks the rule once for each scalar.
#[tactic(auto, using(crate::proofs::Left::whole_laws))]
pub fn project(alloc: Global, rule: &FieldRule, document: &Tree) -> Result<Tree, NoMemory>
    ensures { IfOk result (λ projection. projection ≡ project_of rule.now document.now) }
{
    if rule.grants_all() {
        return document.copy(alloc);
    }
    match left_of(alloc, rule, document, &mut Trail::new(alloc))? {
        Some(left) => Ok(left),
        None => Ok(Tree::Object(Members::empty(alloc))),
    }
}

// What is left of a tree to which the trail leads, if anything is.
#[cycle(projecting)]
#[tactic(auto, using(crate::proofs::Left::left_laws))]
fn left_of(
    alloc: Global,
    rule: &FieldRule,
    tree: &Tree,
    trail: &mut Trail,
) -> Result<Option<Tree>, NoMemory>
    ensures left { IfOk result (λ left. left ≡ left_of tree.now (grants_behind rule.now trail.old)) }
    ensures trail { OnOk result (trail.new ≡ trail.old) }
{
    match tree {
        Tree::Null | Tree::Bool(_) | Tree::Int(_) | Tree::Text(_) => {
            if rule.grants(trail.path()) {
                Ok(Some(tree.copy(alloc)?))
            } else {
                Ok(None)
            }
        }
        Tree::List(items) => {
            let items = items_left(alloc, rule, items.as_slice(), trail)?;
            Ok(list_if_any(items))
        }
        Tree::Object(members) => {
            let members = members_left(alloc, rule, members, trail)?;
            Ok(object_if_any(members))
        }
    }
}

#[cycle(projecting)]
fn items_left(
    alloc: Global,
    rule: &FieldRule,
    items: &[Tree],
    trail: &mut Trail,
) -> Result<Trees, NoMemory>
    ensures left { IfOk result (λ left. left ≡ filter_map (λ t. left_of t (grants_behind rule.now trail.old)) items.now) }
    ensures trail { OnOk result (trail.new ≡ trail.old) }
{
    let mut left = Seq::empty(alloc);
    for item in items {
        if let Some(item) = left_of(alloc, rule, item, trail)? {
            left.push(item)?;
        }
    }
    Ok(left)
}

#[cycle(projecting)]
#[tactic(auto, using(crate::proofs::Left::trail_laws))]
fn members_left(
    alloc: Global,
    rule: &FieldRule,
    members: &Members,
    trail: &mut Trail,
) -> Result<Members, NoMemory>
    ensures left { IfOk result (λ left. left ≡ filter_map (left_in (grants_behind rule.now trail.old)) members.now) }
    ensures trail { OnOk result (trail.new ≡ trail.old) }
{
    let mut left = Seq::empty(alloc);
    for member in members.as_slice() {
        let place = trail.enter(member.name.text())?;
        let value = left_of(alloc, rule, &member.value, trail)?;
        trail.cut(place);
        if let Some(member) = member_if(alloc, &member.name, value)? {
            left.push(member)?;
        }
    }
    Ok(Members::of(left))
}

// A member of this name, if there is a value.
fn member_if(alloc: Global, name: &Str, value: Option<Tree>) -> Result<Option<Member>, NoMemory>
    ensures { IfOk result (λ member. member ≡ member_if name.now value) }
{
    match value {
        Some(value) => {
            let name = name.copy(alloc)?;
            Ok(Some(Member { name, value }))
        }
        None => Ok(None),
    }
}

// The list of these items, if there are any.
fn list_if_any(items: Trees) -> Option<Tree>
    ensures { result ≡ list_if_any items }
{
    if items.is_empty() {
        None
    } else {
        Some(Tree::List(items))
    }
}

// The object of these members, if there are any.
fn object_if_any(members: Members) -> Option<Tree>
    ensures { result ≡ object_if_any members }
{
    if members.is_empty() {
        None
    } else {
        Some(Tree::Object(members))
    }
}
