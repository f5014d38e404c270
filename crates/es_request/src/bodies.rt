//! What a request's body is.
ghost use Rattle.std.specs.Prelude.{◌≡◌, [], IfOk};
ghost use Rattle.es_grammar.specs.Values.{object_form};
ghost use Rattle.es_grammar.specs.Reading.{Reading, Gives, placed, or_empty};
ghost use Rattle.es_request.specs.Bodies.{or_bad_body, tree_of_body, body_of, document_of, descriptor_of, user_of, creation_form, mapping_of_creation};
ghost use Rattle.es_request.specs.Keys.{new_key_of, invalidate_of};

use crate::keys::{Asked, PartForm, invalidation_from, new_key_from};
use es_base::{NoMemory, Shared};
use es_compose::RolePart;
use es_cred::UserRecord;
use es_grammar::{Form, Object, ends, members_of, optional, placed};
use es_keys::NewKey;
use es_mapping::{Mapping, MappingForm};
use es_reply::{Reply, bad_body, bad_json};
use es_tree::{BodyFault, Tree, TreeFault, read};
use std::alloc::Global;

/// The tree that the body is, or the reply to a body that is none.
fn tree_in(alloc: Global, body: &[u8]) -> Result<Result<Tree, Reply>, NoMemory>
    ensures { IfOk result (λ found. found ≡ tree_of_body body.now) }
{
    match read(alloc, body) {
        Ok(tree) => Ok(Ok(tree)),
        Err(TreeFault::NotJson) => Ok(Err(bad_json(alloc, "the body is not JSON")?)),
        Err(TreeFault::TooDeep) => Ok(Err(bad_json(alloc, "the body is nested too deeply")?)),
        Err(TreeFault::NotWhole) => Ok(Err(bad_json(
            alloc,
            "the body has a number that is not a 64-bit whole number",
        )?)),
        Err(TreeFault::NoMemory) => Err(NoMemory),
    }
}

/// What was read of a body's tree, or the reply that names the place of the first fault.
fn or_bad_body<T: Drop>(
    alloc: Global,
    read: Result<T, BodyFault>,
) -> Result<Result<T, Reply>, NoMemory>
    ensures { (form : Reading T) → Gives read form → IfOk result (λ found. found ≡ or_bad_body form) }
{
    match read {
        Ok(value) => Ok(Ok(value)),
        Err(BodyFault::Bad { place }) => Ok(Err(bad_body(alloc, place.text())?)),
        Err(BodyFault::NoMemory) => Err(NoMemory),
    }
}

/// The document that the body is.
#[tactic(auto, unfolding(crate::specs::Bodies::body_of))]
pub(crate) fn document_in(alloc: Global, body: &[u8]) -> Result<Result<Tree, Reply>, NoMemory>
    ensures { IfOk result (λ found. found ≡ document_of body.now) }
{
    match tree_in(alloc, body)? {
        Ok(tree) => object_in(alloc, tree),
        Err(reply) => Ok(Err(reply)),
    }
}

fn object_in(alloc: Global, tree: Tree) -> Result<Result<Tree, Reply>, NoMemory>
    ensures { IfOk result (λ found. found ≡ or_bad_body (placed [] (object_form tree))) }
{
    match tree {
        Tree::Object(members) => Ok(Ok(Tree::Object(members))),
        _ => Ok(Err(bad_body(alloc, "")?)),
    }
}

/// The descriptor that the body is, with its queries in their canonical form, made ready.
#[tactic(auto, unfolding(crate::specs::Bodies::body_of))]
pub(crate) fn role_in(
    alloc: Global,
    body: &[u8],
) -> Result<Result<Shared<RolePart>, Reply>, NoMemory>
    ensures { IfOk result (λ found. found ≡ descriptor_of body.now) }
{
    match tree_in(alloc, body)? {
        Ok(tree) => or_bad_body(alloc, placed(alloc, "", PartForm::read(alloc, &tree))),
        Err(reply) => Ok(Err(reply)),
    }
}

/// The user of this name that the body is.
#[tactic(auto, unfolding(crate::specs::Bodies::body_of))]
pub(crate) fn user_in(
    alloc: Global,
    name: &str,
    body: &[u8],
) -> Result<Result<UserRecord, Reply>, NoMemory>
    ensures { IfOk result (λ found. found ≡ user_of name.now body.now) }
{
    match tree_in(alloc, body)? {
        Ok(tree) => or_bad_body(alloc, UserRecord::read(alloc, name, &tree, "")),
        Err(reply) => Ok(Err(reply)),
    }
}

/// The key that the body asks for.
#[tactic(auto, unfolding(crate::specs::Bodies::body_of))]
pub(crate) fn new_key_in(alloc: Global, body: &[u8]) -> Result<Result<NewKey, Reply>, NoMemory>
    ensures { IfOk result (λ found. found ≡ new_key_of body.now) }
{
    match tree_in(alloc, body)? {
        Ok(tree) => or_bad_body(alloc, placed(alloc, "", new_key_from(alloc, &tree))),
        Err(reply) => Ok(Err(reply)),
    }
}

/// Which keys the body asks to invalidate.
#[tactic(auto, unfolding(crate::specs::Bodies::body_of))]
pub(crate) fn invalidation_in(alloc: Global, body: &[u8]) -> Result<Result<Asked, Reply>, NoMemory>
    ensures { IfOk result (λ found. found ≡ invalidate_of body.now) }
{
    match tree_in(alloc, body)? {
        Ok(tree) => or_bad_body(alloc, placed(alloc, "", invalidation_from(alloc, &tree))),
        Err(reply) => Ok(Err(reply)),
    }
}

/// The mapping of an index that is created with this body.
pub(crate) fn mapping_in(alloc: Global, body: &[u8]) -> Result<Result<Mapping, Reply>, NoMemory>
    ensures { IfOk result (λ found. found ≡ mapping_of_creation body.now) }
{
    match body {
        [] => Ok(Ok(Mapping::empty(alloc))),
        _ => creation_in(alloc, body),
    }
}

/// The same of a body that isn't empty.
#[tactic(auto, unfolding(crate::specs::Bodies::body_of))]
fn creation_in(alloc: Global, body: &[u8]) -> Result<Result<Mapping, Reply>, NoMemory>
    ensures { IfOk result (λ found. found ≡ body_of creation_form body.now) }
{
    match tree_in(alloc, body)? {
        Ok(tree) => or_bad_body(alloc, placed(alloc, "", creation_from(alloc, &tree))),
        Err(reply) => Ok(Err(reply)),
    }
}

#[tactic(auto, unfolding(crate::specs::Bodies::creation_form))]
fn creation_from(alloc: Global, tree: &Tree) -> Result<Mapping, BodyFault>
    ensures { Gives result (creation_form tree.now) }
{
    let members = members_of(alloc, tree)?;
    let (mapping, members) = optional::<MappingForm>(alloc, "mappings", members)?;
    let (_, members) = optional::<Object>(alloc, "settings", members)?;
    ends(alloc, members)?;
    Ok(or_no_fields(alloc, mapping))
}

/// An absent mapping has no fields.
fn or_no_fields(alloc: Global, found: Option<Mapping>) -> Mapping
    ensures { result ≡ or_empty found }
{
    match found {
        Some(mapping) => mapping,
        None => Mapping::empty(alloc),
    }
}
