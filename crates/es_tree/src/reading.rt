//! From bytes to a tree.
ghost use Rattle.std.specs.Prelude.{map, ◌≡◌, ◌≤◌, ◌↔◌, ◌⊎◌, IsTrue, Ok, Err, IfOk, IfErr};
ghost use Rattle.std.specs.List.{list_all};
ghost use Rattle.serde_json.specs.Data.{depth, items_depth, members_depth};
ghost use Rattle.serde_json.specs.View.{view, items_view, members_view};
ghost use Rattle.es_tree.specs.Rising.{is_rising, name_of};
ghost use Rattle.es_tree.specs.Order.{is_ordered, levels_of};
ghost use Rattle.es_tree.specs.Read.{read_of, read_within_of, tree_of, trees_of, members_of, Converts, max_levels};

use crate::fault::TreeFault;
use crate::room::room_for;
use crate::tree::{Member, Members, Tree, Trees};
use es_base::Str;
use serde_json::{Map, Value};
use std::alloc::Global;

/// How many lists and objects may stand inside one another.
pub const MAX_LEVELS: usize = 30;

/// The tree that the bytes are, as JSON (RFC 8259), with at most 30 lists and objects inside one another. Of
/// members with one name the last counts, and what it replaces is looked at for `NotJson` alone.
pub fn read(alloc: Global, bytes: &[u8]) -> Result<Tree, TreeFault>
    ensures found { IfOk result (λ tree. read_of bytes.now ≡ Ok tree) }
    ensures fault { IfErr result (λ fault. (fault ≡ TreeFault.NoMemory) ⊎ (read_of bytes.now ≡ Err fault)) }
    ensures levels { IfOk result (λ tree. levels_of tree ≤ max_levels) }
    ensures ordered { IfOk result (λ tree. IsTrue (is_ordered tree)) }
{
    read_within(alloc, MAX_LEVELS, bytes)
}

/// The same with at most `limit` lists and objects inside one another. From 127 on the limit changes nothing: bytes
/// of more levels are `NotJson`.
pub fn read_within(alloc: Global, limit: usize, bytes: &[u8]) -> Result<Tree, TreeFault>
    ensures found { IfOk result (λ tree. read_within_of limit bytes.now ≡ Ok tree) }
    ensures fault { IfErr result (λ fault. (fault ≡ TreeFault.NoMemory) ⊎ (read_within_of limit bytes.now ≡ Err fault)) }
    ensures levels { IfOk result (λ tree. levels_of tree ≤ limit) }
    ensures ordered { IfOk result (λ tree. IsTrue (is_ordered tree)) }
{
    let value = match Value::from_slice(alloc, bytes) {
        Ok(value) => value,
        Err(error) => {
            return if error.is_memory() {
                Err(TreeFault::NoMemory)
            } else {
                Err(TreeFault::NotJson)
            };
        }
    };
    if !is_within(&value, limit) {
        return Err(TreeFault::TooDeep);
    }
    tree_from(alloc, value)
}

#[cycle(levels)]
fn is_within(value: &Value, limit: usize) -> bool
    ensures { IsTrue result ↔ (depth (view value.now) ≤ limit) }
{
    match value {
        Value::Array(items) => limit > 0 && items_within(items, limit - 1),
        Value::Object(members) => limit > 0 && members_within(members, limit - 1),
        _ => true,
    }
}

#[cycle(levels)]
fn items_within(items: &Vec<Value>, limit: usize) -> bool
    ensures { IsTrue result ↔ (items_depth (items_view items.now.items) ≤ limit) }
{
    for item in items {
        if !is_within(item, limit) {
            return false;
        }
    }
    true
}

#[cycle(levels)]
fn members_within(members: &Map<String, Value>, limit: usize) -> bool
    ensures { IsTrue result ↔ (members_depth (members_view members.now.entries) ≤ limit) }
{
    for (_name, member) in members.iter() {
        if !is_within(member, limit) {
            return false;
        }
    }
    true
}

// Each part of the reader's value is freed as soon as its tree is made, and texts are moved.
#[cycle(converting)]
#[tactic(auto, using(crate::proofs::Induction::scalars))]
fn tree_from(alloc: Global, value: Value) -> Result<Tree, TreeFault>
    ensures value { Converts result (tree_of (view value)) }
    ensures ordered { IfOk result (λ tree. IsTrue (is_ordered tree)) }
{
    match value {
        Value::Null => Ok(Tree::Null),
        Value::Bool(truth) => Ok(Tree::Bool(truth)),
        Value::Number(number) => match number.as_i64() {
            Some(whole) => Ok(Tree::Int(whole)),
            None => Err(TreeFault::NotWhole),
        },
        Value::String(text) => Ok(Tree::Text(Str::from_string(text))),
        Value::Array(items) => Ok(Tree::List(trees_from(alloc, items)?)),
        Value::Object(entries) => Ok(Tree::Object(members_from(alloc, entries)?)),
    }
}

#[cycle(converting)]
fn trees_from(alloc: Global, items: Vec<Value>) -> Result<Trees, TreeFault>
    ensures value { Converts result (trees_of (items_view items.items)) }
    ensures ordered { IfOk result (λ trees. IsTrue (list_all is_ordered trees)) }
{
    let mut found = room_for(alloc, items.len())?;
    for item in items {
        found.push(tree_from(alloc, item)?)?;
    }
    Ok(found)
}

#[cycle(converting)]
fn members_from(alloc: Global, entries: Map<String, Value>) -> Result<Members, TreeFault>
    ensures value { Converts result (members_of (members_view entries.entries)) }
    ensures rising { IfOk result (λ members. IsTrue (is_rising (map name_of members))) }
    ensures ordered { IfOk result (λ members. IsTrue (list_all (λ member. is_ordered member.value) members)) }
{
    let mut found = room_for(alloc, entries.len())?;
    for (key, member) in entries {
        let name = Str::from_string(key);
        let value = tree_from(alloc, member)?;
        found.push(Member { name, value })?;
    }
    Ok(Members::of(found))
}
