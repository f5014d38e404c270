//! Into a tree: the member of a name, null, and the scalars with their paths.
ghost use Rattle.std.specs.Prelude.{◌≡◌, ◌++◌, map, IfOk, OnOk};
ghost use Rattle.std.specs.List.{flat_map};
ghost use Rattle.std.specs.Option.{option_copied};
ghost use Rattle.es_tree.specs.Find.{member_of};
ghost use Rattle.es_tree.specs.Nulls.{is_null};
ghost use Rattle.es_tree.specs.Leaves.{leaves_of, paths_of, leaf_at, extended, longer};

use crate::kinds::{Leaf, Leaves};
use crate::tree::{Members, Tree};
use es_base::{NoMemory, Seq, Str};
use std::alloc::Global;

impl Tree {
    /// The value of an object's member. Other trees have none.
    pub fn member(&self, name: &str) -> Option<&Tree>
        ensures { option_copied result ≡ member_of name.now self.now }
    {
        match self {
            Tree::Object(members) => members.find(name),
            _ => None,
        }
    }

    /// Whether it is null.
    pub fn is_null(&self) -> bool
        ensures { result ≡ is_null self.now }
    {
        match self {
            Tree::Null => true,
            _ => false,
        }
    }
}

/// The scalars of a tree in order, null among them. A path joins the names of members by dots, and lists add
/// nothing to it; that of the tree itself is empty. Each leaf has its whole path, so this takes memory in proportion
/// to the number of scalars times the length of their paths: it is for small trees, and for tests.
#[tactic(auto, using(crate::proofs::Paths::leaf_laws))]
pub fn leaves(alloc: Global, tree: &Tree) -> Result<Leaves, NoMemory>
    ensures { IfOk result (λ leaves. leaves ≡ leaves_of tree.now) }
{
    let mut found = Seq::empty(alloc);
    add_leaves(alloc, tree, &Str::empty(alloc), true, &mut found)?;
    Ok(found)
}

#[cycle(gathering)]
#[tactic(auto, using(crate::proofs::Paths::leaf_laws))]
fn add_leaves(
    alloc: Global,
    tree: &Tree,
    path: &Str,
    is_top: bool,
    found: &mut Leaves,
) -> Result<(), NoMemory>
    ensures { OnOk result (found.new ≡ found.old ++ map (leaf_at is_top path.now) (paths_of tree.now)) }
{
    match tree {
        Tree::Null | Tree::Bool(_) | Tree::Int(_) | Tree::Text(_) => {
            let value = tree.copy(alloc)?;
            let path = path.copy(alloc)?;
            found.push(Leaf { path, value })
        }
        Tree::List(items) => add_items(alloc, items.as_slice(), path, is_top, found),
        Tree::Object(members) => add_members(alloc, members, path, is_top, found),
    }
}

#[cycle(gathering)]
fn add_items(
    alloc: Global,
    items: &[Tree],
    path: &Str,
    is_top: bool,
    found: &mut Leaves,
) -> Result<(), NoMemory>
    ensures { OnOk result (found.new ≡ found.old ++ map (leaf_at is_top path.now) (flat_map paths_of items.now)) }
{
    for item in items {
        add_leaves(alloc, item, path, is_top, found)?;
    }
    Ok(())
}

#[cycle(gathering)]
fn add_members(
    alloc: Global,
    members: &Members,
    path: &Str,
    is_top: bool,
    found: &mut Leaves,
) -> Result<(), NoMemory>
    ensures { OnOk result (found.new ≡ found.old ++ map (leaf_at is_top path.now) (flat_map (λ m. extended m.name (paths_of m.value)) members.now)) }
{
    for member in members.as_slice() {
        let below = longer_path(alloc, path, is_top, &member.name)?;
        add_leaves(alloc, &member.value, &below, false, found)?;
    }
    Ok(())
}

/// The text of a path that is longer by a name: behind a dot, unless the path is that of the tree itself.
pub fn longer_path(alloc: Global, path: &Str, is_top: bool, name: &Str) -> Result<Str, NoMemory>
    ensures { IfOk result (λ longer_path. longer_path ≡ longer is_top path.now name.now) }
{
    if is_top {
        return name.copy(alloc);
    }
    let mut text = path.copy(alloc)?;
    text.push('.')?;
    text.push_str(name.text())?;
    Ok(text)
}
