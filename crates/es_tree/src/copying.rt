//! Equal trees.
ghost use Rattle.std.specs.Prelude.{◌≡◌, IfOk};

use crate::room::room_for;
use crate::tree::{Member, Members, Tree, Trees};
use es_base::{Copied, NoMemory};
use std::alloc::Global;

impl Tree {
    /// An equal tree.
    pub fn copy(&self, alloc: Global) -> Result<Tree, NoMemory>
        ensures { IfOk result (λ copy. copy ≡ self.now) }
    {
        copy_tree(alloc, self)
    }
}

impl Copied for Tree {
    fn copied(&self, alloc: Global) -> Result<Tree, NoMemory> {
        self.copy(alloc)
    }
}

#[cycle(copying)]
fn copy_tree(alloc: Global, tree: &Tree) -> Result<Tree, NoMemory>
    ensures { IfOk result (λ copy. copy ≡ tree.now) }
{
    match tree {
        Tree::Null => Ok(Tree::Null),
        Tree::Bool(truth) => Ok(Tree::Bool(*truth)),
        Tree::Int(number) => Ok(Tree::Int(*number)),
        Tree::Text(text) => Ok(Tree::Text(text.copy(alloc)?)),
        Tree::List(items) => Ok(Tree::List(copy_items(alloc, items.as_slice())?)),
        Tree::Object(members) => Ok(Tree::Object(copy_members(alloc, members)?)),
    }
}

#[cycle(copying)]
fn copy_items(alloc: Global, items: &[Tree]) -> Result<Trees, NoMemory>
    ensures { IfOk result (λ copies. copies ≡ items.now) }
{
    let mut copies = room_for(alloc, items.len())?;
    for item in items {
        copies.push(copy_tree(alloc, item)?)?;
    }
    Ok(copies)
}

#[cycle(copying)]
fn copy_members(alloc: Global, members: &Members) -> Result<Members, NoMemory>
    ensures { IfOk result (λ copies. copies ≡ members.now) }
{
    let mut copies = room_for(alloc, members.len())?;
    for member in members.as_slice() {
        let name = member.name.copy(alloc)?;
        let value = copy_tree(alloc, &member.value)?;
        copies.push(Member { name, value })?;
    }
    Ok(Members::of(copies))
}
