//! How much a filled template may hold.
use es_base::NoMemory;
use es_tree::{Members, Tree};

/// The bytes that a filled template may hold. A template has many tags, and each of them may name a long text of the
/// person: without a bound both together would take gigabytes.
pub const ROOM: usize = 16777216;

/// What a tree takes besides its texts.
const TREE: usize = 32;

/// Takes so many bytes of what is left; want of memory where less is left.
pub fn spend(room: &mut usize, bytes: usize) -> Result<(), NoMemory> {
    if bytes > *room {
        return Err(NoMemory);
    }
    *room -= bytes;
    Ok(())
}

/// Takes what the tree holds of what is left.
#[cycle(spending)]
pub fn spend_tree(room: &mut usize, tree: &Tree) -> Result<(), NoMemory> {
    spend(room, TREE)?;
    match tree {
        Tree::Null | Tree::Bool(_) | Tree::Int(_) => Ok(()),
        Tree::Text(text) => spend(room, text.text().len()),
        Tree::List(items) => spend_items(room, items.as_slice()),
        Tree::Object(members) => spend_members(room, members),
    }
}

#[cycle(spending)]
fn spend_items(room: &mut usize, items: &[Tree]) -> Result<(), NoMemory> {
    for item in items {
        spend_tree(room, item)?;
    }
    Ok(())
}

#[cycle(spending)]
fn spend_members(room: &mut usize, members: &Members) -> Result<(), NoMemory> {
    for member in members.as_slice() {
        spend(room, member.name.text().len())?;
        spend_tree(room, &member.value)?;
    }
    Ok(())
}
