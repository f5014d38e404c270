//! Persons that cells say.
use crate::faults::Fault;
use es_base::{Seq, Str, Strs};
use es_tree::{Members, Person, Tree};
use std::alloc::Global;

/// A person: an object with the members that PERSON prints, of which the name alone is required.
pub fn person_of(alloc: Global, tree: &Tree) -> Result<Person, Fault> {
    let username = match text_named(alloc, tree, "username")? {
        Some(username) => username,
        None => return Err(Fault::Line),
    };
    Ok(Person {
        username,
        full_name: text_named(alloc, tree, "full_name")?,
        email: text_named(alloc, tree, "email")?,
        roles: texts_named(alloc, tree, "roles")?,
        metadata: metadata_of(alloc, tree)?,
    })
}

/// The tree's member `metadata`, and no members where it is absent.
pub fn metadata_of(alloc: Global, tree: &Tree) -> Result<Tree, Fault> {
    match tree.member("metadata") {
        Some(metadata) => Ok(metadata.copy(alloc)?),
        None => Ok(Tree::Object(Members::empty(alloc))),
    }
}

/// The text of this name, and none where it is absent or null.
pub fn text_named(alloc: Global, tree: &Tree, name: &str) -> Result<Option<Str>, Fault> {
    match tree.member(name) {
        Some(member) => match member {
            Tree::Text(text) => Ok(Some(text.copy(alloc)?)),
            Tree::Null => Ok(None),
            _ => Err(Fault::Line),
        },
        None => Ok(None),
    }
}

/// The texts of the list of this name, and none where it is absent.
fn texts_named(alloc: Global, tree: &Tree, name: &str) -> Result<Strs, Fault> {
    match tree.member(name) {
        Some(member) => texts_of(alloc, member),
        None => Ok(Seq::empty(alloc)),
    }
}

/// The texts of a list.
pub fn texts_of(alloc: Global, tree: &Tree) -> Result<Strs, Fault> {
    let mut texts = Seq::empty(alloc);
    match tree {
        Tree::List(items) => {
            for item in items.as_slice() {
                match item {
                    Tree::Text(text) => texts.push(text.copy(alloc)?)?,
                    _ => return Err(Fault::Line),
                }
            }
        }
        _ => return Err(Fault::Line),
    }
    Ok(texts)
}
