//! Whether two trees are equal.
ghost use Rattle.std.specs.Prelude.{◌≡◌, ◌↔◌, IsTrue};

use crate::tree::{Members, Tree};

impl Tree {
    /// Whether both are the same tree. It takes no memory.
    pub fn equals(&self, other: &Tree) -> bool
        ensures { IsTrue result ↔ (self.now ≡ other.now) }
    {
        are_equal(self, other)
    }
}

#[cycle(comparing)]
fn are_equal(one: &Tree, other: &Tree) -> bool
    ensures { IsTrue result ↔ (one.now ≡ other.now) }
{
    match one {
        Tree::Null => match other {
            Tree::Null => true,
            _ => false,
        },
        Tree::Bool(truth) => match other {
            Tree::Bool(other) => *truth == *other,
            _ => false,
        },
        Tree::Int(number) => match other {
            Tree::Int(other) => *number == *other,
            _ => false,
        },
        Tree::Text(text) => match other {
            Tree::Text(other) => text.text() == other.text(),
            _ => false,
        },
        Tree::List(items) => match other {
            Tree::List(others) => are_equal_items(items.as_slice(), others.as_slice()),
            _ => false,
        },
        Tree::Object(members) => match other {
            Tree::Object(others) => are_equal_members(members, others),
            _ => false,
        },
    }
}

#[cycle(comparing)]
fn are_equal_items(items: &[Tree], others: &[Tree]) -> bool
    ensures { IsTrue result ↔ (items.now ≡ others.now) }
{
    if items.len() != others.len() {
        return false;
    }
    for (at, item) in items.iter().enumerate() {
        if !are_equal(item, &others[at]) {
            return false;
        }
    }
    true
}

#[cycle(comparing)]
fn are_equal_members(members: &Members, others: &Members) -> bool
    ensures { IsTrue result ↔ (members.now ≡ others.now) }
{
    if members.len() != others.len() {
        return false;
    }
    let others = others.as_slice();
    for (at, member) in members.as_slice().iter().enumerate() {
        let other = &others[at];
        if member.name.text() != other.name.text() {
            return false;
        }
        if !are_equal(&member.value, &other.value) {
            return false;
        }
    }
    true
}
