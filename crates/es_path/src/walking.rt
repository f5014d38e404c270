//! Walks along a path.
ghost use Rattle.std.specs.Prelude.{◌≡◌, List, Bool, Option, IfOk, OnOk, fold};
ghost use Rattle.std.specs.List.{list_any, filter_map, flat_map};
ghost use Rattle.es_tree.specs.declared.tree.Tree.{Tree};
ghost use Rattle.es_path.specs.Scalars.{scalars_at};
ghost use Rattle.es_path.specs.Reached.{left_of, whole_path, reached, reached_in};

use crate::left::{Left, left_behind};
use es_base::{NoMemory, Seq};
use es_tree::{Members, Tree};
use std::alloc::Global;

/// A test of scalars.
pub trait ScalarTest {
    ghost holds_of: { Self → Tree → Bool };

    /// Whether the test holds on the scalar. It takes no memory.
    fn holds(&self, scalar: &Tree) -> bool
        ensures { result ≡ holds_of self.now scalar.now };
}

/// What scalars give.
pub trait ScalarMap {
    /// What a scalar gives.
    type Out: Drop;

    ghost given_by: { Self → Tree → Option Self.Out };

    /// What the scalar gives, if it gives anything.
    fn give(&self, alloc: Global, scalar: &Tree) -> Result<Option<Self::Out>, NoMemory>
        ensures { IfOk result (λ found. found ≡ given_by self.now scalar.now) };
}

/// What goes over scalars, one after the other, and keeps what it has of them so far.
pub trait ScalarVisitor {
    ghost after: { Self → Tree → Self };

    /// Takes one scalar more.
    fn visit(&mut self, scalar: &Tree) -> Result<(), NoMemory>
        ensures { OnOk result (self.new ≡ after self.old scalar.now) };
}

/// Whether the test holds on a scalar at the path. The path joins the names of members by dots, and lists add nothing to
/// it; that of the tree itself is empty. It takes no memory.
#[tactic(auto, using(crate::proofs::Reaching::scalars_at_is))]
pub fn any_at<T: ScalarTest>(tree: &Tree, path: &str, test: &T) -> bool
    ensures { result ≡ list_any (T.holds_of test.now) (scalars_at path.now tree.now) }
{
    any_within(tree, whole(path), test)
}

/// The visitor goes over the scalars at the path, in the tree's order. The path is that of `any_at`. It takes no memory but
/// the visitor's, and ends where the visitor wants memory.
#[tactic(auto, using(crate::proofs::Reaching::scalars_at_is))]
pub fn visit_at<V: ScalarVisitor>(tree: &Tree, path: &str, visitor: &mut V) -> Result<(), NoMemory>
    ensures { OnOk result (visitor.new ≡ fold V.after visitor.old (scalars_at path.now tree.now)) }
{
    visit_within(tree, whole(path), visitor)
}

/// What the scalars at the path give, in the tree's order. The path is that of `any_at`.
pub fn gather<M: ScalarMap>(
    alloc: Global,
    tree: &Tree,
    path: &str,
    map: &M,
) -> Result<Seq<M::Out>, NoMemory>
    ensures { IfOk result (λ found. found ≡ filter_map (M.given_by map.now) (scalars_at path.now tree.now)) }
{
    let mut gathering = Gathering {
        alloc,
        map,
        found: Seq::empty(alloc),
    };
    visit_at(tree, path, &mut gathering)?;
    Ok(gathering.found)
}

/// What scalars gave so far.
#[derive(Drop)]
struct Gathering<'a, M: ScalarMap> {
    alloc: Global,
    map: &'a M,
    found: Seq<M::Out>,
}

impl<M: ScalarMap> ScalarVisitor for Gathering<'_, M> {
    ghost use Rattle.std.specs.Prelude.{◌++◌};
    ghost use Rattle.std.specs.Option.{option_to_list};

    ghost after = { λ gathering scalar. record gathering { found = gathering.found ++ option_to_list (M.given_by gathering.map.now scalar) } };

    fn visit(&mut self, scalar: &Tree) -> Result<(), NoMemory> {
        match self.map.give(self.alloc, scalar)? {
            Some(given) => self.found.push(given),
            None => Ok(()),
        }
    }
}

// The whole path is left, at the top of a tree.
fn whole(path: &str) -> Left<'_>
    ensures { left_of result ≡ whole_path path.now }
{
    Left {
        is_end: path.is_empty(),
        names: Some(path.as_bytes()),
    }
}

#[cycle(testing)]
#[tactic(auto, using(crate::proofs::Reaching::scalar_laws))]
fn any_within<T: ScalarTest>(tree: &Tree, left: Left<'_>, test: &T) -> bool
    ensures { result ≡ list_any (T.holds_of test.now) (reached (left_of left.entry) tree.now) }
{
    match tree {
        Tree::Null | Tree::Bool(_) | Tree::Int(_) | Tree::Text(_) => {
            left.is_end && test.holds(tree)
        }
        Tree::List(items) => any_in_items(items.as_slice(), left, test),
        Tree::Object(members) => match left.names {
            Some(names) => any_in_members(members, names, test),
            None => false,
        },
    }
}

#[cycle(testing)]
fn any_in_items<T: ScalarTest>(items: &[Tree], left: Left<'_>, test: &T) -> bool
    ensures { result ≡ list_any (T.holds_of test.now) (flat_map (reached (left_of left.entry)) items.now) }
{
    let mut found = false;
    for item in items {
        if any_within(item, left, test) {
            found = true;
            break;
        }
    }
    found
}

#[cycle(testing)]
fn any_in_members<T: ScalarTest>(members: &Members, names: &[u8], test: &T) -> bool
    ensures { result ≡ list_any (T.holds_of test.now) (flat_map (reached_in names.now) members.now) }
{
    let mut found = false;
    for member in members.as_slice() {
        let reaches = match left_behind(names, member.name.text().as_bytes()) {
            Some(left) => any_within(&member.value, left, test),
            None => false,
        };
        if reaches {
            found = true;
            break;
        }
    }
    found
}

#[cycle(visiting)]
fn visit_within<V: ScalarVisitor>(
    tree: &Tree,
    left: Left<'_>,
    visitor: &mut V,
) -> Result<(), NoMemory>
    ensures { OnOk result (visitor.new ≡ fold V.after visitor.old (reached (left_of left.entry) tree.now)) }
{
    match tree {
        Tree::Null | Tree::Bool(_) | Tree::Int(_) | Tree::Text(_) => {
            if left.is_end {
                visitor.visit(tree)
            } else {
                Ok(())
            }
        }
        Tree::List(items) => visit_items(items.as_slice(), left, visitor),
        Tree::Object(members) => match left.names {
            Some(names) => visit_members(members, names, visitor),
            None => Ok(()),
        },
    }
}

#[cycle(visiting)]
fn visit_items<V: ScalarVisitor>(
    items: &[Tree],
    left: Left<'_>,
    visitor: &mut V,
) -> Result<(), NoMemory>
    ensures { OnOk result (visitor.new ≡ fold V.after visitor.old (flat_map (reached (left_of left.entry)) items.now)) }
{
    for item in items {
        visit_within(item, left, visitor)?;
    }
    Ok(())
}

#[cycle(visiting)]
fn visit_members<V: ScalarVisitor>(
    members: &Members,
    names: &[u8],
    visitor: &mut V,
) -> Result<(), NoMemory>
    ensures { OnOk result (visitor.new ≡ fold V.after visitor.old (flat_map (reached_in names.now) members.now)) }
{
    for member in members.as_slice() {
        match left_behind(names, member.name.text().as_bytes()) {
            Some(left) => visit_within(&member.value, left, visitor)?,
            None => {}
        }
    }
    Ok(())
}
