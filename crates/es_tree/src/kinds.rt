//! Types whose names functions of the root have too.
use crate::tree::Tree;
use es_base::{Seq, Str};

/// A scalar of a tree, and the names that lead to it, joined by dots.
#[derive(Debug, Drop)]
pub struct Leaf {
    /// Names of members from the outermost on, joined by dots.
    pub path: Str,
    /// Neither a list nor an object.
    pub value: Tree,
}

/// Leaves in order.
pub type Leaves = Seq<Leaf>;
