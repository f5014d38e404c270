//! A JSON value, and what it is made of.
use crate::ordered::Ordered;
use es_base::{Seq, Str};

/// A name, and what it names.
#[derive(Debug, Drop)]
pub struct Named<V> {
    pub name: Str,
    pub value: V,
}

/// A JSON value (RFC 8259, section 3) whose numbers are whole and fit `i64`.
#[derive(Debug, Drop)]
pub enum Tree {
    Null,
    Bool(bool),
    /// A number.
    Int(i64),
    /// A string.
    Text(Str),
    /// An array.
    List(Trees),
    Object(Members),
}

/// A member of an object.
pub type Member = Named<Tree>;

/// Trees in order.
pub type Trees = Seq<Tree>;

/// The members of an object: distinct names in the order of their bytes.
pub type Members = Ordered<Tree>;
