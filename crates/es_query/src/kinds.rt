//! What a query asks.
ghost use Rattle.std.specs.Prelude.{◌≡◌, [], IfOk};

use es_base::{NoMemory, Seq, Str};
use es_tree::{Tree, Trees};
use std::alloc::Global;

/// Bounds of values. An absent bound isn't open.
#[derive(Debug, Drop)]
pub struct Bounds {
    /// The least value, or the value that all are above.
    pub low: Option<Tree>,
    /// Whether the lower bound itself is left out.
    pub low_open: bool,
    /// The greatest value, or the value that all are below.
    pub high: Option<Tree>,
    /// Whether the upper bound itself is left out.
    pub high_open: bool,
}

/// The clauses of a `bool` query.
#[derive(Debug, Drop)]
pub struct Clauses<Q> {
    pub must: Seq<Q>,
    pub filter: Seq<Q>,
    pub should: Seq<Q>,
    pub must_not: Seq<Q>,
    /// At least so many of `should` hold.
    pub minimum: Option<u64>,
}

/// A query.
#[derive(Debug, Drop)]
pub enum Query {
    All,
    Nothing,
    Term(Str, Tree),
    Terms(Str, Trees),
    Range(Str, Bounds),
    Exists(Str),
    Bool(Clauses<Query>),
}

/// Queries in order.
pub type Queries = Seq<Query>;

/// No queries yet, and room for so many.
pub(crate) fn room_for(alloc: Global, count: usize) -> Result<Queries, NoMemory>
    ensures { IfOk result (λ queries. queries ≡ []) }
{
    Ok(Seq::from_vec(Vec::with_capacity(alloc, count)?))
}
