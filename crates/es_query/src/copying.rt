//! Equal queries.
ghost use Rattle.std.specs.Prelude.{◌≡◌, IfOk};

use crate::kinds::{Bounds, Clauses, Queries, Query, room_for};
use es_base::{Copied, NoMemory};
use es_tree::Tree;
use std::alloc::Global;

impl Query {
    /// An equal query.
    pub fn copy(&self, alloc: Global) -> Result<Query, NoMemory>
        ensures { IfOk result (λ copy. copy ≡ self.now) }
    {
        copy_query(alloc, self)
    }
}

impl Copied for Query {
    fn copied(&self, alloc: Global) -> Result<Query, NoMemory> {
        self.copy(alloc)
    }
}

fn copy_bound(alloc: Global, bound: &Option<Tree>) -> Result<Option<Tree>, NoMemory>
    ensures { IfOk result (λ copy. copy ≡ bound.now) }
{
    match bound {
        Some(bound) => Ok(Some(bound.copy(alloc)?)),
        None => Ok(None),
    }
}

fn copy_bounds(alloc: Global, bounds: &Bounds) -> Result<Bounds, NoMemory>
    ensures { IfOk result (λ copy. copy ≡ bounds.now) }
{
    Ok(Bounds {
        low: copy_bound(alloc, &bounds.low)?,
        low_open: bounds.low_open,
        high: copy_bound(alloc, &bounds.high)?,
        high_open: bounds.high_open,
    })
}

#[cycle(copying)]
fn copy_query(alloc: Global, query: &Query) -> Result<Query, NoMemory>
    ensures { IfOk result (λ copy. copy ≡ query.now) }
{
    match query {
        Query::All => Ok(Query::All),
        Query::Nothing => Ok(Query::Nothing),
        Query::Term(field, value) => Ok(Query::Term(field.copy(alloc)?, value.copy(alloc)?)),
        Query::Terms(field, values) => Ok(Query::Terms(field.copy(alloc)?, values.copy(alloc)?)),
        Query::Range(field, bounds) => {
            Ok(Query::Range(field.copy(alloc)?, copy_bounds(alloc, bounds)?))
        }
        Query::Exists(field) => Ok(Query::Exists(field.copy(alloc)?)),
        Query::Bool(clauses) => Ok(Query::Bool(Clauses {
            must: copy_queries(alloc, clauses.must.as_slice())?,
            filter: copy_queries(alloc, clauses.filter.as_slice())?,
            should: copy_queries(alloc, clauses.should.as_slice())?,
            must_not: copy_queries(alloc, clauses.must_not.as_slice())?,
            minimum: clauses.minimum,
        })),
    }
}

#[cycle(copying)]
fn copy_queries(alloc: Global, queries: &[Query]) -> Result<Queries, NoMemory>
    ensures { IfOk result (λ copies. copies ≡ queries.now) }
{
    let mut copies = room_for(alloc, queries.len())?;
    for query in queries {
        copies.push(copy_query(alloc, query)?)?;
    }
    Ok(copies)
}
