//! Queries made ready: each scalar is read once, in the type of its field.
ghost use Rattle.std.specs.Prelude.{◌≡◌, IfOk};
ghost use Rattle.std.specs.List.{filter_map};
ghost use Rattle.es_query.specs.declared.kinds.Query as query;
ghost use Rattle.es_value.specs.Values.{typed};
ghost use Rattle.es_match.specs.Compared.{bound_of};
ghost use Rattle.es_match.specs.declared.matcher.Matcher as ready;
ghost use Rattle.es_match.specs.Ready.{StandsWithin, AllStand};

use crate::asking::{Asked, Limits};
use crate::matcher::{FieldTest, Matcher};
use crate::searching::ValueSet;
use es_base::{NoMemory, Seq, Str};
use es_mapping::Mapping;
use es_query::{Bounds, Clauses, Query};
use es_tree::Tree;
use es_value::{FieldType, Value, Values, read_value};
use std::alloc::Global;

#[tactic(auto, using(crate::proofs::Standing::term_laws))]
fn term(alloc: Global, mapping: &Mapping, path: &str, scalar: &Tree) -> Result<Matcher, NoMemory>
    ensures { IfOk result (λ matcher. StandsWithin matcher (query.Term path.now scalar.now) mapping.now) }
{
    let Some(kind) = mapping.kind(path) else {
        return Ok(Matcher::Always(false));
    };
    let Some(value) = read_value(alloc, kind, scalar)? else {
        return Ok(Matcher::Always(false));
    };
    let values = ValueSet::only(alloc, value)?;
    on_field(alloc, path, kind, Asked::OneOf(values))
}

#[tactic(auto, using(crate::proofs::Standing::terms_laws))]
fn terms(
    alloc: Global,
    mapping: &Mapping,
    path: &str,
    scalars: &Seq<Tree>,
) -> Result<Matcher, NoMemory>
    ensures { IfOk result (λ matcher. StandsWithin matcher (query.Terms path.now scalars.now) mapping.now) }
{
    let Some(kind) = mapping.kind(path) else {
        return Ok(Matcher::Always(false));
    };
    let values = values_in(alloc, kind, scalars.as_slice())?;
    on_field(alloc, path, kind, Asked::OneOf(ValueSet::of(values)))
}

#[tactic(auto, using(crate::proofs::Standing::range_laws))]
fn range(alloc: Global, mapping: &Mapping, path: &str, bounds: &Bounds) -> Result<Matcher, NoMemory>
    ensures { IfOk result (λ matcher. StandsWithin matcher (query.Range path.now bounds.now) mapping.now) }
{
    let Some(kind) = mapping.kind(path) else {
        return Ok(Matcher::Always(false));
    };
    let Some(low) = bound(alloc, kind, &bounds.low)? else {
        return Ok(Matcher::Always(false));
    };
    let Some(high) = bound(alloc, kind, &bounds.high)? else {
        return Ok(Matcher::Always(false));
    };
    let limits = Limits {
        low,
        low_open: bounds.low_open,
        high,
        high_open: bounds.high_open,
    };
    on_field(alloc, path, kind, Asked::Within(limits))
}

#[tactic(auto, using(crate::proofs::Standing::exists_laws))]
fn exists(alloc: Global, mapping: &Mapping, path: &str) -> Result<Matcher, NoMemory>
    ensures { IfOk result (λ matcher. StandsWithin matcher (query.Exists path.now) mapping.now) }
{
    match mapping.kind(path) {
        Some(kind) => on_field(alloc, path, kind, Asked::Any),
        None => Ok(Matcher::Always(false)),
    }
}

fn on_field(alloc: Global, path: &str, kind: FieldType, asked: Asked) -> Result<Matcher, NoMemory>
    ensures { IfOk result (λ matcher. matcher ≡ ready.Field path.now (record { kind = kind; asked = asked })) }
{
    let path = Str::of(alloc, path)?;
    Ok(Matcher::Field(path, FieldTest { kind, asked }))
}

fn values_in(alloc: Global, kind: FieldType, scalars: &[Tree]) -> Result<Values, NoMemory>
    ensures { IfOk result (λ values. values ≡ filter_map (typed kind) scalars.now) }
{
    let mut values = Seq::from_vec(Vec::with_capacity(alloc, scalars.len())?);
    for scalar in scalars {
        if let Some(value) = read_value(alloc, kind, scalar)? {
            values.push(value)?;
        }
    }
    Ok(values)
}

fn bound(
    alloc: Global,
    kind: FieldType,
    scalar: &Option<Tree>,
) -> Result<Option<Option<Value>>, NoMemory>
    ensures { IfOk result (λ found. found ≡ bound_of kind scalar.now) }
{
    match scalar {
        None => Ok(Some(None)),
        Some(scalar) => match read_value(alloc, kind, scalar)? {
            Some(value) => Ok(Some(Some(value))),
            None => Ok(None),
        },
    }
}

impl Matcher {
    /// The query made ready for documents of an index whose fields have the types of the mapping. It holds where the query
    /// does on each document that was written with this mapping, or with a part of it.
    #[cycle(making)]
    #[tactic(auto, using(crate::proofs::Standing::query_laws))]
    pub fn new(alloc: Global, query: &Query, mapping: &Mapping) -> Result<Matcher, NoMemory>
        ensures { IfOk result (λ matcher. StandsWithin matcher query.now mapping.now) }
    {
        match query {
            Query::All => Ok(Matcher::Always(true)),
            Query::Nothing => Ok(Matcher::Always(false)),
            Query::Term(path, scalar) => term(alloc, mapping, path.text(), scalar),
            Query::Terms(path, scalars) => terms(alloc, mapping, path.text(), scalars),
            Query::Range(path, bounds) => range(alloc, mapping, path.text(), bounds),
            Query::Exists(path) => exists(alloc, mapping, path.text()),
            Query::Bool(clauses) => Ok(Matcher::Bool(Clauses {
                must: each(alloc, clauses.must.as_slice(), mapping)?,
                filter: each(alloc, clauses.filter.as_slice(), mapping)?,
                should: each(alloc, clauses.should.as_slice(), mapping)?,
                must_not: each(alloc, clauses.must_not.as_slice(), mapping)?,
                minimum: clauses.minimum,
            })),
        }
    }
}

#[cycle(making)]
fn each(alloc: Global, queries: &[Query], mapping: &Mapping) -> Result<Seq<Matcher>, NoMemory>
    ensures { IfOk result (λ matchers. AllStand matchers queries.now mapping.now) }
{
    let mut matchers = Seq::from_vec(Vec::with_capacity(alloc, queries.len())?);
    for query in queries {
        matchers.push(Matcher::new(alloc, query, mapping)?)?;
    }
    Ok(matchers)
}
