//! From trees to queries.
ghost use Rattle.std.specs.Prelude.{◌≡◌, ◌≤◌, ℕ, Ok, IfOk, IsTrue, decimal, unsigned_abs};
ghost use Rattle.std.specs.Option.{option_copied, option_map};
ghost use Rattle.es_tree.specs.Order.{levels_of};
ghost use Rattle.es_grammar.specs.Reading.{Gives, placed, below};
ghost use Rattle.es_grammar.specs.Members.{inside, each_of};
ghost use Rattle.es_grammar.specs.Values.{items_of, one_or_list_form};
ghost use Rattle.es_query.specs.Queries.{query_at, clause_form, bool_form, query_clause_form, query_form, most_levels};
ghost use Rattle.es_query.specs.Printed.{query_tree};
ghost use Rattle.es_query.specs.Sound.{is_query};

use crate::forms::{exists, no_members, range, term, terms};
use crate::kinds::{Clauses, Queries, Query, room_for};
use es_base::NoMemory;
use es_grammar::{
    Form, MemberForm, Prints, Whole, ends, here, members_of, next, only, optional, or_empty,
    placed, under, under_item,
};
use es_tree::{BodyFault, Member, Tree};
use std::alloc::Global;

/// Queries.
pub struct QueryForm;

impl Form for QueryForm {
    type Out = Query;

    ghost form = { query_form };

    ghost sound = { is_query };

    fn read(alloc: Global, tree: &Tree) -> Result<Query, BodyFault> {
        query(alloc, usize::MAX, tree)
    }
}

impl Prints for QueryForm {
    ghost tree = { query_tree };

    fn print(alloc: Global, value: &Query) -> Result<Tree, NoMemory> {
        value.print(alloc)
    }
}

/// The one member of a query: a clause, by its name.
pub struct QueryClause;

impl MemberForm for QueryClause {
    type Out = Query;

    ghost form = { query_clause_form };

    fn read(alloc: Global, name: &str, tree: &Tree) -> Result<Query, BodyFault> {
        clause(alloc, usize::MAX - 1, name, tree)
    }
}

impl Query {
    /// The query that the tree is. `place` is the tree's own place in what was read: names and numbers from the
    /// outermost value on, joined by dots. `Bad` has the place of the first fault, in the order of the members' names; what
    /// a rule over several members forbids is a fault at their object, behind those of all members.
    pub fn read(alloc: Global, tree: &Tree, place: &str) -> Result<Query, BodyFault>
        ensures gives { Gives result (placed place.now (query_form tree.now)) }
        ensures sound { IfOk result (λ query. IsTrue (is_query query)) }
        ensures levels { (n : ℕ) → levels_of tree.now ≤ n → n ≤ most_levels → query_at n tree.now ≡ query_form tree.now }
    {
        placed(alloc, place, QueryForm::read(alloc, tree))
    }
}

// A query of at most this many levels.
#[cycle(query)]
fn query(alloc: Global, levels: usize, tree: &Tree) -> Result<Query, BodyFault>
    ensures { Gives result (query_at levels tree.now) }
{
    if levels == 0 {
        return Err(here(alloc));
    }
    let members = members_of(alloc, tree)?;
    let found = each_clause(alloc, levels - 1, members)?;
    only(alloc, found)
}

#[cycle(query)]
fn each_clause(alloc: Global, levels: usize, members: &[Member]) -> Result<Queries, BodyFault>
    ensures { Gives result (each_of (clause_form (query_at levels)) members.now) }
{
    let mut found = room_for(alloc, members.len())?;
    for member in members {
        found.push(clause_at(alloc, levels, member)?)?;
    }
    Ok(found)
}

#[cycle(query)]
fn clause_at(alloc: Global, levels: usize, member: &Member) -> Result<Query, BodyFault>
    ensures { Gives result (below member.now.name (clause_form (query_at levels) member.now.name member.now.value)) }
{
    let name = member.name.text();
    under(alloc, name, clause(alloc, levels, name, &member.value))
}

// The member of a query that has this name.
#[cycle(query)]
#[tactic(auto, unfolding(crate::specs::Queries::clause_form))]
fn clause(alloc: Global, levels: usize, name: &str, tree: &Tree) -> Result<Query, BodyFault>
    ensures { Gives result (clause_form (query_at levels) name.now tree.now) }
{
    match name {
        "bool" => every_clause(alloc, levels, tree),
        "exists" => exists(alloc, tree),
        "match_all" => no_members(alloc, Query::All, tree),
        "match_none" => no_members(alloc, Query::Nothing, tree),
        "range" => range(alloc, tree),
        "term" => term(alloc, tree),
        "terms" => terms(alloc, tree),
        _ => Err(here(alloc)),
    }
}

#[cycle(query)]
#[tactic(auto, unfolding(crate::specs::Queries::bool_form))]
fn every_clause(alloc: Global, levels: usize, tree: &Tree) -> Result<Query, BodyFault>
    ensures { Gives result (bool_form (query_at levels) tree.now) }
{
    let members = members_of(alloc, tree)?;
    let (found, members) = next(alloc, "filter", members)?;
    let filter = queries(alloc, levels, "filter", found)?;
    let (minimum, members) = optional::<Whole<0, GREATEST_COUNT>>(
        alloc,
        "minimum_should_match",
        members,
    )?;
    let (found, members) = next(alloc, "must", members)?;
    let must = queries(alloc, levels, "must", found)?;
    let (found, members) = next(alloc, "must_not", members)?;
    let must_not = queries(alloc, levels, "must_not", found)?;
    let (found, members) = next(alloc, "should", members)?;
    let should = queries(alloc, levels, "should", found)?;
    ends(alloc, members)?;
    Ok(Query::Bool(Clauses {
        must: or_empty(alloc, must),
        filter: or_empty(alloc, filter),
        should: or_empty(alloc, should),
        must_not: or_empty(alloc, must_not),
        minimum: count_of(minimum),
    }))
}

// The greatest whole number that a tree has.
const GREATEST_COUNT: i64 = i64::MAX;

fn count_of(number: Option<i64>) -> Option<u64>
    ensures { result ≡ option_map unsigned_abs number }
{
    match number {
        Some(number) => Some(number.unsigned_abs()),
        None => None,
    }
}

// The queries of a clause that was found under the name.
#[cycle(query)]
fn queries(
    alloc: Global,
    levels: usize,
    name: &str,
    found: Option<&Tree>,
) -> Result<Option<Queries>, BodyFault>
    ensures { Gives result (inside name.now (one_or_list_form (query_at levels)) (option_copied found.entry)) }
{
    match found {
        Some(tree) => Ok(Some(under(alloc, name, one_or_list(alloc, levels, tree))?)),
        None => Ok(None),
    }
}

#[cycle(query)]
fn one_or_list(alloc: Global, levels: usize, tree: &Tree) -> Result<Queries, BodyFault>
    ensures { Gives result (one_or_list_form (query_at levels) tree.now) }
{
    match tree {
        Tree::List(items) => list(alloc, levels, items.as_slice()),
        _ => {
            let mut found = room_for(alloc, 1)?;
            found.push(query(alloc, levels, tree)?)?;
            Ok(found)
        }
    }
}

#[cycle(query)]
fn list(alloc: Global, levels: usize, items: &[Tree]) -> Result<Queries, BodyFault>
    ensures { Gives result (items_of (query_at levels) 0 items.now) }
{
    let mut found = room_for(alloc, items.len())?;
    for (number, tree) in items.iter().enumerate() {
        found.push(under_item(alloc, number, query(alloc, levels, tree))?)?;
    }
    Ok(found)
}
