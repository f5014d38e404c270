//! From queries to trees.
ghost use Rattle.std.specs.Prelude.{◌≡◌, ◌++◌, map, Ok, IfOk, IsTrue, OnOk};
ghost use Rattle.es_query.specs.Queries.{query_form};
ghost use Rattle.es_query.specs.Sound.{is_query};
ghost use Rattle.es_query.specs.Printed.{single, bound_members, clause_members, minimum_members, printed_count, bounds_tree, clauses_tree, query_tree};

use crate::kinds::{Bounds, Clauses, Query};
use es_base::{NoMemory, Seq};
use es_grammar::add;
use es_tree::{Member, Members, Tree, Trees};
use std::alloc::Global;

impl Query {
    /// The canonical tree of the query: a term as its value alone, each clause of a `bool` as a list, and empty lists left
    /// out. What was read from a tree is read from this one too.
    pub fn print(&self, alloc: Global) -> Result<Tree, NoMemory>
        ensures tree { IfOk result (λ printed. printed ≡ query_tree self.now) }
        ensures reads_back { IsTrue (is_query self.now) → query_form (query_tree self.now) ≡ Ok self.now }
    {
        print_query(alloc, self)
    }
}

// An object with this one member.
fn single(alloc: Global, name: &str, tree: Tree) -> Result<Tree, NoMemory>
    ensures { IfOk result (λ printed. printed ≡ single name.now tree) }
{
    let mut members = Seq::empty(alloc);
    add(&mut members, alloc, name, tree)?;
    Ok(Tree::Object(Members::of(members)))
}

// What is asked of a field.
fn print_field(alloc: Global, clause: &str, field: &str, asked: Tree) -> Result<Tree, NoMemory>
    ensures { IfOk result (λ printed. printed ≡ single clause.now (single field.now asked)) }
{
    let asked = single(alloc, field, asked)?;
    single(alloc, clause, asked)
}

// The member of a bound.
fn add_bound(
    members: &mut Seq<Member>,
    alloc: Global,
    open_name: &str,
    closed_name: &str,
    is_open: bool,
    bound: &Option<Tree>,
) -> Result<(), NoMemory>
    ensures { OnOk result (members.new ≡ members.old ++ bound_members open_name.now closed_name.now is_open bound.now) }
{
    match bound {
        Some(bound) => {
            let value = bound.copy(alloc)?;
            if is_open {
                add(members, alloc, open_name, value)
            } else {
                add(members, alloc, closed_name, value)
            }
        }
        None => Ok(()),
    }
}

fn print_bounds(alloc: Global, bounds: &Bounds) -> Result<Tree, NoMemory>
    ensures { IfOk result (λ printed. printed ≡ bounds_tree bounds.now) }
{
    let mut members = Seq::empty(alloc);
    add_bound(
        &mut members,
        alloc,
        "gt",
        "gte",
        bounds.low_open,
        &bounds.low,
    )?;
    add_bound(
        &mut members,
        alloc,
        "lt",
        "lte",
        bounds.high_open,
        &bounds.high,
    )?;
    Ok(Tree::Object(Members::of(members)))
}

#[cycle(queries)]
#[tactic(auto, using(crate::proofs::Trees::query_trees))]
fn print_query(alloc: Global, query: &Query) -> Result<Tree, NoMemory>
    ensures { IfOk result (λ printed. printed ≡ query_tree query.now) }
{
    match query {
        Query::All => single(alloc, "match_all", Tree::Object(Members::empty(alloc))),
        Query::Nothing => single(alloc, "match_none", Tree::Object(Members::empty(alloc))),
        Query::Term(field, value) => print_field(alloc, "term", field.text(), value.copy(alloc)?),
        Query::Terms(field, values) => {
            let values = Tree::List(values.copy(alloc)?);
            print_field(alloc, "terms", field.text(), values)
        }
        Query::Range(field, bounds) => {
            print_field(alloc, "range", field.text(), print_bounds(alloc, bounds)?)
        }
        Query::Exists(field) => {
            let field = Tree::Text(field.copy(alloc)?);
            print_field(alloc, "exists", "field", field)
        }
        Query::Bool(clauses) => {
            let clauses = Clauses {
                must: print_queries(alloc, clauses.must.as_slice())?,
                filter: print_queries(alloc, clauses.filter.as_slice())?,
                should: print_queries(alloc, clauses.should.as_slice())?,
                must_not: print_queries(alloc, clauses.must_not.as_slice())?,
                minimum: clauses.minimum,
            };
            single(alloc, "bool", print_clauses(alloc, clauses)?)
        }
    }
}

#[cycle(queries)]
fn print_queries(alloc: Global, queries: &[Query]) -> Result<Trees, NoMemory>
    ensures { IfOk result (λ printed. printed ≡ map query_tree queries.now) }
{
    let mut found = Seq::empty(alloc);
    for query in queries {
        found.push(print_query(alloc, query)?)?;
    }
    Ok(found)
}

// The clauses as lists, the empty ones left out.
fn print_clauses(alloc: Global, clauses: Clauses<Tree>) -> Result<Tree, NoMemory>
    ensures { IfOk result (λ printed. printed ≡ clauses_tree clauses) }
{
    let mut members = Seq::empty(alloc);
    add_clause(&mut members, alloc, "filter", clauses.filter)?;
    add_minimum(&mut members, alloc, clauses.minimum)?;
    add_clause(&mut members, alloc, "must", clauses.must)?;
    add_clause(&mut members, alloc, "must_not", clauses.must_not)?;
    add_clause(&mut members, alloc, "should", clauses.should)?;
    Ok(Tree::Object(Members::of(members)))
}

// A clause, unless it has no queries.
fn add_clause(
    members: &mut Seq<Member>,
    alloc: Global,
    name: &str,
    queries: Trees,
) -> Result<(), NoMemory>
    ensures { OnOk result (members.new ≡ members.old ++ clause_members name.now queries) }
{
    if queries.is_empty() {
        return Ok(());
    }
    add(members, alloc, name, Tree::List(queries))
}

// The least number of `should` that hold.
fn add_minimum(
    members: &mut Seq<Member>,
    alloc: Global,
    minimum: Option<u64>,
) -> Result<(), NoMemory>
    ensures { OnOk result (members.new ≡ members.old ++ minimum_members minimum) }
{
    match minimum {
        Some(minimum) => {
            let number = Tree::Int(printed_count(minimum));
            add(members, alloc, "minimum_should_match", number)
        }
        None => Ok(()),
    }
}

// The number of the count, or the greatest that a tree has where the count is greater.
#[tactic(auto, using(std::proofs::lemmas::Int::ints), unfolding(crate::specs::Printed::printed_count))]
fn printed_count(count: u64) -> i64
    ensures { result ≡ printed_count count }
{
    count.min(i64::MAX as u64) as i64
}
