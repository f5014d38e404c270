//! What members that count permit a person.
ghost use Rattle.std.specs.Prelude.{◌≡◌, ◌++◌, ◌∷◌, [], is_none, IfOk, OnOk};
ghost use Rattle.std.specs.List.{list_any, filter_map};
ghost use Rattle.es_grammar.specs.Values.{has_some};
ghost use Rattle.es_compose.specs.declared.member.Member.{Member};
ghost use Rattle.es_compose.specs.Ready.{seen, query_filled, member_documents, member_fields};

use crate::kinds::{DocClause, DocQueries};
use crate::member::Member;
use es_base::{NoMemory, Seq};
use es_glob::{FieldClause, FieldPairs};
use es_tree::Person;
use std::alloc::Global;

/// Whether the action is granted: there is one of these members.
pub fn granted(members: &[&Member]) -> bool
    ensures { result ≡ has_some (seen members.now) }
{
    match members {
        [] => false,
        [_, ..] => true,
    }
}

fn some_without_query(members: &[&Member]) -> bool
    ensures { result ≡ list_any (λ (member : Member). is_none member.query) (seen members.now) }
{
    let mut found = false;
    for member in members {
        let member: &Member = member;
        found = found || member.query.is_none();
    }
    found
}

fn some_without_fields(members: &[&Member]) -> bool
    ensures { result ≡ list_any (λ (member : Member). is_none member.fields) (seen members.now) }
{
    let mut found = false;
    for member in members {
        let member: &Member = member;
        found = found || member.fields.is_none();
    }
    found
}

// Adds the member's query for the person, if it has one.
fn add_query(
    queries: &mut DocQueries,
    alloc: Global,
    person: &Person,
    member: &Member,
) -> Result<(), NoMemory>
    ensures { OnOk result (queries.new ≡ queries.old ++ filter_map (query_filled person.now) (member.now ∷ [])) }
{
    match &member.query {
        Some(query) => queries.push(query.filled(alloc, person)?),
        None => Ok(()),
    }
}

// Adds the member's rule over fields, if it has one.
fn add_pair(pairs: &mut FieldPairs, member: &Member) -> Result<(), NoMemory>
    ensures { OnOk result (pairs.new ≡ pairs.old ++ filter_map (λ (member : Member). member.fields) (member.now ∷ [])) }
{
    match &member.fields {
        Some(pair) => pairs.push(pair.share()?),
        None => Ok(()),
    }
}

fn queries_of(alloc: Global, person: &Person, members: &[&Member]) -> Result<DocQueries, NoMemory>
    ensures { IfOk result (λ queries. queries ≡ filter_map (query_filled person.now) (seen members.now)) }
{
    let mut queries = Seq::empty(alloc);
    for member in members {
        add_query(&mut queries, alloc, person, member)?;
    }
    Ok(queries)
}

fn pairs_of(alloc: Global, members: &[&Member]) -> Result<FieldPairs, NoMemory>
    ensures { IfOk result (λ pairs. pairs ≡ filter_map (λ (member : Member). member.fields) (seen members.now)) }
{
    let mut pairs = Seq::empty(alloc);
    for member in members {
        add_pair(&mut pairs, member)?;
    }
    Ok(pairs)
}

/// The documents that these members grant the person. No template is filled where one of them has no query.
#[tactic(auto, unfolding(crate::specs::Ready::member_documents))]
pub fn documents(alloc: Global, person: &Person, members: &[&Member]) -> Result<DocClause, NoMemory>
    ensures { IfOk result (λ clause. clause ≡ member_documents person.now (seen members.now)) }
{
    if some_without_query(members) {
        return Ok(DocClause::All);
    }
    Ok(DocClause::Any(queries_of(alloc, person, members)?))
}

/// The fields that these members grant.
#[tactic(auto, unfolding(crate::specs::Ready::member_fields))]
pub fn fields(alloc: Global, members: &[&Member]) -> Result<FieldClause, NoMemory>
    ensures { IfOk result (λ clause. clause ≡ member_fields (seen members.now)) }
{
    if some_without_fields(members) {
        return Ok(FieldClause::All);
    }
    Ok(FieldClause::Any(pairs_of(alloc, members)?))
}
