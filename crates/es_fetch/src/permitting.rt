//! Whether a document is permitted.
ghost use Rattle.std.specs.Prelude.{◌≡◌, IfOk};
ghost use Rattle.std.specs.List.{list_any};
ghost use Rattle.es_match.specs.Holds.{query_holds};
ghost use Rattle.es_fetch.specs.Permitted.{clause_permits, permits};

use es_base::{NoMemory, Shared};
use es_catalog::Stored;
use es_compose::{DocClause, DocRule};
use es_match::holds;
use es_query::Query;
use std::alloc::Global;

/// Whether both clauses permit the document. Their queries are asked on the whole document, under the mapping that it was
/// written with, up to the first that holds.
#[tactic(auto, unfolding(crate::specs::Permitted::permits))]
pub fn permits(alloc: Global, rule: &DocRule, stored: &Stored) -> Result<bool, NoMemory>
    ensures { IfOk result (λ found. found ≡ permits rule.now stored.now) }
{
    Ok(clause_permits(alloc, &rule.first, stored)? && clause_permits(alloc, &rule.second, stored)?)
}

fn clause_permits(alloc: Global, clause: &DocClause, stored: &Stored) -> Result<bool, NoMemory>
    ensures { IfOk result (λ found. found ≡ clause_permits clause.now stored.now) }
{
    match clause {
        DocClause::All => Ok(true),
        DocClause::Any(queries) => one_holds(alloc, queries.as_slice(), stored),
    }
}

/// Whether one of the queries holds. None is asked behind the first that does.
fn one_holds(alloc: Global, queries: &[Shared<Query>], stored: &Stored) -> Result<bool, NoMemory>
    ensures { IfOk result (λ found. found ≡ list_any (query_holds stored.now.written stored.now.document) queries.now) }
{
    let mut found = false;
    for query in queries {
        if !found {
            found = holds_on(alloc, query.get(), stored)?;
        }
    }
    Ok(found)
}

fn holds_on(alloc: Global, query: &Query, stored: &Stored) -> Result<bool, NoMemory>
    ensures { IfOk result (λ found. found ≡ query_holds stored.now.written stored.now.document query.now) }
{
    holds(alloc, query, stored.written.get(), stored.document.get())
}
