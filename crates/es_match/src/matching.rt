//! A query on a document.
ghost use Rattle.std.specs.Prelude.{◌≡◌, IfOk};
ghost use Rattle.es_match.specs.Holds.{query_holds};

use crate::matcher::Matcher;
use es_base::NoMemory;
use es_mapping::Mapping;
use es_query::Query;
use es_tree::Tree;
use std::alloc::Global;

/// Whether the query holds on the document, whose fields have the types of the mapping.
pub fn holds(
    alloc: Global,
    query: &Query,
    mapping: &Mapping,
    document: &Tree,
) -> Result<bool, NoMemory>
    ensures { IfOk result (λ found. found ≡ query_holds mapping.now document.now query.now) }
{
    Ok(Matcher::new(alloc, query, mapping)?.holds_under(mapping, document))
}
