//! Queries, and the documents on which they hold.
use crate::mappings::mapping_in;
use es_base::Str;
use es_match::holds;
use es_query::Query;
use es_tree::{BodyFault, print};
use esec_cells::{Cells, Fault, add, fault, tree_of};
use std::alloc::Global;

/// PLACE => TREE: what the query prints, or the place of its first fault.
pub fn query(alloc: Global, cells: &Cells) -> Result<Str, Fault> {
    match Query::read(alloc, &cells.tree(alloc, 1)?, cells.text(0)?) {
        Ok(query) => Ok(print(alloc, &query.print(alloc)?)?),
        Err(found) => fault(alloc, &found),
    }
}

/// MAPPING => DOCUMENTS => QUERY: the numbers of the documents on which it holds, counted from 1. They have a line feed
/// between each two.
pub fn found(alloc: Global, cells: &Cells) -> Result<Str, Fault> {
    let mapping = mapping_in(alloc, cells, 0)?;
    let query = match Query::read(alloc, &cells.tree(alloc, 2)?, "") {
        Ok(query) => query,
        Err(BodyFault::NoMemory) => return Err(Fault::NoMemory),
        Err(_) => return Err(Fault::Line),
    };
    let mut text = Str::empty(alloc);
    let mut number = 0u64;
    for document in cells.text(1)?.split('\n') {
        number = number.saturating_add(1);
        if holds(
            alloc,
            &query,
            &mapping,
            &tree_of(alloc, document.as_bytes())?,
        )? {
            add(&mut text, format!(in alloc; "{number}")?.as_str())?;
        }
    }
    Ok(text)
}
