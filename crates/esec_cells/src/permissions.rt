//! What permissions say.
use crate::faults::Fault;
use es_base::{Seq, Str};
use es_compose::{DocClause, Permission};
use es_glob::{FieldClause, PatternSet};
use es_tree::{Tree, print};
use std::alloc::Global;

/// What a permission says that has no second clauses.
pub fn alone(alloc: Global, permission: &Permission) -> Result<Str, Fault> {
    match (&permission.docs.second, &permission.fields.second) {
        (DocClause::All, FieldClause::All) => {
            let mut text = Str::of(alloc, "{\"documents\":")?;
            add_documents(&mut text, alloc, &permission.docs.first)?;
            text.push_str(",\"fields\":")?;
            add_fields(&mut text, alloc, &permission.fields.first)?;
            add_granted(&mut text, permission.granted)?;
            Ok(text)
        }
        _ => Ok(Str::of(alloc, "a second clause isn't `all`")?),
    }
}

/// What a permission says, with both clauses of each rule.
pub fn both(alloc: Global, permission: &Permission) -> Result<Str, Fault> {
    let mut text = Str::of(alloc, "{\"documents\":[")?;
    add_documents(&mut text, alloc, &permission.docs.first)?;
    text.push(',')?;
    add_documents(&mut text, alloc, &permission.docs.second)?;
    text.push_str("],\"fields\":[")?;
    add_fields(&mut text, alloc, &permission.fields.first)?;
    text.push(',')?;
    add_fields(&mut text, alloc, &permission.fields.second)?;
    text.push(']')?;
    add_granted(&mut text, permission.granted)?;
    Ok(text)
}

fn add_granted(text: &mut Str, is_granted: bool) -> Result<(), Fault> {
    text.push_str(",\"granted\":")?;
    text.push_str(if is_granted { "true}" } else { "false}" })?;
    Ok(())
}

/// `all`, or the queries.
fn add_documents(text: &mut Str, alloc: Global, clause: &DocClause) -> Result<(), Fault> {
    match clause {
        DocClause::All => text.push_str("\"all\"")?,
        DocClause::Any(queries) => {
            let mut separator = "[";
            for query in queries.as_slice() {
                text.push_str(separator)?;
                text.push_str(print(alloc, &query.get().print(alloc)?)?.text())?;
                separator = ",";
            }
            text.push_str(if queries.is_empty() { "[]" } else { "]" })?;
        }
    }
    Ok(())
}

/// `all`, or the pairs of patterns that except and patterns that grant.
fn add_fields(text: &mut Str, alloc: Global, clause: &FieldClause) -> Result<(), Fault> {
    match clause {
        FieldClause::All => text.push_str("\"all\"")?,
        FieldClause::Any(pairs) => {
            let mut separator = "[";
            for pair in pairs.as_slice() {
                text.push_str(separator)?;
                text.push_str("{\"except\":")?;
                add_patterns(text, alloc, &pair.get().except)?;
                text.push_str(",\"grant\":")?;
                add_patterns(text, alloc, &pair.get().grant)?;
                text.push('}')?;
                separator = ",";
            }
            text.push_str(if pairs.is_empty() { "[]" } else { "]" })?;
        }
    }
    Ok(())
}

fn add_patterns(text: &mut Str, alloc: Global, set: &PatternSet) -> Result<(), Fault> {
    let mut trees = Seq::empty(alloc);
    for pattern in set.patterns().as_slice() {
        trees.push(Tree::Text(Str::of(alloc, pattern.text())?))?;
    }
    text.push_str(print(alloc, &Tree::List(trees))?.text())?;
    Ok(())
}
