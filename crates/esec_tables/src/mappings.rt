//! Mappings, and documents under them.
use es_base::Str;
use es_mapping::{FieldType, Mapping, Value, ValueFault};
use es_tree::print;
use esec_cells::{Cells, Fault, add, fault};
use std::alloc::Global;

/// PLACE => TREE: what the mapping prints, or the place of its first fault.
pub fn mapping(alloc: Global, cells: &Cells) -> Result<Str, Fault> {
    match Mapping::read(alloc, &cells.tree(alloc, 1)?, cells.text(0)?) {
        Ok(mapping) => Ok(print(alloc, &mapping.print(alloc)?)?),
        Err(found) => fault(alloc, &found),
    }
}

/// MAPPING => PATHS: the type of each, and `-` where it has none.
pub fn types(alloc: Global, cells: &Cells) -> Result<Str, Fault> {
    let mapping = mapping_in(alloc, cells, 0)?;
    let mut text = Str::empty(alloc);
    for path in cells.text(1)?.split(' ') {
        add(&mut text, name_of(mapping.kind(path)))?;
    }
    Ok(text)
}

/// MAPPING => DOCUMENT: the path and the type of its first value of another type, or `ok`.
pub fn document(alloc: Global, cells: &Cells) -> Result<Str, Fault> {
    let mapping = mapping_in(alloc, cells, 0)?;
    let document = cells.tree(alloc, 1)?;
    match mapping.check(alloc, &document) {
        Ok(()) => Ok(Str::of(alloc, "ok")?),
        Err(ValueFault::BadValue { path, kind }) => {
            let mut text = path;
            add(&mut text, name_of(Some(kind)))?;
            Ok(text)
        }
        Err(ValueFault::NoMemory) => Err(Fault::NoMemory),
    }
}

/// MAPPING => PATH => DOCUMENT: the values that it has there, and `-` where it has none.
pub fn values_at(alloc: Global, cells: &Cells) -> Result<Str, Fault> {
    let mapping = mapping_in(alloc, cells, 0)?;
    let document = cells.tree(alloc, 2)?;
    let values = mapping.values(alloc, &document, cells.text(1)?)?;
    let mut text = Str::empty(alloc);
    for value in values.as_slice() {
        match value {
            Value::Number(number) => add(&mut text, format!(in alloc; "{number}")?.as_str())?,
            Value::Text(part) => add(&mut text, part.text())?,
        }
    }
    if text.is_empty() {
        text.push('-')?;
    }
    Ok(text)
}

/// The mapping of a cell.
pub fn mapping_in(alloc: Global, cells: &Cells, at: usize) -> Result<Mapping, Fault> {
    match Mapping::read(alloc, &cells.tree(alloc, at)?, "") {
        Ok(mapping) => Ok(mapping),
        Err(_) => Err(Fault::Line),
    }
}

fn name_of(kind: Option<FieldType>) -> &'static str {
    match kind {
        Some(FieldType::Keyword) => "keyword",
        Some(FieldType::Long) => "long",
        Some(FieldType::Date) => "date",
        None => "-",
    }
}
