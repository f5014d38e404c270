//! Values of texts and scalars.
use es_base::Str;
use es_tree::Tree;
use es_value::{FieldType, Value, read_date, read_number, read_value, read_whole};
use esec_cells::{Cells, Fault, number};
use std::alloc::Global;

/// TEXT: the moment that it says, in milliseconds since 1970, or none.
pub fn moment(alloc: Global, cells: &Cells) -> Result<Str, Fault> {
    number(alloc, read_date(cells.text(0)?))
}

/// TEXT: the number that it writes, or none.
pub fn whole_number(alloc: Global, cells: &Cells) -> Result<Str, Fault> {
    number(alloc, read_number(cells.text(0)?))
}

/// TREE: its values as a keyword, a long and a date, each with a bar behind it; `-` where it has none.
pub fn each_type(alloc: Global, cells: &Cells) -> Result<Str, Fault> {
    let tree = cells.tree(alloc, 0)?;
    let mut text = Str::empty(alloc);
    for kind in [FieldType::Keyword, FieldType::Long, FieldType::Date] {
        add(alloc, kind, &tree, &mut text)?;
    }
    Ok(text)
}

fn add(alloc: Global, kind: FieldType, tree: &Tree, text: &mut Str) -> Result<(), Fault> {
    match read_value(alloc, kind, tree)? {
        Some(Value::Text(found)) => {
            text.push('"')?;
            text.push_str(found.text())?;
            text.push('"')?;
        }
        Some(Value::Number(number)) => text.push_str(format!(in alloc; "{number}")?.as_str())?,
        None => text.push('-')?,
    }
    text.push('|')?;
    Ok(())
}

/// TYPE => TREE: its value as a whole number, or none.
pub fn whole(alloc: Global, cells: &Cells) -> Result<Str, Fault> {
    let kind = type_of(cells.text(0)?)?;
    number(alloc, read_whole(kind, &cells.tree(alloc, 1)?))
}

fn type_of(name: &str) -> Result<FieldType, Fault> {
    match name {
        "keyword" => Ok(FieldType::Keyword),
        "long" => Ok(FieldType::Long),
        "date" => Ok(FieldType::Date),
        _ => Err(Fault::Line),
    }
}
