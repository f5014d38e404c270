//! The walk over the lines of tables.
use crate::cells::Cells;
use crate::escapes::escaped;
use crate::faults::Fault;
use es_base::Str;
use std::alloc::{AllocError, Global};

/// The tables that a program answers.
pub trait Tables {
    /// The answer to the cells of a line of the table with this name.
    fn answer(alloc: Global, table: &str, cells: &Cells) -> Result<Str, Fault>;
}

/// How many tables and lines there were, and how many lines differ.
#[derive(Clone, Copy)]
struct Counts {
    tables: u64,
    lines: u64,
    differing: u64,
}

/// A table: what is asked, and the cells that stand before those of each line.
#[derive(Clone, Copy)]
struct Table<'a> {
    name: &'a str,
    head: &'a str,
}

/// Asks what each line asks: tells each line whose answer isn't the one that is due, and last how many tables and lines
/// there were and how many lines differ. Empty lines and those that begin with `#` say nothing.
pub fn compared<T: Tables>(alloc: Global, text: &str) -> Result<String, AllocError> {
    let mut told = String::new(alloc);
    let mut counts = Counts {
        tables: 0,
        lines: 0,
        differing: 0,
    };
    let mut table = Table { name: "", head: "" };
    for line in text.split('\n') {
        if let Some(head) = line.strip_prefix("table ") {
            counts.tables = counts.tables.saturating_add(1);
            table = table_of(head);
        } else if !line.is_empty() && !line.starts_with('#') {
            counts.lines = counts.lines.saturating_add(1);
            if !is_as_due::<T>(alloc, &mut told, &table, line)? {
                counts.differing = counts.differing.saturating_add(1);
            }
        }
    }
    add_counts(alloc, &mut told, counts)?;
    Ok(told)
}

fn add_counts(alloc: Global, told: &mut String, counts: Counts) -> Result<(), AllocError> {
    let Counts {
        tables,
        lines,
        differing,
    } = counts;
    let last = format!(in alloc; "tables {tables}, lines {lines}, differing {differing}\n")?;
    told.push_str(last.as_str())
}

fn table_of(head: &str) -> Table<'_> {
    match head.split_once(" => ") {
        Some((name, head)) => Table { name, head },
        None => Table {
            name: head,
            head: "",
        },
    }
}

/// Asks what a line asks, and tells the answer where it isn't the one that is due.
fn is_as_due<T: Tables>(
    alloc: Global,
    told: &mut String,
    table: &Table,
    line: &str,
) -> Result<bool, AllocError> {
    let name = table.name;
    let differs = match came_and_due::<T>(alloc, table, line) {
        Ok((came, due)) => {
            if came.as_str() == due.as_str() {
                return Ok(true);
            }
            format!(in alloc; "table {name}, at {line}\n  came {came}\n  due  {due}\n")?
        }
        Err(Fault::NoMemory) => format!(in alloc; "table {name}: out of memory at {line}\n")?,
        Err(Fault::Line) => format!(in alloc; "table {name}: this line isn't read: {line}\n")?,
    };
    told.push_str(differs.as_str())?;
    Ok(false)
}

/// The answer, and the one that is due, both as a line writes it.
fn came_and_due<T: Tables>(
    alloc: Global,
    table: &Table,
    line: &str,
) -> Result<(String, String), Fault> {
    let cells = Cells::read(alloc, table.head, line)?;
    let came = T::answer(alloc, table.name, &cells)?;
    Ok((
        escaped(alloc, came.text().as_bytes())?,
        escaped(alloc, cells.due())?,
    ))
}
