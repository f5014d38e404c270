//! Runs rows of requests and the responses that are due, and of schedules and the lines that are due, which standard input
//! holds, and tells how many differ.
#![tactic(auto)]

mod draws;
mod drilling;
mod escapes;
mod fault;
mod http;
mod row;
mod running;
mod telling;
mod words;

use row::{Kind, Row};
use std::io;
use std::io::Read;

/// How many rows there were, and how many of them differ.
#[derive(Clone, Copy)]
struct Counts {
    rows: u64,
    differing: u64,
}

fn main(rt: HostRuntime) -> io::Result<()> {
    let mut text = Vec::new(rt.alloc());
    rt.stdin().read_to_end(&mut text)?;
    let Counts { rows, differing } = each_row(&rt, text.as_slice())?;
    println!(rt; "rows {rows}, differing {differing}")
}

/// Reads and runs the rows in order. What stands before the first row is a comment.
fn each_row(rt: &HostRuntime, text: &[u8]) -> io::Result<Counts> {
    let mut counts = Counts {
        rows: 0,
        differing: 0,
    };
    let mut row: Option<Row> = None;
    for line in text.split(|byte| *byte == b'\n') {
        match head_of(line) {
            Some((kind, name)) => {
                finish(rt, row.take(), &mut counts)?;
                row = Some(Row::new(rt.alloc(), kind, name));
            }
            None => {
                if let Some(row) = &mut row {
                    row.read(rt.alloc(), line);
                }
            }
        }
    }
    finish(rt, row, &mut counts)?;
    Ok(counts)
}

/// What a row is, and its name, where its first line is this one.
fn head_of(line: &[u8]) -> Option<(Kind, &[u8])> {
    if let Some(name) = line.strip_prefix(b"row ") {
        return Some((Kind::Requests, name));
    }
    let name = line.strip_prefix(b"drill ")?;
    Some((Kind::Schedule, name))
}

/// Runs a row, and counts it.
fn finish(rt: &HostRuntime, row: Option<Row>, counts: &mut Counts) -> io::Result<()> {
    if let Some(row) = row {
        counts.rows = counts.rows.saturating_add(1);
        if !running::is_as_due(rt, &row)? {
            counts.differing = counts.differing.saturating_add(1);
        }
    }
    Ok(())
}
