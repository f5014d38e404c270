//! Rows are run over the forms in memory, and what comes is compared with what is due.
ghost use Rattle.std.specs.Prelude.{◌≤◌, None};

use crate::draws::chance_of;
use crate::drilling::drilled;
use crate::row::{Kind, Row};
use crate::telling::{tell_difference, tell_hits, tell_no_memory, tell_read, tell_unread};
use es_base::NoMemory;
use es_drive::{Ran, run_script};
use es_edge::{Bytes, Clock, MemSink, MemSource, Numbers};
use es_vault::Limits;
use es_wire::{LinkEnd, Receipts};
use std::alloc::{AllocError, Global};
use std::cell::Cell;
use std::io;

/// The secret of the user `elastic`.
pub const SECRET: &str = "s3cret";

/// A write takes as many bytes at the most.
const WRITE: usize = 5;

/// A clock that goes on by one millisecond at each reading.
#[derive(Drop)]
struct GoingClock {
    moment: Cell<u64>,
}

impl Clock for GoingClock {
    ghost moment = { λ _. None };

    fn now(&self) -> u64 {
        let moment = self.moment.get();
        self.moment.set(moment.saturating_add(1));
        moment
    }
}

/// What came of a run.
#[derive(Drop)]
pub struct Outcome {
    pub written: Vec<u8>,
    pub end: String,
    pub receipts: String,
    /// How many bytes were read.
    pub read: usize,
    /// How many looks hit, where requests were answered.
    pub hits: u64,
}

/// Runs a row in each of its pieces, and tells what differs.
pub fn is_as_due(rt: &HostRuntime, row: &Row) -> io::Result<bool> {
    if let Some(line) = row.unread {
        tell_unread(rt, row.name, line)?;
        return Ok(false);
    }
    if row.pieces.is_empty() {
        return is_in_each(rt, row, &[1, 7, 65536]);
    }
    is_in_each(rt, row, row.pieces.as_slice())
}

fn is_in_each(rt: &HostRuntime, row: &Row, pieces: &[u64]) -> io::Result<bool> {
    let mut is_same = true;
    for piece in pieces {
        match run(rt.alloc(), row, *piece) {
            Ok(outcome) => is_same &= is_same_in(rt, row, *piece, &outcome)?,
            Err(_) => {
                tell_no_memory(rt, row.name, *piece)?;
                is_same = false;
            }
        }
    }
    Ok(is_same)
}

fn is_same_in(rt: &HostRuntime, row: &Row, piece: u64, came: &Outcome) -> io::Result<bool> {
    let parts = [
        ("bytes", came.written.as_slice(), row.due.as_slice()),
        ("end", came.end.as_bytes(), row.end),
        (
            "receipts",
            came.receipts.as_bytes(),
            row.receipts.as_slice(),
        ),
    ];
    let mut is_same = true;
    for (part, came, due) in parts {
        if part == "receipts" && due.is_empty() {
            continue;
        }
        if came != due {
            tell_difference(rt, row.name, piece, part, came, due)?;
            is_same = false;
        }
    }
    if let Some(due) = row.read {
        if !is_read(came.read as u64, due, piece) {
            tell_read(rt, row.name, piece, came.read, due)?;
            is_same = false;
        }
    }
    Ok(is_same & is_hit_as_due(rt, row, piece, came.hits)?)
}

/// Whether as many looks hit as had to, where the row says it.
fn is_hit_as_due(rt: &HostRuntime, row: &Row, piece: u64, came: u64) -> io::Result<bool> {
    match row.hits {
        Some(due) if came != due => {
            tell_hits(rt, row.name, piece, came, due)?;
            Ok(false)
        }
        _ => Ok(true),
    }
}

/// Whether as many bytes were read as had to be, and nothing more than the rest of the last piece.
fn is_read(came: u64, due: u64, piece: u64) -> bool {
    due <= came && (came == due || came < due.saturating_add(piece) && due != 0)
}

/// What comes in pieces of one size.
fn run(alloc: Global, row: &Row, piece: u64) -> Result<Outcome, NoMemory> {
    let piece = usize::try_from(piece).unwrap_or(usize::MAX).max(1);
    let room = usize::try_from(row.room).unwrap_or(usize::MAX);
    let bytes = Bytes::from_slice(alloc, &row.asked)?;
    let reads = Numbers::from_slice(alloc, &row.failing_reads)?;
    let writes = Numbers::from_slice(alloc, &row.failing_writes)?;
    let source = MemSource::new(bytes, piece, reads);
    let sink = MemSink::new(Bytes::empty(alloc), WRITE, room, writes)?;
    match row.kind {
        Kind::Requests => answered(alloc, row, source, sink),
        Kind::Schedule => drilled(alloc, limits_of(row), source, sink),
    }
}

/// How much the node of a row may hold.
fn limits_of(row: &Row) -> Limits
    ensures journal { 1 ≤ result.journal }
    ensures most { result.journal ≤ 200000 }
    ensures roles { 1 ≤ result.role_cache }
{
    Limits {
        journal: row.journal.clamp(1, 200000),
        role_cache: row.role_cache.clamp(1, 512) as usize,
    }
}

/// What comes of requests.
fn answered(
    alloc: Global,
    row: &Row,
    mut source: MemSource,
    mut sink: MemSink,
) -> Result<Outcome, NoMemory> {
    let clock = GoingClock {
        moment: Cell::new(row.moment),
    };
    let mut chance = chance_of(alloc, row.draws.as_slice())?;
    let ran = run_script(
        alloc,
        SECRET,
        limits_of(row),
        &mut source,
        &mut sink,
        &clock,
        &mut chance,
    );
    Ok(Outcome {
        written: sink.taken,
        end: end_of(alloc, &ran)?,
        receipts: receipts_of(alloc, &ran.receipts)?,
        read: source.place,
        hits: ran.hits,
    })
}

/// How a run ended, as a row says it.
fn end_of(alloc: Global, ran: &Ran) -> Result<String, AllocError> {
    let name = match ran.ended {
        LinkEnd::Done => "Done",
        LinkEnd::Truncated => "Truncated",
        LinkEnd::BadHead => "BadHead",
        LinkEnd::ReadFault => "ReadFault",
        LinkEnd::WriteFault => "WriteFault",
        LinkEnd::Spent => "Spent",
        LinkEnd::NoMemory => "NoMemory",
    };
    let receipts = ran.receipts.len();
    let place = ran.place;
    format!(in alloc; "{name} receipts {receipts} place {place}")
}

/// Receipts, as a row says them.
fn receipts_of(alloc: Global, receipts: &Receipts) -> Result<String, AllocError> {
    let mut text = String::new(alloc);
    for receipt in receipts.as_slice() {
        let place = receipt.place;
        let moment = receipt.moment;
        let change = if receipt.changed { "changed" } else { "same" };
        text.push_str(&format!(in alloc; "place {place} moment {moment} {change}\n")?)?;
    }
    Ok(text)
}
