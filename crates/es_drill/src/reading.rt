//! The lines of a source, one after another.
ghost use Rattle.std.specs.Prelude.{◌≡◌, ◌<◌, ◌≤◌, ◌==◌, [], take, drop, length, IfOk, true};
ghost use Rattle.std.specs.List.{position_or_len};
ghost use Rattle.es_drill.specs.Keeping.{Finds, AfterAll, at_end};

use crate::lines::LONGEST;
use es_base::NoMemory;
use es_edge::{Got, Source};
use std::alloc::Global;
use std::marker::Model;

/// As many bytes as one read takes at the most.
const PIECE: usize = 4096;

/// What stands first among the bytes that wait.
#[derive(Clone, Copy, Debug, PartialEq, Eq)]
pub enum Found {
    /// A line of so many bytes, with its line feed behind it.
    Line(usize),
    /// More bytes than a line may have, and no line feed.
    Long,
    /// The last line, without a line feed: the source ended.
    Last,
    /// Nothing: the source ended.
    Ended,
    /// The source failed.
    ReadFault,
    /// Memory was refused. Bytes that were read may be lost.
    NoMemory,
}

/// What comes behind the last line that may be taken.
#[derive(Clone, Copy, Debug, PartialEq, Eq)]
pub enum After {
    /// A byte.
    Byte,
    /// The end of the source.
    End,
    /// A fault of the source.
    ReadFault,
}

/// A schedule that is read. Contracts see the bytes that were read and belong to no line that was passed.
#[derive(Drop)]
pub struct Schedule {
    pending: Vec<u8>,
    piece: Vec<u8>,
}

impl Model for Schedule {
    ghost use Rattle.std.specs.Prelude.{List, ℕ, ◌<◌, length};

    ghost Value = { List ℕ };

    ghost view = { λ schedule. schedule.pending.items };

    ghost invariant = { λ schedule. 0 < length schedule.piece.items };
}

impl Schedule {
    /// A schedule of which nothing was read.
    pub fn open(alloc: Global) -> Result<Schedule, NoMemory>
        ensures { IfOk result (λ schedule. schedule ≡ []) }
    {
        Ok(Schedule {
            pending: Vec::with_capacity(alloc, 2 * PIECE)?,
            piece: Vec::from_elem(alloc, 0u8, PIECE)?,
        })
    }

    /// Looks for the next line, and reads until it is found. A line that is too long is found as soon as so many bytes wait.
    pub fn find<S: Source>(&mut self, source: &mut S) -> Found
        requires { (S.input source.old).is_open ≡ true }
        ensures finds { Finds self.old self.new (S.input source.old) (S.input source.new) result }
        ensures leaves { S.read_leaves source.old source.new }
    {
        find_in(&mut self.pending, self.piece.as_mut_slice(), source)
    }

    /// The first bytes that wait.
    pub fn front(&self, count: usize) -> &[u8]
        requires { count ≤ length self.now }
        ensures { result.now ≡ take count self.now }
    {
        &self.pending[..count]
    }

    /// All bytes that wait.
    pub fn all(&self) -> &[u8]
        ensures { result.now ≡ self.now }
    {
        &self.pending
    }

    /// Passes over the first bytes that wait.
    pub fn pass(&mut self, count: usize)
        requires { count ≤ length self.old }
        ensures { self.new ≡ drop count self.old }
    {
        self.pending.drain(..count);
    }

    /// What comes behind the last line: a byte that waits, or what a read gives.
    pub fn after<S: Source>(&mut self, source: &mut S) -> After
        requires { (S.input source.old).is_open ≡ true }
        ensures after { AfterAll self.old (S.input source.old) (S.input source.new) result }
        ensures same { self.new ≡ self.old }
        ensures leaves { S.read_leaves source.old source.new }
    {
        if !self.pending.is_empty() {
            return After::Byte;
        }
        match source.read(self.piece.as_mut_slice()) {
            Got::Bytes(_) => After::Byte,
            Got::End => After::End,
            Got::Failed => After::ReadFault,
        }
    }
}

// Reads piece by piece, and looks for a line feed in each piece once.
fn find_in<S: Source>(pending: &mut Vec<u8>, piece: &mut [u8], source: &mut S) -> Found
    requires room { 0 < length piece.old }
    requires open { (S.input source.old).is_open ≡ true }
    ensures finds { Finds pending.old.items pending.new.items (S.input source.old) (S.input source.new) result }
    ensures leaves { S.read_leaves source.old source.new }
{
    let mut seen = 0;
    loop {
        let end = seen + feed_in(&pending[seen..]);
        if end < pending.len() {
            return Found::Line(end);
        }
        seen = end;
        if seen > LONGEST {
            return Found::Long;
        }
        match source.read(piece) {
            Got::Bytes(count) => {
                if pending.extend_from_slice(&piece[..count]).is_err() {
                    return Found::NoMemory;
                }
            }
            Got::End => return at_end(pending),
            Got::Failed => return Found::ReadFault,
        }
    }
}

// What is left where the source ended.
fn at_end(pending: &[u8]) -> Found
    ensures { result ≡ at_end pending.now }
{
    if pending.is_empty() {
        Found::Ended
    } else {
        Found::Last
    }
}

// Where the first line feed stands, or how many bytes there are.
fn feed_in(bytes: &[u8]) -> usize
    ensures { result ≡ position_or_len (λ b. b == 10) bytes.now }
{
    bytes.iter().position(|b| *b == 10).unwrap_or(bytes.len())
}
