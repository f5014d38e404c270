//! The requests of a connection, one after another.
ghost use Rattle.std.specs.Prelude.{◌≡◌, ◌<◌, [], length, IfOk, true};
ghost use Rattle.es_wire.specs.Next.{NextOf};
ghost use Rattle.es_wire.specs.Fills.{Fills};

use crate::RawRequest;
use crate::look::{Looked, look};
use es_base::NoMemory;
use es_edge::{Got, Source};
use std::alloc::Global;
use std::marker::Model;

/// What comes next on a connection.
#[derive(Debug, Drop)]
pub enum Next {
    /// The next request, read whole.
    Request(RawRequest),
    /// The source ended between requests.
    Ended,
    /// The source ended inside a request.
    Truncated,
    /// The bytes can't become a request that is taken.
    BadHead,
    /// The source failed.
    ReadFault,
    /// Memory was refused. Bytes may have been read.
    NoMemory,
}

/// Why reads ended.
#[derive(Clone, Copy, Debug, PartialEq, Eq)]
pub enum Filled {
    Enough,
    End,
    Failed,
    NoMemory,
}

/// As many bytes as one read takes at the most.
const PIECE: usize = 4096;

/// As many bytes as wait without a growing buffer: a head and a piece.
const PENDING: usize = 20480;

/// A connection that is read. Contracts see the bytes that were read and belong to no request yet.
#[derive(Drop)]
pub struct Conn {
    alloc: Global,
    pending: Vec<u8>,
    piece: Vec<u8>,
}

impl Model for Conn {
    ghost use Rattle.std.specs.Prelude.{List, ℕ, ◌<◌, length};

    ghost Value = { List ℕ };

    ghost view = { λ conn. conn.pending.items };

    ghost invariant = { λ conn. 0 < length conn.piece.items };
}

impl Conn {
    /// A connection of which nothing was read. It reserves its buffers.
    pub fn open(alloc: Global) -> Result<Conn, NoMemory>
        ensures { IfOk result (λ conn. conn ≡ []) }
    {
        Ok(Conn {
            alloc,
            pending: Vec::with_capacity(alloc, PENDING)?,
            piece: Vec::from_elem(alloc, 0u8, PIECE)?,
        })
    }

    /// The next request. After any other answer it isn't called again.
    pub fn next<S: Source>(&mut self, source: &mut S) -> Next
        requires { (S.input source.old).is_open ≡ true }
        ensures next { NextOf self.old self.new (S.input source.old) (S.input source.new) result }
        ensures leaves { S.read_leaves source.old source.new }
    {
        next_of(
            self.alloc,
            &mut self.pending,
            self.piece.as_mut_slice(),
            source,
        )
    }
}

/// Looks at the bytes that wait, and reads as many as are wanting.
fn next_of<S: Source>(
    alloc: Global,
    pending: &mut Vec<u8>,
    piece: &mut [u8],
    source: &mut S,
) -> Next
    requires room { 0 < length piece.old }
    requires open { (S.input source.old).is_open ≡ true }
    ensures next { NextOf pending.old.items pending.new.items (S.input source.old) (S.input source.new) result }
    ensures leaves { S.read_leaves source.old source.new }
{
    loop {
        let wanted = match look(alloc, pending) {
            Looked::Whole(raw, end) => {
                pending.drain(..end);
                return Next::Request(raw);
            }
            Looked::Refused(_) => return Next::BadHead,
            Looked::NoMemory => return Next::NoMemory,
            Looked::More(wanted) => wanted,
        };
        match fill(pending, piece, source, wanted) {
            Filled::Enough => {}
            Filled::End => {
                return if pending.is_empty() {
                    Next::Ended
                } else {
                    Next::Truncated
                };
            }
            Filled::Failed => return Next::ReadFault,
            Filled::NoMemory => return Next::NoMemory,
        }
    }
}

/// Reads until so many bytes wait.
fn fill<S: Source>(pending: &mut Vec<u8>, piece: &mut [u8], source: &mut S, wanted: usize) -> Filled
    requires room { 0 < length piece.old }
    requires open { (S.input source.old).is_open ≡ true }
    ensures fills { Fills wanted pending.old.items pending.new.items (S.input source.old) (S.input source.new) result }
    ensures leaves { S.read_leaves source.old source.new }
{
    while pending.len() < wanted {
        match source.read(piece) {
            Got::Bytes(count) => {
                if pending.extend_from_slice(&piece[..count]).is_err() {
                    return Filled::NoMemory;
                }
            }
            Got::End => return Filled::End,
            Got::Failed => return Filled::Failed,
        }
    }
    Filled::Enough
}
