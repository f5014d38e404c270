//! A source and a sink in memory. They tell all that they hold, and fail at the calls that they are told.
ghost use Rattle.std.specs.Prelude.{◌≡◌, ◌<◌, ◌≤◌, ◌+◌, ◌-◌, ◌^◌, [], length, min, take, drop, Some, true, Contains, ◌↔◌, ◌⊎◌, IfOk, vec_capacity};
ghost use Rattle.es_edge.specs.Calls.{next_call};

use crate::{Bytes, Got, NoMemory, Numbers, Sink, Source, Took};

/// Bytes that come in pieces. It fails exactly at the listed calls, which are counted from 1.
#[derive(Drop)]
pub struct MemSource {
    /// All bytes, given and left.
    pub bytes: Bytes,
    /// As many bytes as a read gives at the most.
    pub piece: usize,
    /// The calls that fail.
    pub failing: Numbers,
    /// How many bytes were given.
    pub place: usize,
    pub calls: u64,
    pub ends: u64,
    pub faults: u64,
    ghost some: { 0 < piece },
    ghost within: { place ≤ length bytes },
}

impl MemSource {
    /// A source that has given nothing.
    pub fn new(bytes: Bytes, piece: usize, failing: Numbers) -> MemSource
        requires { 0 < piece }
        ensures bytes { result.bytes ≡ bytes }
        ensures piece { result.piece ≡ piece }
        ensures failing { result.failing ≡ failing }
        ensures place { result.place ≡ 0 }
        ensures calls { result.calls ≡ 0 }
        ensures ends { result.ends ≡ 0 }
        ensures faults { result.faults ≡ 0 }
    {
        MemSource {
            bytes,
            piece,
            failing,
            place: 0,
            calls: 0,
            ends: 0,
            faults: 0,
        }
    }
}

impl Source for MemSource {
    ghost use Rattle.std.specs.Prelude.{refl};
    ghost use Rattle.std.proofs.Common.{◌∙◌};
    ghost use Rattle.es_edge.specs.Moves.{Input, Reads};
    ghost use Rattle.es_edge.specs.Memory.{source_input, SourceKeeps};

    ghost input = { source_input };

    ghost read_leaves = { SourceKeeps };

    ghost read_leaves_same = { λ _. (refl, refl, refl) };

    ghost read_leaves_then = { λ _ _ _ first second. (second.0 ∙ first.0, second.1 ∙ first.1, second.2 ∙ first.2) };

    fn read(&mut self, buf: &mut [u8]) -> Got
        requires { 0 < length buf.old }
        ensures reads { Reads (source_input self.old) (source_input self.new) buf.new result }
        ensures leaves { SourceKeeps self.old self.new }
        ensures fails { (result ≡ Got.Failed) ↔ Contains self.old.failing (next_call self.old.calls) }
        ensures gives { (result ≡ Got.Failed) ⊎ (result ≡ Got.End)
            ⊎ (result ≡ Got.Bytes (min (min self.old.piece (length buf.old)) (length self.old.bytes - self.old.place))) }
        ensures calls { self.new.calls ≡ next_call self.old.calls }
    {
        self.calls = self.calls.saturating_add(1);
        if self.failing.as_slice().contains(&self.calls) {
            self.faults = self.faults.saturating_add(1);
            return Got::Failed;
        }
        let rest = &self.bytes.as_slice()[self.place..];
        if rest.is_empty() {
            self.ends = self.ends.saturating_add(1);
            return Got::End;
        }
        let count = self.piece.min(buf.len()).min(rest.len());
        buf[..count].copy_from_slice(&rest[..count]);
        self.place += count;
        Got::Bytes(count)
    }
}

/// What was written, in pieces. It fails exactly at the listed calls, which are counted from 1, and where there is no room.
#[derive(Drop)]
pub struct MemSink {
    /// The bytes that were taken.
    pub taken: Vec<u8>,
    /// As many bytes as a write takes at the most.
    pub piece: usize,
    /// As many bytes as it takes in all.
    pub room: usize,
    /// The calls that fail.
    pub failing: Numbers,
    pub calls: u64,
    pub faults: u64,
    ghost some: { 0 < piece },
    ghost fits: { length taken.items ≤ room },
    ghost reserved: { room ≤ vec_capacity taken },
}

impl MemSink {
    /// A sink that begins with some bytes, at most as many as it has room for. It reserves the room, so that a write takes no memory.
    pub fn new(
        taken: Bytes,
        piece: usize,
        room: usize,
        failing: Numbers,
    ) -> Result<MemSink, NoMemory>
        requires some { 0 < piece }
        requires fits { length taken ≤ room }
        ensures taken { IfOk result (λ sink. sink.taken.items ≡ taken) }
        ensures piece { IfOk result (λ sink. sink.piece ≡ piece) }
        ensures room { IfOk result (λ sink. sink.room ≡ room) }
        ensures failing { IfOk result (λ sink. sink.failing ≡ failing) }
        ensures calls { IfOk result (λ sink. sink.calls ≡ 0) }
        ensures faults { IfOk result (λ sink. sink.faults ≡ 0) }
    {
        let mut taken = taken.into_vec();
        taken.reserve(room - taken.len())?;
        Ok(MemSink {
            taken,
            piece,
            room,
            failing,
            calls: 0,
            faults: 0,
        })
    }
}

impl Sink for MemSink {
    ghost use Rattle.std.specs.Prelude.{refl};
    ghost use Rattle.std.proofs.Common.{◌∙◌};
    ghost use Rattle.es_edge.specs.Moves.{Output, Writes};
    ghost use Rattle.es_edge.specs.Memory.{sink_output, SinkKeeps};

    ghost output = { sink_output };

    ghost write_leaves = { SinkKeeps };

    ghost write_leaves_same = { λ _. (refl, refl, refl) };

    ghost write_leaves_then = { λ _ _ _ first second. (second.0 ∙ first.0, second.1 ∙ first.1, second.2 ∙ first.2) };

    fn write(&mut self, bytes: &[u8]) -> Took
        requires { 0 < length bytes.now }
        ensures writes { Writes (sink_output self.old) (sink_output self.new) bytes.now result }
        ensures leaves { SinkKeeps self.old self.new }
        ensures fails { (result ≡ Took.Failed) ↔ (Contains self.old.failing (next_call self.old.calls) ⊎ (length self.old.taken.items ≡ self.old.room)) }
        ensures takes { (result ≡ Took.Failed)
            ⊎ (result ≡ Took.Bytes (min (min self.old.piece (length bytes.now)) (self.old.room - length self.old.taken.items))) }
        ensures calls { self.new.calls ≡ next_call self.old.calls }
    {
        self.calls = self.calls.saturating_add(1);
        let room = self.room - self.taken.len();
        if room == 0 || self.failing.as_slice().contains(&self.calls) {
            self.faults = self.faults.saturating_add(1);
            return Took::Failed;
        }
        let count = self.piece.min(bytes.len()).min(room);
        self.taken.extend_from_slice(&bytes[..count]).unwrap();
        Took::Bytes(count)
    }
}
