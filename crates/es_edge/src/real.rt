//! Adapters over std. They tell nothing of what comes or goes.
ghost use Rattle.std.specs.Prelude.{◌≡◌, ◌<◌, None, length};
ghost use Rattle.std.specs.Io.KnownBytes.{Consumes, Appends, IsAtEnd};
ghost use Rattle.es_edge.specs.Moves.{given_bytes, taken_bytes};
ghost use Rattle.es_edge.specs.Std.{got_for, took_for, moment_for, silent_input, silent_output};

use crate::{Clock, Got, Sink, Source, Took};
use std::io::{self, Read, Write};
use std::time::{self, Duration};

/// What a read of std means: no bytes are the end, and an error is a fault.
pub fn got_of(outcome: io::Result<usize>) -> Got
    ensures { result ≡ got_for outcome }
{
    match outcome {
        Ok(0) => Got::End,
        Ok(count) => Got::Bytes(count),
        Err(_) => Got::Failed,
    }
}

/// What a write of std means: no bytes and an error are faults.
pub fn took_of(outcome: io::Result<usize>) -> Took
    ensures { result ≡ took_for outcome }
{
    match outcome {
        Ok(0) => Took::Failed,
        Ok(count) => Took::Bytes(count),
        Err(_) => Took::Failed,
    }
}

/// The moment of a time since 1970, in milliseconds, at most `u64::MAX`; where the time isn't told, or lies before 1970, it is 0.
pub fn milliseconds_of(outcome: io::Result<Duration>) -> u64
    ensures { result ≡ moment_for outcome }
{
    match outcome {
        Ok(since) => since.as_millis().min(u64::MAX as u128) as u64,
        Err(_) => 0,
    }
}

/// Any reader of std, as standard input.
#[derive(Drop)]
pub struct StdSource<R: Read + Drop> {
    pub inner: R,
    pub ends: u64,
    pub faults: u64,
}

impl<R: Read + Drop> StdSource<R> {
    /// A source over a reader, without an end or a fault so far.
    pub fn new(inner: R) -> StdSource<R>
        ensures inner { result.inner ≡ inner }
        ensures ends { result.ends ≡ 0 }
        ensures faults { result.faults ≡ 0 }
    {
        StdSource {
            inner,
            ends: 0,
            faults: 0,
        }
    }
}

impl<R: Read + Drop> Source for StdSource<R> {
    ghost use Rattle.es_edge.specs.Moves.{Input, Reads};

    ghost input = { λ source. silent_input source.faults source.ends };

    ghost read_leaves = { λ _ _. Unit {0} };

    ghost read_leaves_same = { λ _. tt };

    ghost read_leaves_then = { λ _ _ _ _ _. tt };

    fn read(&mut self, buf: &mut [u8]) -> Got
        requires { 0 < length buf.old }
        ensures reads { Reads (silent_input self.old.faults self.old.ends) (silent_input self.new.faults self.new.ends) buf.new result }
        ensures leaves { Unit {0} }
        // where the reader tells its bytes, those that were given are its next ones
        ensures gives { Consumes (R.remaining self.old.inner) (R.remaining self.new.inner) (given_bytes result buf.new) }
        ensures ended { result ≡ Got.End → IsAtEnd (R.remaining self.new.inner) }
    {
        let got = got_of(self.inner.read(buf));
        match got {
            Got::Bytes(_) => {}
            Got::End => self.ends = self.ends.saturating_add(1),
            Got::Failed => self.faults = self.faults.saturating_add(1),
        }
        got
    }
}

/// Any writer of std that keeps nothing back, as standard output without a buffer.
#[derive(Drop)]
pub struct StdSink<W: Write + Drop> {
    pub inner: W,
    pub faults: u64,
}

impl<W: Write + Drop> StdSink<W> {
    /// A sink over a writer, without a fault so far.
    pub fn new(inner: W) -> StdSink<W>
        ensures inner { result.inner ≡ inner }
        ensures faults { result.faults ≡ 0 }
    {
        StdSink { inner, faults: 0 }
    }
}

impl<W: Write + Drop> Sink for StdSink<W> {
    ghost use Rattle.es_edge.specs.Moves.{Output, Writes};

    ghost output = { λ sink. silent_output sink.faults };

    ghost write_leaves = { λ _ _. Unit {0} };

    ghost write_leaves_same = { λ _. tt };

    ghost write_leaves_then = { λ _ _ _ _ _. tt };

    fn write(&mut self, bytes: &[u8]) -> Took
        requires { 0 < length bytes.now }
        ensures writes { Writes (silent_output self.old.faults) (silent_output self.new.faults) bytes.now result }
        ensures leaves { Unit {0} }
        // where the writer tells its bytes, it has those more that were taken
        ensures takes { Appends (W.contents self.old.inner) (W.contents self.new.inner) (taken_bytes result bytes.now) }
    {
        let took = took_of(self.inner.write(bytes));
        match took {
            Took::Bytes(_) => {}
            Took::Failed => self.faults = self.faults.saturating_add(1),
        }
        took
    }
}

/// The system's clock. Where the system doesn't tell the time, or it lies before 1970, the moment is 0.
#[derive(Drop)]
pub struct SystemClock<C: time::Clock + Drop> {
    pub system: C,
}

impl<C: time::Clock + Drop> SystemClock<C> {
    /// The clock of a runtime.
    pub fn new(system: C) -> SystemClock<C>
        ensures { result.system ≡ system }
    {
        SystemClock { system }
    }
}

impl<C: time::Clock + Drop> Clock for SystemClock<C> {
    ghost moment = { λ _. None };

    fn now(&self) -> u64 {
        milliseconds_of(self.system.since_1970())
    }
}
