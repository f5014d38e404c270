//! A drill from the first byte of its schedule to its end.
ghost use Rattle.std.specs.Prelude.{◌≡◌, ◌≤◌, ◌+◌, List, [], ℕ, true, Option, Ok};
ghost use Rattle.es_edge.specs.Moves.{Input, Output};
ghost use Rattle.es_vault.specs.Vault.{VaultValue};
ghost use Rattle.es_job.specs.Job.{JobValue};
ghost use Rattle.es_job.specs.Core.{State};
ghost use Rattle.es_drill.specs.Lines.{line_of};
ghost use Rattle.es_drill.specs.Drill.{Does, faults, line_does};
ghost use Rattle.es_drill.specs.Drilled.{most_lines, HasDrilled};
ghost use Rattle.es_drill.specs.Keeping.{HasJobs, LineTaken, Goes, GoesOn, TakenBy, behind_last};

use crate::printing::print_fault;
use crate::reading::{After, Found, Schedule};
use crate::turning::{Stop, no_jobs, take_line};
use crate::{Drilled, ScheduleFault};
use es_base::Str;
use es_edge::{Sent, Sink, Source, put};
use es_job::Job;
use es_vault::{Limits, Vault};
use std::alloc::Global;

/// As many lines are taken at the most.
const LINES: u64 = 1000000;

/// What a line leaves to do.
#[derive(Clone, Copy, Debug, PartialEq, Eq)]
pub enum Next {
    /// It was taken.
    On,
    /// The drill ended.
    Ends(Drilled),
}

/// Takes the lines of a schedule on a vault of its own, whose one user has this secret, and prints what they make. What a line
/// prints is written at once, when all of it is made. Calls that haven't ended at the end are dropped.
pub fn drill<S: Source, K: Sink>(
    alloc: Global,
    secret: &str,
    limits: Limits,
    source: &mut S,
    sink: &mut K,
) -> Drilled
    requires journal { 1 ≤ limits.journal }
    requires most { limits.journal ≤ 200000 }
    requires roles { 1 ≤ limits.role_cache }
    requires source_is_open { (S.input source.old).is_open ≡ true }
    requires sink_is_open { (K.output sink.old).is_open ≡ true }
    ensures drilled { HasDrilled secret.now limits.journal limits.role_cache (S.input source.old) (S.input source.new) (K.output sink.old) (K.output sink.new) result }
    ensures read_leaves { S.read_leaves source.old source.new }
    ensures write_leaves { K.write_leaves sink.old sink.new }
{
    let Ok(mut schedule) = Schedule::open(alloc) else {
        return Drilled::NoMemory;
    };
    let Ok(mut vault) = Vault::open(alloc, secret, limits) else {
        return Drilled::NoMemory;
    };
    let Ok(mut jobs) = no_jobs(alloc) else {
        return Drilled::NoMemory;
    };
    take_all(alloc, &mut schedule, &mut jobs, &mut vault, source, sink)
}

// Takes line after line, until the drill ends.
fn take_all<S: Source, K: Sink>(
    alloc: Global,
    schedule: &mut Schedule,
    jobs: &mut Vec<Option<Job>>,
    vault: &mut Vault,
    source: &mut S,
    sink: &mut K,
) -> Drilled
    requires goes { (secret : List ℕ) × (limit : ℕ) × (capacity : ℕ)
        × Goes 0 secret limit capacity vault.old jobs.old.items schedule.old (S.input source.old) (S.input source.old) (K.output sink.old) (K.output sink.old) }
    ensures drilled { (secret : List ℕ) (limit : ℕ) (capacity : ℕ)
        → Goes 0 secret limit capacity vault.old jobs.old.items schedule.old (S.input source.old) (S.input source.old) (K.output sink.old) (K.output sink.old)
        → HasDrilled secret limit capacity (S.input source.old) (S.input source.new) (K.output sink.old) (K.output sink.new) result }
    ensures read_leaves { S.read_leaves source.old source.new }
    ensures write_leaves { K.write_leaves sink.old sink.new }
{
    for i in 0..LINES {
        match take_next(alloc, i + 1, schedule, jobs, vault, source, sink) {
            Next::On => {}
            Next::Ends(ended) => return ended,
        }
    }
    match schedule.after(source) {
        After::Byte => Drilled::Spent,
        After::End => Drilled::Done,
        After::ReadFault => Drilled::ReadFault,
    }
}

// Reads and takes the line of this number, or finds that the drill ends. A line without a line feed is the last one, or too long.
fn take_next<S: Source, K: Sink>(
    alloc: Global,
    number: u64,
    schedule: &mut Schedule,
    jobs: &mut Vec<Option<Job>>,
    vault: &mut Vault,
    source: &mut S,
    sink: &mut K,
) -> Next
    requires number { number ≤ most_lines }
    requires state { (secret : List ℕ) × (limit : ℕ) × (capacity : ℕ) × (count : ℕ) × (first : Input) × (start : Output)
        × (number ≡ count + 1) × Goes count secret limit capacity vault.old jobs.old.items schedule.old first (S.input source.old) start (K.output sink.old) }
    ensures next { (secret : List ℕ) (limit : ℕ) (capacity : ℕ) (count : ℕ) (first : Input) (start : Output) → number ≡ count + 1
        → Goes count secret limit capacity vault.old jobs.old.items schedule.old first (S.input source.old) start (K.output sink.old)
        → GoesOn count secret limit capacity vault.new jobs.new.items schedule.new first (S.input source.new) start (K.output sink.new) result }
    ensures read_leaves { S.read_leaves source.old source.new }
    ensures write_leaves { K.write_leaves sink.old sink.new }
{
    match schedule.find(source) {
        Found::Line(end) => {
            let next = take_at(alloc, number, schedule.front(end), jobs, vault, sink);
            schedule.pass(end + 1);
            next
        }
        Found::Long => take_at(alloc, number, schedule.all(), jobs, vault, sink),
        Found::Last => last_one(take_at(alloc, number, schedule.all(), jobs, vault, sink)),
        Found::Ended => Next::Ends(Drilled::Done),
        Found::ReadFault => Next::Ends(Drilled::ReadFault),
        Found::NoMemory => Next::Ends(Drilled::NoMemory),
    }
}

// The drill ends behind the last line.
fn last_one(next: Next) -> Next
    ensures { result ≡ behind_last next }
{
    match next {
        Next::On => Next::Ends(Drilled::Done),
        ends => ends,
    }
}

// Takes the line of this number, and writes what it prints.
fn take_at<K: Sink>(
    alloc: Global,
    number: u64,
    bytes: &[u8],
    jobs: &mut Vec<Option<Job>>,
    vault: &mut Vault,
    sink: &mut K,
) -> Next
    requires number { number ≤ most_lines }
    requires jobs { (secret : List ℕ) × (limit : ℕ) × (S : State) × HasJobs secret limit S vault.old jobs.old.items }
    requires sink_is_open { (K.output sink.old).is_open ≡ true }
    ensures taken { (secret : List ℕ) (limit : ℕ) (S : State) → HasJobs secret limit S vault.old jobs.old.items
        → TakenBy number (line_does S number (line_of bytes.now)) vault.new jobs.new.items (K.output sink.old) (K.output sink.new) result }
    ensures write_leaves { K.write_leaves sink.old sink.new }
{
    let mut printed = Str::empty(alloc);
    match take_line(alloc, number, bytes, jobs, vault, &mut printed) {
        Ok(()) => put_made(printed.text(), sink),
        Err(Stop::Refused(what)) => put_fault(number, what, &mut printed, sink),
        Err(Stop::NoMemory) => Next::Ends(Drilled::NoMemory),
    }
}

// Writes what a line made.
fn put_made<K: Sink>(printed: &str, sink: &mut K) -> Next
    requires sink_is_open { (K.output sink.old).is_open ≡ true }
    ensures taken { (number : ℕ) (does : Does) (vault : VaultValue) (jobs : List (Option JobValue)) → LineTaken does vault jobs [] printed.now (Ok tt)
        → TakenBy number does vault jobs (K.output sink.old) (K.output sink.new) result }
    ensures write_leaves { K.write_leaves sink.old sink.new }
{
    match put(sink, printed.as_bytes()) {
        Sent::Ok => Next::On,
        Sent::WriteFault => Next::Ends(Drilled::WriteFault),
    }
}

// Prints and writes why the line of this number is refused.
fn put_fault<K: Sink>(number: u64, what: ScheduleFault, printed: &mut Str, sink: &mut K) -> Next
    requires nothing { printed.old ≡ [] }
    requires sink_is_open { (K.output sink.old).is_open ≡ true }
    ensures taken { (vault : VaultValue) (jobs : List (Option JobValue)) → TakenBy number (faults what) vault jobs (K.output sink.old) (K.output sink.new) result }
    ensures write_leaves { K.write_leaves sink.old sink.new }
{
    if print_fault(printed, number, what).is_err() {
        return Next::Ends(Drilled::NoMemory);
    }
    match put(sink, printed.text().as_bytes()) {
        Sent::Ok => Next::Ends(Drilled::BadSchedule { line: number, what }),
        Sent::WriteFault => Next::Ends(Drilled::WriteFault),
    }
}
