//! What one line of a schedule does.
ghost use Rattle.std.specs.Prelude.{◌≡◌, ◌≢◌, ◌≤◌, ◌↔◌, ℕ, List, true, None, Some, replicate, IsTrue, IfOk};
ghost use Rattle.es_job.specs.Steps.{step_of, next_step_of, HoldsPast};
ghost use Rattle.es_job.specs.Core.{Task, State, task_left};
ghost use Rattle.es_drill.specs.declared.turning.Stop.TheVariants.{NoMemory as OutOfMemory};
ghost use Rattle.es_drill.specs.Lines.{line_of};
ghost use Rattle.es_drill.specs.Output.{reply_behind};
ghost use Rattle.es_drill.specs.Drill.{run_made, steps_do, call_does, line_does};
ghost use Rattle.es_drill.specs.Drilled.{most_lines};
ghost use Rattle.es_drill.specs.Keeping.{actors, actor_in, asked_by, texts_as, line_as, IsActor, IsJobOf, IsOpen, IsStepMade, IsMadeOf, HasTurn, AllDone, Started, LineDone, HasJobs, LineTaken};
ghost use Rattle.std.specs.Prelude.{◌++◌};

use crate::ScheduleFault;
use crate::lines::{Line, Texts, call_at, line_of};
use crate::printing::{print_note, print_reply};
use es_base::{NoMemory, Str};
use es_job::{Job, NextStep, Note};
use es_vault::Vault;
use std::alloc::Global;

/// As many actors there are.
const ACTORS: usize = 26;

/// No call makes more steps.
const STEPS: usize = 6;

/// Why a line isn't taken.
#[derive(Clone, Copy, Debug, PartialEq, Eq)]
pub enum Stop {
    /// It is refused. Nothing was printed.
    Refused(ScheduleFault),
    /// Memory was refused.
    NoMemory,
}

impl From<NoMemory> for Stop {
    ghost from_gives = { λ _ stop. stop ≡ OutOfMemory };

    fn from(_refused: NoMemory) -> Stop {
        Stop::NoMemory
    }
}

/// Places without jobs.
pub fn no_jobs(alloc: Global) -> Result<Vec<Option<Job>>, NoMemory>
    ensures { IfOk result (λ jobs. jobs.items ≡ replicate actors None) }
{
    let mut jobs = Vec::with_capacity(alloc, ACTORS)?;
    for _ in 0..ACTORS {
        jobs.push(None)?;
    }
    Ok(jobs)
}

/// Takes the line of this number, and prints what it makes.
pub fn take_line(
    alloc: Global,
    number: u64,
    bytes: &[u8],
    jobs: &mut Vec<Option<Job>>,
    vault: &mut Vault,
    printed: &mut Str,
) -> Result<(), Stop>
    requires number { number ≤ most_lines }
    requires jobs { (secret : List ℕ) × (limit : ℕ) × (S : State) × HasJobs secret limit S vault.old jobs.old.items }
    ensures taken { (secret : List ℕ) (limit : ℕ) (S : State) → HasJobs secret limit S vault.old jobs.old.items
        → LineTaken (line_does S number (line_of bytes.now)) vault.new jobs.new.items printed.old printed.new result }
{
    let Some(line) = line_of(bytes) else {
        return Err(Stop::Refused(ScheduleFault::BadLine));
    };
    let at = line.actor() - 1;
    let slot = jobs[at].take();
    match do_line(alloc, number, line, slot, vault, printed) {
        Ok(left) => {
            put_back(&mut jobs[at], left);
            Ok(())
        }
        Err(stop) => Err(stop),
    }
}

// The job that is left goes into its place.
fn put_back(place: &mut Option<Job>, left: Option<Job>)
    ensures { place.new ≡ left }
{
    *place = left;
}

// Does what a line says, on the job of its actor; the job that is left comes back.
fn do_line(
    alloc: Global,
    number: u64,
    line: Line<'_>,
    slot: Option<Job>,
    vault: &mut Vault,
    printed: &mut Str,
) -> Result<Option<Job>, Stop>
    requires number { number ≤ most_lines }
    requires actor { IsActor (actor_in line) }
    requires turn { (secret : List ℕ) × (limit : ℕ) × (S : State) × HasTurn secret limit S vault.old (actor_in line) slot }
    ensures done { (secret : List ℕ) (limit : ℕ) (S : State) → HasTurn secret limit S vault.old (actor_in line.entry) slot
        → LineDone (line_does S number (Some (line_as line.entry))) (actor_in line.entry) vault.new printed.old printed.new result }
{
    match line {
        Line::Call(_, texts) => start(alloc, number, texts, slot),
        Line::Step(actor) => make(1, actor, slot, vault, printed),
        Line::Run(actor) => make(STEPS, actor, slot, vault, printed),
    }
}

// A job of the call that the line of this number starts, where there is none.
fn start(
    alloc: Global,
    number: u64,
    texts: Texts<'_>,
    slot: Option<Job>,
) -> Result<Option<Job>, Stop>
    requires { number ≤ most_lines }
    ensures started { (S : State) (actor : ℕ) → IsJobOf (S.tasks actor) slot → Started S actor (call_does S number actor (texts_as texts.entry) (S.tasks actor)) result }
{
    if let Some(_) = slot {
        return Err(Stop::Refused(ScheduleFault::BusyActor));
    }
    let call = call_at(alloc, number, texts)?;
    Ok(Some(Job::start(alloc, call)))
}

// Makes so many steps of a call, or as many as it has, where there is one.
fn make(
    count: usize,
    actor: usize,
    slot: Option<Job>,
    vault: &mut Vault,
    printed: &mut Str,
) -> Result<Option<Job>, Stop>
    requires actor { IsActor actor }
    requires turn { (secret : List ℕ) × (limit : ℕ) × (S : State) × HasTurn secret limit S vault.old actor slot }
    ensures done { (secret : List ℕ) (limit : ℕ) (S : State) → HasTurn secret limit S vault.old actor slot
        → LineDone (steps_do count S actor (S.tasks actor)) actor vault.new printed.old printed.new result }
{
    let Some(job) = slot else {
        return Err(Stop::Refused(ScheduleFault::IdleActor));
    };
    Ok(run(count, actor, Some(job), vault, printed)?)
}

// Makes so many steps, or as many as are left.
#[cycle(running)]
fn run(
    count: usize,
    actor: usize,
    slot: Option<Job>,
    vault: &mut Vault,
    printed: &mut Str,
) -> Result<Option<Job>, NoMemory>
    requires actor { IsActor actor }
    requires turn { (secret : List ℕ) × (limit : ℕ) × (S : State) × HasTurn secret limit S vault.old actor slot }
    ensures { IfOk result (λ left. (secret : List ℕ) (limit : ℕ) (S : State) → HasTurn secret limit S vault.old actor slot
        → AllDone (run_made count S actor (S.tasks actor)) actor left vault.new printed.old printed.new) }
{
    if count == 0 {
        return Ok(slot);
    }
    let Some(job) = slot else {
        return Ok(None);
    };
    let left = step(actor, job, vault, printed)?;
    run(count - 1, actor, left, vault, printed)
}

// Makes the next step of a job, and prints it with the reply behind it; a job that hasn't ended comes back.
fn step(
    actor: usize,
    mut job: Job,
    vault: &mut Vault,
    printed: &mut Str,
) -> Result<Option<Job>, NoMemory>
    requires actor { IsActor actor }
    requires open { IsOpen job vault.old }
    ensures { IfOk result (λ left. (caller : ℕ)
        → IsMadeOf (step_of vault.old (asked_by caller job.call) job.phase) actor caller job.call left vault.new printed.old printed.new) }
{
    let note = step_job(&mut job, vault)?;
    print_note(printed, actor, note)?;
    left_of(actor, job, printed)
}

// A job, if it hasn't ended; the reply of one that has is printed.
fn left_of(actor: usize, job: Job, printed: &mut Str) -> Result<Option<Job>, NoMemory>
    requires actor { IsActor actor }
    requires ready { job.ready ≡ true }
    ensures left { IfOk result (λ left. (caller : ℕ) → IsJobOf (task_left (asked_by caller job.call) job.phase) left) }
    ensures printed { IfOk result (λ left. printed.new ≡ printed.old ++ reply_behind actor job.phase) }
{
    if !is_done(job.next()) {
        return Ok(Some(job));
    }
    let done = job.finish();
    print_reply(printed, actor, done.place, &done.reply)?;
    Ok(None)
}

// Makes one step, and does the work behind it.
fn step_job(job: &mut Job, vault: &mut Vault) -> Result<Note, NoMemory>
    requires { IsOpen job.old vault.old }
    ensures { IfOk result (λ note. (caller : ℕ) → IsStepMade (step_of vault.old (asked_by caller job.old.call) job.old.phase) note job.old job.new vault.new) }
{
    let note = job.step(vault)?;
    job.work()?;
    Ok(note)
}

// Whether no step is due.
fn is_done(next: NextStep) -> bool
    ensures { IsTrue result ↔ (next ≡ NextStep.Done) }
{
    matches!(next, NextStep::Done)
}
