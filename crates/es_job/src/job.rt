//! One call from its first step to its reply.
ghost use Rattle.std.specs.Prelude.{◌≡◌, ◌≢◌, ℕ, true, false, IfOk, OnOk, OnErr};
ghost use Rattle.es_vault.specs.Answer.{IsMade};
ghost use Rattle.es_job.specs.Answer.{static_of};
ghost use Rattle.es_job.specs.Steps.{begun, ended, step_of, HoldsPast, first_kind, next_step_of, is_hit};
ghost use Rattle.es_job.specs.Job.{HasStepped};

use crate::note::{NextStep, Note};
use crate::stepping::next_step;
use crate::telling::{reply_of, work_after};
use crate::work::Work;
use es_base::NoMemory;
use es_reply::Reply;
use es_request::{Call, Request};
use es_vault::Vault;
use std::alloc::Global;
use std::marker::Model;

/// One call, and where the work on it is. Each step makes one call on a vault; the work between steps needs none.
#[derive(Drop)]
pub struct Job {
    alloc: Global,
    call: Call,
    work: Work,
    turns: u64,
    hit: bool,
}

impl Model for Job {
    ghost use Rattle.es_job.specs.Job.{JobValue, IsSound, job_of};
    ghost use Rattle.es_job.specs.Codes.{job_code};

    ghost Value = { JobValue };

    ghost coded = { job_code };

    ghost view = { λ job. job_of job.call job.work job.turns job.hit };

    ghost invariant = { λ job. IsSound job.call job.work job.turns };
}

/// What is left of a job that has ended: how many steps it made, and whether its look hit. Only the end of a job makes one.
#[derive(Drop)]
pub struct Trail {
    turns: u64,
    hit: bool,
}

impl Trail {
    /// How many steps the job made.
    pub fn turns(&self) -> u64
        ensures { result ≡ self.now.turns }
    {
        self.turns
    }

    /// Whether each half of who asked was cached.
    pub fn hit(&self) -> bool
        ensures { result ≡ self.now.hit }
    {
        self.hit
    }
}

/// What a job came to.
#[derive(Drop)]
pub struct Finished {
    /// The place of the reply, which is that of the change where one was accepted.
    pub place: u64,
    /// Whether a change was accepted.
    pub changed: bool,
    /// The reply.
    pub reply: Reply,
    /// The steps.
    pub trail: Trail,
}

impl Job {
    /// A job of this call, of which nothing is done. It takes no memory.
    pub fn start(alloc: Global, call: Call) -> Job
        requires { IsMade call }
        ensures { result ≡ record { call = call; phase = begun; turns = 0; hit = false; ready = true } }
    {
        Job {
            alloc,
            call,
            work: Work::Begun,
            turns: 0,
            hit: false,
        }
    }

    /// What the next step does. It takes no memory.
    pub fn next(&self) -> NextStep
        requires { self.now.ready ≡ true }
        ensures { result ≡ next_step_of self.now.call self.now.phase }
    {
        match &self.work {
            Work::Begun => first_kind(&self.call.request),
            Work::Missed(_, _) | Work::Looked(_, _, _) => NextStep::PublishRole,
            Work::Changing(_, _) => NextStep::Change,
            Work::Unknown(_) | Work::Ended(_, _, _) => NextStep::Done,
        }
    }

    /// Makes the next step, by one call on the vault. Want of memory changes nothing.
    pub fn step(&mut self, vault: &mut Vault) -> Result<Note, NoMemory>
        requires ready { self.old.ready ≡ true }
        requires open { next_step_of self.old.call self.old.phase ≢ NextStep.Done }
        requires past { HoldsPast self.old.phase vault.old }
        ensures ok { IfOk result (λ n. (caller : ℕ) → HasStepped (step_of vault.old (record { caller = caller; call = self.old.call }) self.old.phase) n self.old self.new vault.new) }
        ensures err { OnErr result ((self.new ≡ self.old) × (vault.new ≡ vault.old)) }
        ensures asks { OnErr result (next_step_of self.old.call self.old.phase ≢ NextStep.Seen) }
    {
        let step = next_step(self.alloc, &self.call, &self.work, vault)?;
        self.turns += 1;
        self.hit = self.hit || is_hit(step.note);
        self.work = step.work;
        Ok(step.note)
    }

    /// Does the local work that is due after a step: it composes roles, decides, and makes the reply. It moves nothing that
    /// others see. Want of memory changes nothing.
    pub fn work(&mut self) -> Result<(), NoMemory>
        ensures ok { OnOk result (self.new ≡ record self.old { ready = true }) }
        ensures err { OnErr result (self.new ≡ self.old) }
        ensures asks { OnErr result (self.old.ready ≡ false) }
    {
        let Some(work) = work_after(self.alloc, &self.call, &self.work)? else {
            return Ok(());
        };
        self.work = work;
        Ok(())
    }

    /// The reply of a job that has ended, and its place. It takes no memory.
    pub fn finish(self) -> Finished
        requires ready { self.ready ≡ true }
        requires done { next_step_of self.call self.phase ≡ NextStep.Done }
        ensures ended { self.phase ≡ ended result.place result.changed result.reply }
        ensures turns { result.trail.turns ≡ self.turns }
        ensures hit { result.trail.hit ≡ self.hit }
    {
        let Job {
            call,
            work,
            turns,
            hit,
            ..
        } = self;
        match work {
            Work::Ended(place, changed, reply) => Finished {
                place,
                changed,
                reply: reply_of(call, reply),
                trail: Trail { turns, hit },
            },
            _ => unreachable!(),
        }
    }
}

// The first step of a request that is refused by its own text sees the place, that of any other looks.
fn first_kind(request: &Request) -> NextStep
    ensures { result ≡ first_kind (static_of request.now) }
{
    match request {
        Request::Refused(_) => NextStep::Seen,
        _ => NextStep::Look,
    }
}

// Whether a step notes that each half was cached.
fn is_hit(note: Note) -> bool
    ensures { result ≡ is_hit note }
{
    matches!(note, Note::Hit(_, _))
}
