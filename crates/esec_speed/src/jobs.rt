//! Calls on a vault of this program's own, each run to its end.
ghost use Rattle.std.specs.Prelude.{◌≡◌, ◌≢◌, ◌<◌, ◌↔◌, true, IsTrue, OnOk};
ghost use Rattle.es_vault.specs.Answer.{IsMade};
ghost use Rattle.es_job.specs.declared.note.NextStep.TheVariants.{Done};
ghost use Rattle.es_job.specs.Steps.{HoldsPast, next_step_of, steps_left};

use es_base::{NoMemory, Seq, Str};
use es_cred::Credentials;
use es_edge::Draw;
use es_job::{Finished, Job, NextStep};
use es_request::Call;
use es_route::read_call;
use es_vault::Vault;
use es_wire::{Once, RawRequest};
use std::alloc::Global;

/// The greatest moment of a call, in milliseconds since 1970.
const LAST_MOMENT: u64 = 4000000000000000;

/// The call that these texts are, of whom these credentials name.
pub fn call(
    alloc: Global,
    credentials: Credentials,
    method: &str,
    target: &str,
    body: &str,
) -> Result<Call, NoMemory> {
    let raw = RawRequest {
        method: Str::of(alloc, method)?,
        target: Seq::from_slice(alloc, target.as_bytes())?,
        authorization: Once::Absent,
        run_as: Once::Absent,
        seen: Once::Absent,
        body: Seq::from_slice(alloc, body.as_bytes())?,
        last: false,
    };
    let asked = read_call(alloc, &raw, 1000, Draw::NotDrawn)?;
    Ok(Call {
        credentials,
        weight: 1,
        ..asked
    })
}

/// Makes all steps of a call that draws nothing, one after the other. Any other is refused.
pub fn run(alloc: Global, call: Call, vault: &mut Vault) -> Result<Finished, NoMemory> {
    if !is_made(&call) {
        return Err(NoMemory);
    }
    let mut job = Job::start(alloc, call);
    while !is_done(job.next()) {
        step(&mut job, vault)?;
    }
    Ok(job.finish())
}

// Whether the call is as calls are made, and draws nothing.
fn is_made(call: &Call) -> bool
    ensures { IsTrue result → IsMade call.now }
{
    if call.request.draws() {
        return false;
    }
    match call.draw {
        Draw::NotDrawn => call.moment <= LAST_MOMENT,
        Draw::Failed | Draw::Bytes(_) => false,
    }
}

// Makes one step, and does the work behind it.
fn step(job: &mut Job, vault: &mut Vault) -> Result<(), NoMemory>
    requires ready { job.old.ready ≡ true }
    requires open { next_step_of job.old.call job.old.phase ≢ Done }
    requires past { HoldsPast job.old.phase vault.old }
    ensures ready { OnOk result (job.new.ready ≡ true) }
    ensures past { OnOk result (HoldsPast job.new.phase vault.new) }
    ensures fewer { OnOk result (steps_left job.new.phase < steps_left job.old.phase) }
{
    job.step(vault)?;
    job.work()?;
    Ok(())
}

// Whether no step is due.
fn is_done(next: NextStep) -> bool
    ensures { IsTrue result ↔ (next ≡ Done) }
{
    matches!(next, NextStep::Done)
}
