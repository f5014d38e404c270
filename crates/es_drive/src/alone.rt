//! A call on a vault that nobody else uses.
ghost use Rattle.std.specs.Prelude.{◌≡◌, ◌≢◌, ℕ, true, IsTrue, ◌↔◌, IfOk, OnOk, OnErr};
ghost use Rattle.es_vault.specs.Answer.{IsMade};
ghost use Rattle.es_job.specs.Answer.{answer_in};
ghost use Rattle.es_job.specs.Steps.{step_of, next_step_of, HoldsPast};
ghost use Rattle.es_drive.specs.Alone.{IsAnswered, IsStepped, IsLeft};
ghost use Rattle.es_drive.specs.Hits.{count_of};
ghost use Rattle.es_drive.specs.Tallies.{IsRunOut};

use es_base::NoMemory;
use es_job::{Finished, Job, NextStep};
use es_request::Call;
use es_vault::Vault;
use std::alloc::Global;

/// Makes all steps of a call, one after the other. Want of memory changes nothing but what is cached, and in which order.
pub fn run_alone(alloc: Global, call: Call, vault: &mut Vault) -> Result<Finished, NoMemory>
    requires { IsMade call }
    ensures ok { IfOk result (λ done. (caller : ℕ) → IsAnswered (answer_in vault.old.limit vault.old.at (record { caller = caller; call = call })) done.place done.reply done.changed vault.old.at vault.new.at) }
    ensures hits { IfOk result (λ done. (caller : ℕ) → IsRunOut vault.old (record { caller = caller; call = call }) vault.new (count_of done.trail.hit)) }
    ensures err { OnErr result (vault.new.at ≡ vault.old.at) }
    ensures limit { vault.new.limit ≡ vault.old.limit }
{
    let mut job = Job::start(alloc, call);
    while !is_done(job.next()) {
        step_alone(&mut job, vault)?;
    }
    Ok(job.finish())
}

/// Makes one step, and does the work behind it.
fn step_alone(job: &mut Job, vault: &mut Vault) -> Result<(), NoMemory>
    requires ready { job.old.ready ≡ true }
    requires open { next_step_of job.old.call job.old.phase ≢ NextStep.Done }
    requires past { HoldsPast job.old.phase vault.old }
    ensures ok { OnOk result ((caller : ℕ) → IsStepped (step_of vault.old (record { caller = caller; call = job.old.call }) job.old.phase) job.old job.new vault.new) }
    ensures err { OnErr result ((caller : ℕ) → IsLeft (step_of vault.old (record { caller = caller; call = job.old.call }) job.old.phase) vault.old vault.new) }
{
    job.step(vault)?;
    job.work()?;
    Ok(())
}

/// Whether no step is due.
fn is_done(next: NextStep) -> bool
    ensures { IsTrue result ↔ (next ≡ NextStep.Done) }
{
    matches!(next, NextStep::Done)
}
