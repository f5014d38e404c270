//! The steps of a job, each by one call on the vault.
ghost use Rattle.std.specs.Prelude.{◌≡◌, ◌≢◌, ◌≤◌, ℕ, true, None, IfOk, OnErr};
ghost use Rattle.es_vault.specs.Answer.{IsMade};
ghost use Rattle.es_job.specs.declared.note.NextStep.TheVariants.{Done, Seen};
ghost use Rattle.es_job.specs.Steps.{first_step, change_step, step_of, HoldsPast, IsPast, next_step_of};
ghost use Rattle.es_job.specs.Answer.{static_of, is_due};
ghost use Rattle.es_job.specs.Job.{phase_as, is_ready, IsGood, IsLooked, IsStep, HasTurns};
ghost use Rattle.es_vault.specs.Answer.{change_in};

use crate::due::{Due, share_halves};
use crate::note::Note;
use crate::work::Work;
use es_base::NoMemory;
use es_decide::Halves;
use es_request::{Call, Request};
use es_vault::{ChangeAnswer, Look, Published, Snapshot, Vault, asked_target};
use std::alloc::Global;

/// What a step noted, and where the work is then.
#[derive(Drop)]
pub struct Step {
    pub note: Note,
    pub work: Work,
}

/// Makes the next step.
pub fn next_step(
    alloc: Global,
    call: &Call,
    work: &Work,
    vault: &mut Vault,
) -> Result<Step, NoMemory>
    requires made { IsMade call.now }
    requires good { IsGood call.now work.now }
    requires ready { is_ready work.now ≡ true }
    requires open { next_step_of call.now (phase_as call.now work.now) ≢ Done }
    requires past { HoldsPast (phase_as call.now work.now) vault.old }
    ensures ok { IfOk result (λ step. (caller turns : ℕ) → HasTurns work.now turns
        → IsStep call.now (step_of vault.old (record { caller = caller; call = call.now }) (phase_as call.now work.now)) step turns vault.new) }
    ensures err { OnErr result (vault.new ≡ vault.old) }
    ensures asks { OnErr result (next_step_of call.now (phase_as call.now work.now) ≢ Seen) }
{
    match work {
        Work::Begun => begin(call, vault),
        Work::Looked(snapshot, halves, due) => publish(alloc, call, snapshot, halves, due, vault),
        Work::Changing(snapshot, _halves) => change(call, snapshot, vault),
        Work::Missed(_, _) | Work::Unknown(_) | Work::Ended(_, _, _) => unreachable!(),
    }
}

// Sees the place of a request that is refused by its own text, and looks for any other.
fn begin(call: &Call, vault: &mut Vault) -> Result<Step, NoMemory>
    ensures ok { IfOk result (λ step. IsStep call.now (first_step vault.old call.now (static_of call.now.request)) step 0 vault.new) }
    ensures err { OnErr result (vault.new ≡ vault.old) }
    ensures asks { OnErr result (static_of call.now.request ≡ None) }
{
    match &call.request {
        Request::Refused(_) => {
            let place = vault.seen();
            Ok(Step {
                note: Note::Seen(place),
                work: Work::Ended(place, false, None),
            })
        }
        _ => look(call, vault),
    }
}

// Looks who asks, and which of the halves are cached.
fn look(call: &Call, vault: &mut Vault) -> Result<Step, NoMemory>
    requires { static_of call.now.request ≡ None }
    ensures ok { IfOk result (λ step. IsStep call.now (first_step vault.old call.now None) step 0 vault.new) }
    ensures err { OnErr result (vault.new ≡ vault.old) }
{
    let found = vault.look(&call.credentials, asked_target(call), call.moment)?;
    match found {
        Look::Hit(snapshot, halves) => Ok(Step {
            note: Note::Hit(snapshot.place, snapshot.count),
            work: Work::Looked(snapshot, halves, Due::none()),
        }),
        Look::Miss(snapshot, keys) => Ok(Step {
            note: Note::Miss(snapshot.place, snapshot.count),
            work: Work::Missed(snapshot, keys),
        }),
        Look::Unknown(place) => Ok(Step {
            note: Note::Unknown(place),
            work: Work::Unknown(place),
        }),
    }
}

// Publishes the next composed role.
fn publish(
    alloc: Global,
    call: &Call,
    snapshot: &Snapshot,
    halves: &Halves,
    due: &Due,
    vault: &mut Vault,
) -> Result<Step, NoMemory>
    requires good { IsGood call.now (Work.Looked snapshot.now halves.now due.now) }
    requires ready { is_ready (Work.Looked snapshot.now halves.now due.now) ≡ true }
    requires past { IsPast snapshot.now vault.old }
    ensures ok { IfOk result (λ step. (caller turns : ℕ) → HasTurns (Work.Looked snapshot.now halves.now due.now) turns
        → IsStep call.now (step_of vault.old (record { caller = caller; call = call.now }) (phase_as call.now (Work.Looked snapshot.now halves.now due.now))) step turns vault.new) }
    ensures err { OnErr result (vault.new ≡ vault.old) }
{
    let Some(pair) = due.next() else {
        unreachable!();
    };
    let pair = pair.share(alloc)?;
    let work = Work::Looked(snapshot.share()?, share_halves(halves)?, due.rest(alloc)?);
    let note = match vault.publish_role(snapshot.count, pair.key, pair.role)? {
        Published::Put => Note::Published,
        Published::Stale { began, stands } => Note::Stale(began, stands),
    };
    Ok(Step { note, work })
}

// Makes the change.
fn change(call: &Call, snapshot: &Snapshot, vault: &mut Vault) -> Result<Step, NoMemory>
    requires made { IsMade call.now }
    requires due { is_due snapshot.now.records snapshot.now.place call.now ≡ true }
    requires known { IsLooked call.now snapshot.now }
    requires past { IsPast snapshot.now vault.old }
    ensures ok { IfOk result (λ step. (caller turns : ℕ) → turns ≤ 4
        → IsStep call.now (change_step vault.old (change_in vault.old.limit vault.old.at (record { caller = caller; call = call.now }))) step turns vault.new) }
    ensures err { OnErr result (vault.new ≡ vault.old) }
{
    match vault.change(call, &snapshot.subject, snapshot.count)? {
        ChangeAnswer::Changed(place, reply) => Ok(Step {
            note: Note::Changed(place),
            work: Work::Ended(place, true, Some(reply)),
        }),
        ChangeAnswer::Refused(place, reply) => Ok(Step {
            note: Note::Refused(place),
            work: Work::Ended(place, false, Some(reply)),
        }),
        ChangeAnswer::Full(place, reply) => Ok(Step {
            note: Note::Full(place),
            work: Work::Ended(place, false, Some(reply)),
        }),
    }
}
