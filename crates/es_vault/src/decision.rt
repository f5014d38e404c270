//! Whether a caller may do what is asked.
ghost use Rattle.std.specs.Prelude.{◌≡◌, IfOk};
ghost use Rattle.std.specs.Option.{option_copied};
ghost use Rattle.es_request.specs.Needs.{need_as, need_of};
ghost use Rattle.es_vault.specs.Decision.{decision, decided_by, decided_need, denial_of, granted, name_asked};
ghost use Rattle.es_vault.specs.Stops.{Stops};

use crate::stop::Stop;
use es_decide::{Halves, decide, decide_cluster, run_as};
use es_keys::{Subject, caller_text, subject_text};
use es_records::Records;
use es_reply::{denied, denied_cluster, denied_run_as, unauthorized};
use es_request::{Call, Need, need_of};
use std::alloc::Global;

/// To whom a call is granted. One that isn't granted is stopped: 401 to a caller that isn't known, and
/// 403 to one that may not act as it asks to, or whose roles don't grant what is needed.
#[tactic(auto, unfolding(crate::specs::Decision::decision))]
pub fn granted_to(alloc: Global, records: &Records, call: &Call) -> Result<Subject, Stop>
    ensures stops { Stops result (denial_of (decision records.now call.now)) }
    ensures granted { IfOk result (λ subject. decision records.now call.now ≡ granted subject) }
{
    let target = asked_target(call);
    let Some(subject) = records.who(&call.credentials, target, call.moment)? else {
        return Err(Stop::Reply(unauthorized(alloc)?));
    };
    let halves = records.halves(alloc, &subject)?;
    allowed(alloc, &subject, &halves, call)?;
    Ok(subject)
}

/// The name of the user as whom a call asks to act.
pub fn asked_target(call: &Call) -> Option<&str>
    ensures { option_copied result ≡ call.now.run_as }
{
    match &call.run_as {
        Some(name) => Some(name.text()),
        None => None,
    }
}

/// Stops a subject with these halves that may not act as it asks to, or whose roles don't grant what is needed.
pub fn allowed(alloc: Global, subject: &Subject, halves: &Halves, call: &Call) -> Result<(), Stop>
    ensures stops { Stops result (denial_of (decided_by subject.now halves.now call.now.run_as (need_of call.now.request))) }
    ensures granted { IfOk result (λ _. decided_by subject.now halves.now call.now.run_as (need_of call.now.request) ≡ granted subject.now) }
{
    if run_as(subject, halves) {
        return has_need(alloc, subject, halves, need_of(&call.request));
    }
    let caller = caller_text(alloc, &subject.caller)?;
    let target = named_target(asked_target(call));
    Err(Stop::Reply(denied_run_as(alloc, caller.text(), target)?))
}

/// The name of the user as whom a call asks to act.
fn named_target<'a>(target: Option<&'a str>) -> &'a str
    ensures { result.now ≡ name_asked (option_copied target.entry) }
{
    match target {
        Some(name) => name,
        None => "",
    }
}

/// Stops a subject whose roles don't grant what is needed.
fn has_need(alloc: Global, subject: &Subject, halves: &Halves, need: Need<'_>) -> Result<(), Stop>
    ensures stops { Stops result (denial_of (decided_need subject.now halves.now (need_as need.entry))) }
    ensures granted { IfOk result (λ _. decided_need subject.now halves.now (need_as need.entry) ≡ granted subject.now) }
{
    match need {
        Need::Nothing => Ok(()),
        Need::Index(action, index) => {
            if decide(subject, halves, action, index) {
                return Ok(());
            }
            let text = subject_text(alloc, subject)?;
            Err(Stop::Reply(denied(alloc, text.text(), action, index)?))
        }
        Need::Cluster(action) => {
            if decide_cluster(subject, halves, action) {
                return Ok(());
            }
            let text = subject_text(alloc, subject)?;
            Err(Stop::Reply(denied_cluster(alloc, text.text(), action)?))
        }
    }
}
