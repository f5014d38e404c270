//! The local work between the steps of a job.
ghost use Rattle.std.specs.Prelude.{◌≡◌, ◌≤◌, ℕ, [], IfOk, OnErr, None, false};
ghost use Rattle.es_job.specs.Due.{due_pairs};
ghost use Rattle.es_job.specs.Answer.{static_of, stop_in, read_in};
ghost use Rattle.es_job.specs.Steps.{world_of};
ghost use Rattle.es_job.specs.Job.{IsGood, is_ready, HasHalves, HasReply, HasTurns, IsWorked, WorkDone, unknown_at, reply_of};

use crate::due::{Due, share_halves};
use crate::reads::{authenticate, get_document, get_mapping, get_role, get_user, list_keys};
use crate::work::Work;
use es_base::NoMemory;
use es_decide::Halves;
use es_reply::{Reply, not_built, place_not_reached, unauthorized};
use es_request::{Call, Request};
use es_vault::{HalfKeys, Snapshot, Stop, allowed, owner_of};
use std::alloc::Global;

/// Where the work is after the local work that is due, if any is.
pub fn work_after(alloc: Global, call: &Call, work: &Work) -> Result<Option<Work>, NoMemory>
    requires good { IsGood call.now work.now }
    ensures ok { IfOk result (λ next. (turns : ℕ) → HasTurns work.now turns → WorkDone call.now work.now next turns) }
    ensures asks { OnErr result (is_ready work.now ≡ false) }
{
    match work {
        Work::Missed(snapshot, keys) => Ok(Some(composed(alloc, call, snapshot, keys)?)),
        Work::Looked(snapshot, halves, due) => {
            if due.next().is_some() {
                return Ok(None);
            }
            Ok(Some(told(alloc, call, snapshot, halves)?))
        }
        Work::Unknown(place) => {
            let reply = unknown_at(alloc, *place, call)?;
            Ok(Some(Work::Ended(*place, false, Some(reply))))
        }
        Work::Begun | Work::Changing(_, _) | Work::Ended(_, _, _) => Ok(None),
    }
}

// The halves that a look missed, composed.
fn composed(
    alloc: Global,
    call: &Call,
    snapshot: &Snapshot,
    keys: &HalfKeys,
) -> Result<Work, NoMemory>
    requires { IsGood call.now (Work.Missed snapshot.now keys.now) }
    ensures { IfOk result (λ next. IsWorked call.now (Work.Missed snapshot.now keys.now) next 1) }
{
    let halves = snapshot.records.halves(alloc, &snapshot.subject)?;
    let due = Due::of(alloc, keys, &halves)?;
    Ok(Work::Looked(snapshot.share()?, halves, due))
}

// What comes when each half is at hand: a change that is due, or the end.
fn told(alloc: Global, call: &Call, snapshot: &Snapshot, halves: &Halves) -> Result<Work, NoMemory>
    requires { HasHalves call.now snapshot.now halves.now }
    ensures { IfOk result (λ next. (due : Due) (turns : ℕ) → due_pairs due ≡ [] → turns ≤ 4 → IsWorked call.now (Work.Looked snapshot.now halves.now due) next turns) }
{
    if let Some(reply) = stopped(alloc, call, snapshot, halves)? {
        return Ok(Work::Ended(snapshot.place, false, Some(reply)));
    }
    if call.request.is_change() {
        return Ok(Work::Changing(snapshot.share()?, share_halves(halves)?));
    }
    let reply = read(alloc, snapshot, halves, &call.request)?;
    Ok(Work::Ended(snapshot.place, false, Some(reply)))
}

// The reply to a caller that isn't known.
fn unknown_at(alloc: Global, place: u64, call: &Call) -> Result<Reply, NoMemory>
    ensures { IfOk result (λ reply. reply ≡ unknown_at place call.now) }
{
    if call.seen <= place {
        unauthorized(alloc)
    } else {
        place_not_reached(alloc, place, call.seen)
    }
}

// What stops a call whose request isn't refused by its own text: a place that isn't reached, or a denial.
fn stopped(
    alloc: Global,
    call: &Call,
    snapshot: &Snapshot,
    halves: &Halves,
) -> Result<Option<Reply>, NoMemory>
    requires { HasHalves call.now snapshot.now halves.now }
    ensures { IfOk result (λ stop. stop ≡ stop_in snapshot.now.records snapshot.now.place call.now) }
{
    if snapshot.place < call.seen {
        let reply = place_not_reached(alloc, snapshot.place, call.seen)?;
        return Ok(Some(reply));
    }
    match allowed(alloc, &snapshot.subject, halves, call) {
        Ok(()) => Ok(None),
        Err(stop) => match stop {
            Stop::Reply(reply) => Ok(Some(reply)),
            Stop::NoMemory => Err(NoMemory),
        },
    }
}

// What a read shows.
#[tactic(auto, unfolding(crate::specs::Answer::read_in))]
fn read(
    alloc: Global,
    snapshot: &Snapshot,
    halves: &Halves,
    request: &Request,
) -> Result<Reply, NoMemory>
    requires { static_of request.now ≡ None }
    ensures { IfOk result (λ reply. reply ≡ read_in (world_of snapshot.now) snapshot.now.subject halves.now request.now) }
{
    let subject = &snapshot.subject;
    match request {
        Request::GetMapping { index } => {
            get_mapping(alloc, &snapshot.catalog, subject, halves, index.text())
        }
        Request::Get { index, id } => get_document(
            alloc,
            &snapshot.catalog,
            subject,
            halves,
            index.text(),
            id.text(),
        ),
        Request::GetRole { name } => get_role(alloc, &snapshot.records, name.text()),
        Request::GetUser { name } => get_user(alloc, &snapshot.records, name.text()),
        Request::ListKeys { owner } => {
            list_keys(alloc, &snapshot.records, owner_of(*owner, subject))
        }
        Request::Authenticate => authenticate(alloc, subject),
        Request::Refused(_) => unreachable!(),
        Request::CreateIndex { .. }
        | Request::DeleteIndex { .. }
        | Request::Put { .. }
        | Request::Delete { .. }
        | Request::PutRole { .. }
        | Request::DeleteRole { .. }
        | Request::PutUser { .. }
        | Request::DeleteUser { .. }
        | Request::CreateKey(_)
        | Request::Invalidate { .. }
        | Request::ClearCache { .. } => not_built(alloc),
    }
}

/// The reply that was made, or the one that the request has. It takes no memory.
pub fn reply_of(call: Call, reply: Option<Reply>) -> Reply
    requires { HasReply call reply }
    ensures { result ≡ reply_of call reply }
{
    let Call { request, .. } = call;
    match reply {
        Some(reply) => reply,
        None => match request {
            Request::Refused(reply) => reply,
            _ => unreachable!(),
        },
    }
}
