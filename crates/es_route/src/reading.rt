//! Requests and calls from requests of the wire.
ghost use Rattle.std.specs.Prelude.{◌≡◌, IfOk};
ghost use Rattle.es_request.specs.Requests.{IsTimely};
ghost use Rattle.es_route.specs.Reading.{read_request, call_of};

use crate::asking::asked_of;
use crate::fields::{credentials_in, run_as_in, seen_in};
use crate::stop::Stop;
use es_base::NoMemory;
use es_edge::Draw;
use es_request::{Call, Request, read_body};
use es_wire::RawRequest;
use std::alloc::Global;

/// What a request of the wire asks, or the first refusal. A key that is asked for lasts at most 1,000,000,000,000,000
/// milliseconds.
#[tactic(auto, unfolding(crate::specs::Reading::read_request))]
pub fn read_request(alloc: Global, raw: &RawRequest) -> Result<Request, NoMemory>
    ensures request { IfOk result (λ request. request ≡ read_request raw.now) }
    ensures timely { IfOk result IsTimely }
{
    match asked_of(alloc, raw) {
        Ok(asked) => read_body(alloc, asked.kind, &asked.pieces, raw.body.as_slice()),
        Err(stop) => match stop {
            Stop::Refused(reply) => Ok(Request::Refused(reply)),
            Stop::NoMemory => Err(NoMemory),
        },
    }
}

/// The call that a request of the wire is, at its moment and with what was drawn for it. A key that is asked for lasts at most
/// 1,000,000,000,000,000 milliseconds.
#[tactic(auto, unfolding(crate::specs::Reading::call_of))]
pub fn read_call(alloc: Global, raw: &RawRequest, moment: u64, draw: Draw) -> Result<Call, NoMemory>
    ensures call { IfOk result (λ call. call ≡ call_of raw.now moment draw) }
    ensures timely { IfOk result (λ call. IsTimely call.request) }
{
    Ok(Call {
        request: read_request(alloc, raw)?,
        credentials: credentials_in(alloc, &raw.authorization)?,
        run_as: run_as_in(alloc, &raw.run_as)?,
        seen: seen_in(&raw.seen).unwrap_or(0),
        moment,
        draw,
        weight: raw.body.as_slice().len() as u64 + 512,
    })
}
