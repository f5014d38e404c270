//! Refusals of requests, names and bodies.
ghost use Rattle.std.specs.Prelude.{◌≡◌, IfOk};
ghost use Rattle.es_reply.specs.Bodies.{not_built_reply, unauthorized, derived_key, bad_json, bad_body, reserved};

use es_base::NoMemory;
use es_response::{Reply, error};
use std::alloc::Global;

/// The reply to a request that isn't built.
pub fn not_built(alloc: Global) -> Result<Reply, NoMemory>
    ensures { IfOk result (λ reply. reply ≡ not_built_reply) }
{
    error(alloc, 501, "not_built", "not built")
}

/// The reply to no credentials, or to such as aren't valid.
pub fn unauthorized(alloc: Global) -> Result<Reply, NoMemory>
    ensures { IfOk result (λ reply. reply ≡ unauthorized) }
{
    error(
        alloc,
        401,
        "security_exception",
        "missing or invalid credentials",
    )
}

/// The reply to a key that asks for a key with privileges of its own: 400 `derived_key`.
pub fn derived_key(alloc: Global) -> Result<Reply, NoMemory>
    ensures { IfOk result (λ reply. reply ≡ derived_key) }
{
    error(
        alloc,
        400,
        "derived_key",
        "a key made by a key may hold no privilege",
    )
}

/// The reply to a body that is no JSON of the kind that is read, with the reason.
pub fn bad_json(alloc: Global, reason: &str) -> Result<Reply, NoMemory>
    ensures { IfOk result (λ reply. reply ≡ bad_json reason.now) }
{
    error(alloc, 400, "bad_json", reason)
}

/// The reply to a body that doesn't fit its grammar, with the place of the first fault.
pub fn bad_body(alloc: Global, place: &str) -> Result<Reply, NoMemory>
    ensures { IfOk result (λ reply. reply ≡ bad_body place.now) }
{
    let reason = format!(in alloc; "bad value at [{place}]")?;
    error(alloc, 400, "bad_body", reason.as_str())
}

/// The reply to a name that the node keeps for itself.
pub fn reserved(alloc: Global, name: &str) -> Result<Reply, NoMemory>
    ensures { IfOk result (λ reply. reply ≡ reserved name.now) }
{
    let reason = format!(in alloc; "[{name}] is reserved")?;
    error(alloc, 400, "reserved", reason.as_str())
}
