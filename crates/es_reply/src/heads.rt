//! Refusals of the request line and of header fields.
ghost use Rattle.std.specs.Prelude.{◌≡◌, IfOk};
ghost use Rattle.es_reply.specs.Bodies.{bad_path_reply, no_route, method_not_allowed, bad_parameter, bad_header, place_not_reached};

use es_base::{NoMemory, Str};
use es_response::{Reply, error};
use std::alloc::Global;

/// The reply to a target that is no path: 400 `bad_path`.
pub fn bad_path(alloc: Global) -> Result<Reply, NoMemory>
    ensures { IfOk result (λ reply. reply ≡ bad_path_reply) }
{
    error(alloc, 400, "bad_path", "the path is not readable")
}

/// The reply to a path that no route has: 404 `no_route`. The path is as it was sent.
pub fn no_route(alloc: Global, path: &str) -> Result<Reply, NoMemory>
    ensures { IfOk result (λ reply. reply ≡ no_route path.now) }
{
    let reason = format!(in alloc; "no route for [{path}]")?;
    error(alloc, 404, "no_route", reason.as_str())
}

/// The reply to a method that no route of the path has: 405 `method_not_allowed`. `allow` is the list of those methods
/// that its routes have, as the field `allow` gives it (RFC 9110, section 10.2.1).
pub fn method_not_allowed(
    alloc: Global,
    allow: &'static str,
    method: &str,
    path: &str,
) -> Result<Reply, NoMemory>
    ensures { IfOk result (λ reply. reply ≡ method_not_allowed allow.now method.now path.now) }
{
    let reason = format!(in alloc; "method [{method}] is not allowed for [{path}]")?;
    let refusal = error(alloc, 405, "method_not_allowed", reason.as_str())?;
    Ok(Reply::new(405, allow, Str::of(alloc, refusal.body())?))
}

/// The reply to a query string that the route doesn't take: 400 `bad_parameter`.
pub fn bad_parameter(alloc: Global, text: &str) -> Result<Reply, NoMemory>
    ensures { IfOk result (λ reply. reply ≡ bad_parameter text.now) }
{
    let reason = format!(in alloc; "bad query string [{text}]")?;
    error(alloc, 400, "bad_parameter", reason.as_str())
}

/// The reply to a header field, by its name, that is given twice or whose value isn't of its form: 400 `bad_header`.
pub fn bad_header(alloc: Global, field: &str) -> Result<Reply, NoMemory>
    ensures { IfOk result (λ reply. reply ≡ bad_header field.now) }
{
    let reason = format!(in alloc; "bad header [{field}]")?;
    error(alloc, 400, "bad_header", reason.as_str())
}

/// The reply where the node's place is behind the one that the request has seen: 409 `place_not_reached`.
pub fn place_not_reached(alloc: Global, place: u64, seen: u64) -> Result<Reply, NoMemory>
    ensures { IfOk result (λ reply. reply ≡ place_not_reached place seen) }
{
    let reason = format!(in alloc; "place [{place}] has not reached [{seen}]")?;
    error(alloc, 409, "place_not_reached", reason.as_str())
}
