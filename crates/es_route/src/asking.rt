//! What a request asks, behind the refusals by its own text.
ghost use Rattle.std.specs.Prelude.{◌≡◌, codes, nat_eq, true, Ok, Err, if◌then◌else◌};
ghost use Rattle.std.specs.List.{starts_with};
ghost use Rattle.es_reply.specs.Bodies.{not_built_reply, bad_parameter};
ghost use Rattle.es_request.specs.Requests.{is_built};
ghost use Rattle.es_route.specs.Stops.{Gives, GivesBy};
ghost use Rattle.es_route.specs.Refusals.{takes_query};
ghost use Rattle.es_route.specs.Reading.{found_at, kind_at, asked_at, asked_of, unless_refused};
ghost use Rattle.es_route.specs.Paths.{path_row, path_as, found_as, decoded_at, asked_as};

use crate::fields::bad_field;
use crate::methods::{allow_of, kind_of};
use crate::naming::{bad_name, reserved_name};
use crate::parameters::parameters_of;
use crate::path::{Path, path_of};
use crate::query::{pieces_at, takes_query};
use crate::stop::Stop;
use crate::target::target_of;
use es_base::Strs;
use es_reply::{Reply, bad_parameter, method_not_allowed, no_route, not_built};
use es_request::RouteKind;
use es_wire::RawRequest;
use std::alloc::Global;

/// A path, and its parameters decoded.
#[derive(Drop)]
pub struct Found<'a> {
    path: Path<'a>,
    pieces: Strs,
}

/// What is asked of a path, and its parameters, or what its query string says.
#[derive(Drop)]
pub struct Asked {
    pub kind: RouteKind,
    pub pieces: Strs,
}

/// What a request asks, and the first refusal but those of its body.
#[tactic(auto, using(crate::proofs::Steps::stops_then), unfolding(crate::specs::Reading::asked_of))]
pub fn asked_of(alloc: Global, raw: &RawRequest) -> Result<Asked, Stop>
    ensures { GivesBy asked_as result (asked_of raw.now) }
{
    let asked = asked_at(alloc, raw.method.text(), raw.target.as_slice())?;
    go_on(bad_name(alloc, asked.kind, &asked.pieces)?)?;
    go_on(reserved_name(alloc, asked.kind, &asked.pieces)?)?;
    go_on(bad_field(alloc, &raw.seen, &raw.run_as)?)?;
    Ok(asked)
}

/// Stops at a refusal.
fn go_on(refusal: Option<Reply>) -> Result<(), Stop>
    ensures { Gives result (unless_refused refusal) }
{
    match refusal {
        Some(reply) => Err(Stop::Refused(reply)),
        None => Ok(()),
    }
}

/// What the target and the method ask.
#[tactic(auto, using(crate::proofs::Steps::stops_then), unfolding(crate::specs::Reading::asked_at))]
fn asked_at(alloc: Global, method: &str, bytes: &[u8]) -> Result<Asked, Stop>
    ensures { GivesBy asked_as result (asked_at method.now bytes.now) }
{
    let target = target_of(alloc, bytes)?;
    let found = found_at(alloc, target.path)?;
    let kind = kind_at(alloc, &found.path, method, target.path)?;
    check_built(alloc, kind)?;
    check_query(alloc, kind, target.query)?;
    Ok(Asked {
        kind,
        pieces: pieces_at(alloc, kind, target.query, found.pieces)?,
    })
}

/// The path and its parameters.
#[tactic(auto, using(crate::proofs::Steps::found_none, crate::proofs::Steps::found_some))]
fn found_at(alloc: Global, text: &str) -> Result<Found<'_>, Stop>
    requires { starts_with nat_eq text.now (codes "/") ≡ true }
    ensures { GivesBy found_as result (found_at text.now) }
{
    match path_of(text) {
        Some(path) => with_pieces(alloc, path),
        None => Err(Stop::Refused(no_route(alloc, text)?)),
    }
}

/// The path with its parameters.
#[tactic(auto, using(crate::proofs::Steps::stops_then))]
fn with_pieces<'a>(alloc: Global, path: Path<'a>) -> Result<Found<'a>, Stop>
    ensures { GivesBy found_as result (decoded_at (path_as path.entry)) }
{
    let pieces = parameters_of(alloc, &path)?;
    Ok(Found { path, pieces })
}

/// What is asked by the method.
fn kind_at(alloc: Global, path: &Path<'_>, method: &str, text: &str) -> Result<RouteKind, Stop>
    ensures { Gives result (kind_at (path_row path.now) method.now text.now) }
{
    match kind_of(path, method) {
        Some(kind) => Ok(kind),
        None => Err(Stop::Refused(method_not_allowed(alloc, allow_of(path), method, text)?)),
    }
}

/// Stops at what isn't built.
fn check_built(alloc: Global, kind: RouteKind) -> Result<(), Stop>
    ensures { Gives result (if is_built kind then Ok tt else Err not_built_reply) }
{
    if kind.is_built() {
        Ok(())
    } else {
        Err(Stop::Refused(not_built(alloc)?))
    }
}

/// Stops at a query string that the request doesn't take.
fn check_query(alloc: Global, kind: RouteKind, query: &str) -> Result<(), Stop>
    ensures { Gives result (if takes_query kind query.now then Ok tt else Err (bad_parameter query.now)) }
{
    if takes_query(kind, query) {
        Ok(())
    } else {
        Err(Stop::Refused(bad_parameter(alloc, query)?))
    }
}
