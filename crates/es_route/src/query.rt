//! Query strings (RFC 3986, section 3.4).
ghost use Rattle.std.specs.Prelude.{◌≡◌, [], ◌∷◌, IfOk};
ghost use Rattle.es_route.specs.Refusals.{takes_query, may_refresh, is_refresh, may_own, is_owner, owner_text, pieces_at};

use es_base::{NoMemory, Str, Strs};
use es_request::RouteKind;
use std::alloc::Global;

/// Whether a request may have the query string.
pub fn takes_query(kind: RouteKind, query: &str) -> bool
    ensures { result ≡ takes_query kind query.now }
{
    query.is_empty()
        || (may_refresh(kind) && is_refresh(query))
        || (may_own(kind) && is_owner(query))
}

/// What a request has beside its body: for the list of keys whether only the caller's own are meant, `true` or `false`; else
/// the parameters of its path.
pub fn pieces_at(
    alloc: Global,
    kind: RouteKind,
    query: &str,
    parameters: Strs,
) -> Result<Strs, NoMemory>
    ensures { IfOk result (λ pieces. pieces ≡ pieces_at kind query.now parameters) }
{
    if !may_own(kind) {
        return Ok(parameters);
    }
    owner_piece(alloc, owner_text(query))
}

fn owner_piece(alloc: Global, text: &str) -> Result<Strs, NoMemory>
    ensures { IfOk result (λ pieces. pieces ≡ text.now ∷ []) }
{
    let mut pieces = Strs::empty(alloc);
    pieces.push(Str::of(alloc, text)?)?;
    Ok(pieces)
}

/// Whether only the caller's own are meant, as a text.
fn owner_text(query: &str) -> &'static str
    ensures { result.now ≡ owner_text query.now }
{
    if query == "owner=true" {
        "true"
    } else {
        "false"
    }
}

/// Whether a request may say whose keys are meant: the list of keys may.
fn may_own(kind: RouteKind) -> bool
    ensures { result ≡ may_own kind }
{
    matches!(kind, RouteKind::ListKeys)
}

/// Whether the query string says whose keys are meant (Elasticsearch manual, the list of keys).
fn is_owner(query: &str) -> bool
    ensures { result ≡ is_owner query.now }
{
    query == "owner=true" || query == "owner=false"
}

/// Whether a request may say when its change shows: a put or a delete of a document may.
fn may_refresh(kind: RouteKind) -> bool
    ensures { result ≡ may_refresh kind }
{
    matches!(
        kind,
        RouteKind::PutDocument | RouteKind::CreateDocument | RouteKind::DeleteDocument
    )
}

/// Whether the query string says when a change shows, which is fixed, so that the words have no effect (Elasticsearch manual,
/// `?refresh`).
fn is_refresh(query: &str) -> bool
    ensures { result ≡ is_refresh query.now }
{
    query == "refresh"
        || query == "refresh=true"
        || query == "refresh=false"
        || query == "refresh=wait_for"
}
