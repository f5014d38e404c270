//! From a route, its parameters and a body to a request.
ghost use Rattle.std.specs.Prelude.{◌≡◌, IfOk};
ghost use Rattle.es_request.specs.Bodies.{mapping_of_creation, document_of, descriptor_of, user_of};
ghost use Rattle.es_request.specs.Keys.{new_key_of, invalidate_of};
ghost use Rattle.es_request.specs.Requests.{request_of, first_of, second_of, created_with, put_of, role_of, user_with, key_with, invalidation_with, clearing_of, IsTimely};

use crate::bodies::{document_in, invalidation_in, mapping_in, new_key_in, role_in, user_in};
use crate::commas::cut_at_commas;
use crate::kinds::RouteKind;
use crate::request::Request;
use es_base::{NoMemory, Shared, Str, Strs};
use es_reply::not_built;
use std::alloc::Global;

/// What a request of a route asks, by the decoded parameters of its path and its body; `Refused` where the body is. A body
/// on a route without one is ignored. A key that is asked for lasts at most 1,000,000,000,000,000 milliseconds.
pub fn read_body(
    alloc: Global,
    kind: RouteKind,
    pieces: &Strs,
    body: &[u8],
) -> Result<Request, NoMemory>
    ensures request { IfOk result (λ request. request ≡ request_of kind pieces.now body.now) }
    ensures timely { IfOk result IsTimely }
{
    request_in(alloc, kind, pieces, body)
}

#[tactic(auto, unfolding(crate::specs::Requests::request_of))]
fn request_in(
    alloc: Global,
    kind: RouteKind,
    pieces: &Strs,
    body: &[u8],
) -> Result<Request, NoMemory>
    ensures { IfOk result (λ request. request ≡ request_of kind pieces.now body.now) }
{
    let first = first_of(pieces.as_slice());
    let second = second_of(pieces.as_slice());
    match kind {
        RouteKind::CreateIndex => create_index(alloc, first, body),
        RouteKind::DeleteIndex => delete_index(alloc, first),
        RouteKind::GetMapping => get_mapping(alloc, first),
        RouteKind::PutDocument => put(alloc, first, second, false, body),
        RouteKind::CreateDocument => put(alloc, first, second, true, body),
        RouteKind::GetDocument => get(alloc, first, second),
        RouteKind::DeleteDocument => delete(alloc, first, second),
        RouteKind::PutRole => put_role(alloc, first, body),
        RouteKind::GetRole => get_role(alloc, first),
        RouteKind::DeleteRole => delete_role(alloc, first),
        RouteKind::PutUser => put_user(alloc, first, body),
        RouteKind::GetUser => get_user(alloc, first),
        RouteKind::DeleteUser => delete_user(alloc, first),
        RouteKind::ClearCache => clear_cache(alloc, first),
        RouteKind::CreateKey => create_key(alloc, body),
        RouteKind::ListKeys => Ok(Request::ListKeys {
            owner: first == "true",
        }),
        RouteKind::Invalidate => invalidate(alloc, body),
        RouteKind::Authenticate => Ok(Request::Authenticate),
        RouteKind::PutMapping
        | RouteKind::Search
        | RouteKind::UpdateKey
        | RouteKind::Bulk
        | RouteKind::HasPrivileges => Ok(Request::Refused(not_built(alloc)?)),
    }
}

/// The first of a path's parameters, and an empty text where there is none.
fn first_of(pieces: &[Str]) -> &str
    ensures { result.now ≡ first_of pieces.now }
{
    match pieces {
        [] => "",
        [piece, ..] => piece.text(),
    }
}

/// The second one.
fn second_of(pieces: &[Str]) -> &str
    ensures { result.now ≡ second_of pieces.now }
{
    match pieces {
        [] => "",
        [_, rest @ ..] => first_of(rest),
    }
}

fn create_index(alloc: Global, name: &str, body: &[u8]) -> Result<Request, NoMemory>
    ensures { IfOk result (λ request. request ≡ created_with name.now (mapping_of_creation body.now)) }
{
    match mapping_in(alloc, body)? {
        Ok(mapping) => Ok(Request::CreateIndex {
            index: Str::of(alloc, name)?,
            mapping: Shared::new(alloc, mapping)?,
        }),
        Err(reply) => Ok(Request::Refused(reply)),
    }
}

fn delete_index(alloc: Global, name: &str) -> Result<Request, NoMemory>
    ensures { IfOk result (λ request. request ≡ Request.DeleteIndex name.now) }
{
    Ok(Request::DeleteIndex {
        index: Str::of(alloc, name)?,
    })
}

fn get_mapping(alloc: Global, name: &str) -> Result<Request, NoMemory>
    ensures { IfOk result (λ request. request ≡ Request.GetMapping name.now) }
{
    Ok(Request::GetMapping {
        index: Str::of(alloc, name)?,
    })
}

fn put(
    alloc: Global,
    name: &str,
    id: &str,
    only_new: bool,
    body: &[u8],
) -> Result<Request, NoMemory>
    ensures { IfOk result (λ request. request ≡ put_of name.now id.now only_new (document_of body.now)) }
{
    match document_in(alloc, body)? {
        Ok(document) => Ok(Request::Put {
            index: Str::of(alloc, name)?,
            id: Str::of(alloc, id)?,
            document: Shared::new(alloc, document)?,
            only_new,
        }),
        Err(reply) => Ok(Request::Refused(reply)),
    }
}

fn get(alloc: Global, name: &str, id: &str) -> Result<Request, NoMemory>
    ensures { IfOk result (λ request. request ≡ Request.Get name.now id.now) }
{
    Ok(Request::Get {
        index: Str::of(alloc, name)?,
        id: Str::of(alloc, id)?,
    })
}

fn delete(alloc: Global, name: &str, id: &str) -> Result<Request, NoMemory>
    ensures { IfOk result (λ request. request ≡ Request.Delete name.now id.now) }
{
    Ok(Request::Delete {
        index: Str::of(alloc, name)?,
        id: Str::of(alloc, id)?,
    })
}

fn put_role(alloc: Global, name: &str, body: &[u8]) -> Result<Request, NoMemory>
    ensures { IfOk result (λ request. request ≡ role_of name.now (descriptor_of body.now)) }
{
    match role_in(alloc, body)? {
        Ok(role) => Ok(Request::PutRole {
            name: Str::of(alloc, name)?,
            role,
        }),
        Err(reply) => Ok(Request::Refused(reply)),
    }
}

fn get_role(alloc: Global, name: &str) -> Result<Request, NoMemory>
    ensures { IfOk result (λ request. request ≡ Request.GetRole name.now) }
{
    Ok(Request::GetRole {
        name: Str::of(alloc, name)?,
    })
}

fn delete_role(alloc: Global, name: &str) -> Result<Request, NoMemory>
    ensures { IfOk result (λ request. request ≡ Request.DeleteRole name.now) }
{
    Ok(Request::DeleteRole {
        name: Str::of(alloc, name)?,
    })
}

fn put_user(alloc: Global, name: &str, body: &[u8]) -> Result<Request, NoMemory>
    ensures { IfOk result (λ request. request ≡ user_with (user_of name.now body.now)) }
{
    match user_in(alloc, name, body)? {
        Ok(user) => Ok(Request::PutUser {
            user: Shared::new(alloc, user)?,
        }),
        Err(reply) => Ok(Request::Refused(reply)),
    }
}

fn get_user(alloc: Global, name: &str) -> Result<Request, NoMemory>
    ensures { IfOk result (λ request. request ≡ Request.GetUser name.now) }
{
    Ok(Request::GetUser {
        name: Str::of(alloc, name)?,
    })
}

fn delete_user(alloc: Global, name: &str) -> Result<Request, NoMemory>
    ensures { IfOk result (λ request. request ≡ Request.DeleteUser name.now) }
{
    Ok(Request::DeleteUser {
        name: Str::of(alloc, name)?,
    })
}

fn create_key(alloc: Global, body: &[u8]) -> Result<Request, NoMemory>
    ensures { IfOk result (λ request. request ≡ key_with (new_key_of body.now)) }
{
    match new_key_in(alloc, body)? {
        Ok(asked) => Ok(Request::CreateKey(Shared::new(alloc, asked)?)),
        Err(reply) => Ok(Request::Refused(reply)),
    }
}

fn invalidate(alloc: Global, body: &[u8]) -> Result<Request, NoMemory>
    ensures { IfOk result (λ request. request ≡ invalidation_with (invalidate_of body.now)) }
{
    match invalidation_in(alloc, body)? {
        Ok(asked) => Ok(Request::Invalidate {
            ids: asked.ids,
            owner: asked.owner,
        }),
        Err(reply) => Ok(Request::Refused(reply)),
    }
}

/// The clearing of all composed roles for a star alone, else of those of the names between the commas.
fn clear_cache(alloc: Global, text: &str) -> Result<Request, NoMemory>
    ensures { IfOk result (λ request. request ≡ clearing_of text.now) }
{
    if text == "*" {
        return Ok(Request::ClearCache {
            names: Strs::empty(alloc),
            every: true,
        });
    }
    Ok(Request::ClearCache {
        names: cut_at_commas(alloc, text)?,
        every: false,
    })
}
