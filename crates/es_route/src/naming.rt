//! Names that are no names, and those that are taken.
ghost use Rattle.std.specs.Prelude.{◌≡◌, IfOk, None, codes, bytes_eq, if◌then◌else◌};
ghost use Rattle.es_cred.specs.Names.{is_name};
ghost use Rattle.es_reply.specs.Bodies.{bad_index_name, bad_document_id, bad_role_name, bad_user_name};
ghost use Rattle.es_request.specs.Names.{is_index_name, is_document_id};
ghost use Rattle.es_request.specs.Requests.{first_of, second_of, cut_at_commas};
ghost use Rattle.es_route.specs.Refusals.{naming_of, bad_name, a_document, bad_role_in, unless, if_reserved, reserved_in};

use es_base::{NoMemory, Str, Strs};
use es_cred::{ROLE, USER, is_name};
use es_reply::{Reply, bad_document_id, bad_index_name, bad_role_name, bad_user_name, reserved};
use es_request::{RouteKind, cut_at_commas, is_document_id, is_index_name};
use std::alloc::Global;

/// The refusal of the first parameter that isn't a name of its sort: of an index, of a document, of a role, of roles or of a
/// user.
pub fn bad_name(alloc: Global, kind: RouteKind, pieces: &Strs) -> Result<Option<Reply>, NoMemory>
    ensures { IfOk result (λ refusal. refusal ≡ bad_name (naming_of kind) pieces.now) }
{
    match kind {
        RouteKind::CreateIndex
        | RouteKind::DeleteIndex
        | RouteKind::GetMapping
        | RouteKind::PutMapping => index_refusal(alloc, first_of(pieces)),
        RouteKind::PutDocument
        | RouteKind::CreateDocument
        | RouteKind::GetDocument
        | RouteKind::DeleteDocument => document_refusal(alloc, pieces),
        RouteKind::PutRole | RouteKind::GetRole | RouteKind::DeleteRole => {
            role_refusal(alloc, first_of(pieces))
        }
        RouteKind::PutUser | RouteKind::GetUser | RouteKind::DeleteUser => {
            user_refusal(alloc, first_of(pieces))
        }
        RouteKind::ClearCache => roles_refusal(alloc, first_of(pieces)),
        RouteKind::Search
        | RouteKind::CreateKey
        | RouteKind::ListKeys
        | RouteKind::Invalidate
        | RouteKind::UpdateKey
        | RouteKind::Authenticate
        | RouteKind::Bulk
        | RouteKind::HasPrivileges => Ok(None),
    }
}

/// The first parameter, and an empty text where there is none.
fn first_of(pieces: &Strs) -> &str
    ensures { result.now ≡ first_of pieces.now }
{
    match pieces.as_slice() {
        [first, ..] => first.text(),
        [] => "",
    }
}

/// The second parameter, and an empty text where there is none.
fn second_of(pieces: &Strs) -> &str
    ensures { result.now ≡ second_of pieces.now }
{
    match pieces.as_slice() {
        [_, second, ..] => second.text(),
        _ => "",
    }
}

fn index_refusal(alloc: Global, name: &str) -> Result<Option<Reply>, NoMemory>
    ensures { IfOk result (λ refusal. refusal ≡ unless (is_index_name name.now) (bad_index_name name.now)) }
{
    if is_index_name(name) {
        return Ok(None);
    }
    Ok(Some(bad_index_name(alloc, name)?))
}

fn id_refusal(alloc: Global, id: &str) -> Result<Option<Reply>, NoMemory>
    ensures { IfOk result (λ refusal. refusal ≡ unless (is_document_id id.now) (bad_document_id id.now)) }
{
    if is_document_id(id) {
        return Ok(None);
    }
    Ok(Some(bad_document_id(alloc, id)?))
}

fn document_refusal(alloc: Global, pieces: &Strs) -> Result<Option<Reply>, NoMemory>
    ensures { IfOk result (λ refusal. refusal ≡ bad_name a_document pieces.now) }
{
    match index_refusal(alloc, first_of(pieces))? {
        Some(refusal) => Ok(Some(refusal)),
        None => id_refusal(alloc, second_of(pieces)),
    }
}

fn role_refusal(alloc: Global, name: &str) -> Result<Option<Reply>, NoMemory>
    ensures { IfOk result (λ refusal. refusal ≡ unless (is_name name.now) (bad_role_name name.now)) }
{
    if is_name(name) {
        return Ok(None);
    }
    Ok(Some(bad_role_name(alloc, name)?))
}

/// The refusal of roles that are neither a star alone nor names with commas between them: that of the first part that isn't
/// a name.
fn roles_refusal(alloc: Global, text: &str) -> Result<Option<Reply>, NoMemory>
    ensures { IfOk result (λ refusal. refusal ≡ (if bytes_eq text.now (codes "*") then None else bad_role_in (cut_at_commas text.now))) }
{
    if text == "*" {
        return Ok(None);
    }
    let names = cut_at_commas(alloc, text)?;
    bad_role_in(alloc, names.as_slice())
}

/// The refusal of the first of these that isn't a name.
fn bad_role_in(alloc: Global, names: &[Str]) -> Result<Option<Reply>, NoMemory>
    ensures { IfOk result (λ refusal. refusal ≡ bad_role_in names.now) }
{
    for name in names {
        if let Some(refusal) = role_refusal(alloc, name.text())? {
            return Ok(Some(refusal));
        }
    }
    Ok(None)
}

fn user_refusal(alloc: Global, name: &str) -> Result<Option<Reply>, NoMemory>
    ensures { IfOk result (λ refusal. refusal ≡ unless (is_name name.now) (bad_user_name name.now)) }
{
    if is_name(name) {
        return Ok(None);
    }
    Ok(Some(bad_user_name(alloc, name)?))
}

/// The refusal of a put or a delete of the role or the user of a new node.
pub fn reserved_name(
    alloc: Global,
    kind: RouteKind,
    pieces: &Strs,
) -> Result<Option<Reply>, NoMemory>
    ensures { IfOk result (λ refusal. refusal ≡ reserved_in kind pieces.now) }
{
    match kind {
        RouteKind::PutRole | RouteKind::DeleteRole => if_reserved(alloc, first_of(pieces), ROLE),
        RouteKind::PutUser | RouteKind::DeleteUser => if_reserved(alloc, first_of(pieces), USER),
        _ => Ok(None),
    }
}

fn if_reserved(alloc: Global, name: &str, taken: &str) -> Result<Option<Reply>, NoMemory>
    ensures { IfOk result (λ refusal. refusal ≡ if_reserved name.now taken.now) }
{
    if name != taken {
        return Ok(None);
    }
    Ok(Some(reserved(alloc, name)?))
}
