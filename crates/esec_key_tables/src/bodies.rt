//! Bodies of requests on keys.
use crate::printing::{add_member, add_text, descriptors_text, quoted};
use es_base::{Seq, Shared, Str, Strs};
use es_keys::NewKey;
use es_request::{Request, RouteKind, read_body};
use es_response::Reply;
use es_tree::print;
use esec_cells::{Cells, Fault, truth};
use std::alloc::Global;

/// BODY: what the body asks of a key, as an object, or the status and the body of its refusal.
pub fn new_key(alloc: Global, cells: &Cells) -> Result<Str, Fault> {
    let request = request_of(alloc, RouteKind::CreateKey, cells.bytes(0)?)?;
    match request {
        Request::CreateKey(asked) => asked_text(alloc, asked.get()),
        Request::Refused(reply) => refusal_text(alloc, &reply),
        _ => Err(Fault::Line),
    }
}

/// BODY: the ids and whether the caller's own keys alone are meant, as an object, or the status and the body of its refusal.
pub fn invalidation(alloc: Global, cells: &Cells) -> Result<Str, Fault> {
    let request = request_of(alloc, RouteKind::Invalidate, cells.bytes(0)?)?;
    match request {
        Request::Invalidate { ids, owner } => invalidation_text(alloc, &ids, owner),
        Request::Refused(reply) => refusal_text(alloc, &reply),
        _ => Err(Fault::Line),
    }
}

/// The key that a body asks for.
pub fn asked_of(alloc: Global, body: &[u8]) -> Result<Shared<NewKey>, Fault> {
    let request = request_of(alloc, RouteKind::CreateKey, body)?;
    match request {
        Request::CreateKey(asked) => Ok(asked),
        _ => Err(Fault::Line),
    }
}

fn request_of(alloc: Global, kind: RouteKind, body: &[u8]) -> Result<Request, Fault> {
    Ok(read_body(alloc, kind, &Seq::empty(alloc), body)?)
}

fn refusal_text(alloc: Global, reply: &Reply) -> Result<Str, Fault> {
    let status = reply.status();
    let mut text = Str::of(alloc, format!(in alloc; "{status} ")?.as_str())?;
    text.push_str(reply.body())?;
    Ok(text)
}

fn asked_text(alloc: Global, asked: &NewKey) -> Result<Str, Fault> {
    let mut text = Str::empty(alloc);
    match asked.expiration {
        Some(duration) => {
            let digits = format!(in alloc; "{duration}")?;
            add_member(&mut text, "expiration", digits.as_str())?;
        }
        None => add_member(&mut text, "expiration", "null")?,
    }
    add_member(&mut text, "metadata", print(alloc, &asked.metadata)?.text())?;
    add_text(&mut text, alloc, "name", asked.name.text())?;
    let assigned = descriptors_text(alloc, &asked.assigned)?;
    add_member(&mut text, "role_descriptors", assigned.text())?;
    text.push('}')?;
    Ok(text)
}

fn invalidation_text(alloc: Global, ids: &Option<Strs>, owner: bool) -> Result<Str, Fault> {
    let mut text = Str::empty(alloc);
    match ids {
        Some(ids) => add_member(&mut text, "ids", list_text(alloc, ids)?.text())?,
        None => add_member(&mut text, "ids", "null")?,
    }
    add_member(&mut text, "owner", truth(alloc, owner)?.text())?;
    text.push('}')?;
    Ok(text)
}

fn list_text(alloc: Global, items: &Strs) -> Result<Str, Fault> {
    let mut text = Str::of(alloc, "[")?;
    let mut separator = "";
    for item in items.as_slice() {
        text.push_str(separator)?;
        text.push_str(quoted(alloc, item.text())?.text())?;
        separator = ",";
    }
    text.push(']')?;
    Ok(text)
}
