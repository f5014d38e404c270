//! Replies on documents.
ghost use Rattle.std.specs.Prelude.{◌≡◌, ◌++◌, ◌<◌, ◌^◌, codes, decimal, IfOk};
ghost use Rattle.es_reply.specs.Bodies.{about, put_created, put_updated, put_reply, version_of, absent, found, document_deleted, document_not_found, document_refused, document_exists};

use crate::texts::quoted;
use es_base::{NoMemory, Str};
use es_response::{Reply, error};
use es_tree::{Tree, print};
use itoa::Buffer;
use std::alloc::Global;

/// The id and the index's name, at the front of a reply on a document.
#[tactic(auto, unfolding(crate::specs::Bodies::about))]
fn about(alloc: Global, index: &str, id: &str) -> Result<Str, NoMemory>
    ensures { IfOk result (λ body. body ≡ about index.now id.now) }
{
    let mut body = Str::of(alloc, "{\"_id\":")?;
    body.push_str(quoted(alloc, id)?.text())?;
    body.push_str(",\"_index\":")?;
    body.push_str(quoted(alloc, index)?.text())?;
    Ok(body)
}

/// The id, the index's name and the version, at the front of a reply on a document.
fn about_version(alloc: Global, index: &str, id: &str, version: u64) -> Result<Str, NoMemory>
    ensures { IfOk result (λ body. body ≡ about index.now id.now ++ codes ",\"_version\":" ++ decimal version) }
{
    let mut body = about(alloc, index, id)?;
    body.push_str(",\"_version\":")?;
    let mut buffer = Buffer::new();
    body.push_str(buffer.format(version))?;
    Ok(body)
}

/// The reply to a put over a document of this version, or over none.
pub fn put_reply(
    alloc: Global,
    index: &str,
    id: &str,
    version: Option<u64>,
) -> Result<Reply, NoMemory>
    requires { version_of version < 2 ^ 63 }
    ensures { IfOk result (λ reply. reply ≡ put_reply index.now id.now version) }
{
    match version {
        None => created(alloc, index, id),
        Some(version) => updated(alloc, index, id, version + 1),
    }
}

/// The reply to the first put.
pub fn created(alloc: Global, index: &str, id: &str) -> Result<Reply, NoMemory>
    ensures { IfOk result (λ reply. reply ≡ put_created index.now id.now) }
{
    let mut body = about(alloc, index, id)?;
    body.push_str(",\"_version\":1,\"result\":\"created\"}")?;
    Ok(Reply::new(201, "", body))
}

/// The reply to a further put, which gave the document this version.
pub fn updated(alloc: Global, index: &str, id: &str, version: u64) -> Result<Reply, NoMemory>
    ensures { IfOk result (λ reply. reply ≡ put_updated index.now id.now version) }
{
    let mut body = about_version(alloc, index, id, version)?;
    body.push_str(",\"result\":\"updated\"}")?;
    Ok(Reply::new(200, "", body))
}

/// The reply to a get of a document that isn't there.
pub fn absent(alloc: Global, index: &str, id: &str) -> Result<Reply, NoMemory>
    ensures { IfOk result (λ reply. reply ≡ absent index.now id.now) }
{
    let mut body = about(alloc, index, id)?;
    body.push_str(",\"found\":false}")?;
    Ok(Reply::new(404, "", body))
}

/// The reply to a get of a document, with its version and its source.
pub fn found(
    alloc: Global,
    index: &str,
    id: &str,
    version: u64,
    source: &Tree,
) -> Result<Reply, NoMemory>
    ensures { IfOk result (λ reply. reply ≡ found index.now id.now version source.now) }
{
    let mut body = about(alloc, index, id)?;
    body.push_str(",\"_source\":")?;
    body.push_str(print(alloc, source)?.text())?;
    body.push_str(",\"_version\":")?;
    let mut buffer = Buffer::new();
    body.push_str(buffer.format(version))?;
    body.push_str(",\"found\":true}")?;
    Ok(Reply::new(200, "", body))
}

/// The reply to the delete of a document, which gave it this version: 200.
pub fn deleted(alloc: Global, index: &str, id: &str, version: u64) -> Result<Reply, NoMemory>
    ensures { IfOk result (λ reply. reply ≡ document_deleted index.now id.now version) }
{
    let mut body = about_version(alloc, index, id, version)?;
    body.push_str(",\"result\":\"deleted\"}")?;
    Ok(Reply::new(200, "", body))
}

/// The reply to the delete of a document that isn't there: 404, without an error.
pub fn not_found(alloc: Global, index: &str, id: &str) -> Result<Reply, NoMemory>
    ensures { IfOk result (λ reply. reply ≡ document_not_found index.now id.now) }
{
    let mut body = about(alloc, index, id)?;
    body.push_str(",\"result\":\"not_found\"}")?;
    Ok(Reply::new(404, "", body))
}

/// The reply to a document with a value, at this path, that its field's type doesn't take: 400
/// `document_parsing_exception`.
pub fn document_refused(alloc: Global, path: &str, type_name: &str) -> Result<Reply, NoMemory>
    ensures { IfOk result (λ reply. reply ≡ document_refused path.now type_name.now) }
{
    let reason = format!(in alloc; "failed to parse field [{path}] of type [{type_name}]")?;
    error(alloc, 400, "document_parsing_exception", reason.as_str())
}

/// The reply to a create where a document of the id stands: 409 `version_conflict_engine_exception`.
pub fn document_exists(alloc: Global, id: &str) -> Result<Reply, NoMemory>
    ensures { IfOk result (λ reply. reply ≡ document_exists id.now) }
{
    let reason = format!(in alloc; "[{id}]: version conflict, document already exists")?;
    error(
        alloc,
        409,
        "version_conflict_engine_exception",
        reason.as_str(),
    )
}
