//! Replies on indices.
ghost use Rattle.std.specs.Prelude.{◌≡◌, IfOk};
ghost use Rattle.es_reply.specs.Bodies.{index_exists, no_such_index, index_created, acknowledged_reply, mapping_shown};

use crate::texts::quoted;
use es_base::{NoMemory, Str};
use es_response::{Reply, error};
use es_tree::{Tree, print};
use std::alloc::Global;

/// The reply where an index of the name stands.
pub fn index_exists(alloc: Global, name: &str) -> Result<Reply, NoMemory>
    ensures { IfOk result (λ reply. reply ≡ index_exists name.now) }
{
    let reason = format!(in alloc; "index [{name}] already exists")?;
    error(
        alloc,
        400,
        "resource_already_exists_exception",
        reason.as_str(),
    )
}

/// The reply where no index of the name stands.
pub fn no_such_index(alloc: Global, name: &str) -> Result<Reply, NoMemory>
    ensures { IfOk result (λ reply. reply ≡ no_such_index name.now) }
{
    let reason = format!(in alloc; "no such index [{name}]")?;
    error(alloc, 404, "index_not_found_exception", reason.as_str())
}

/// The reply to the creation of an index.
pub fn index_created(alloc: Global, name: &str) -> Result<Reply, NoMemory>
    ensures { IfOk result (λ reply. reply ≡ index_created name.now) }
{
    let mut body = Str::of(alloc, "{\"acknowledged\":true,\"index\":")?;
    body.push_str(quoted(alloc, name)?.text())?;
    body.push_str("}")?;
    Ok(Reply::new(200, "", body))
}

/// The reply to a change that tells no more of itself: 200.
pub fn acknowledged(alloc: Global) -> Result<Reply, NoMemory>
    ensures { IfOk result (λ reply. reply ≡ acknowledged_reply) }
{
    let body = Str::of(alloc, "{\"acknowledged\":true}")?;
    Ok(Reply::new(200, "", body))
}

/// The reply to a get of the mapping of an index: 200.
#[tactic(auto, using(crate::proofs::Mappings::mapping_text))]
pub fn mapping_shown(alloc: Global, index: &str, mapping: &Tree) -> Result<Reply, NoMemory>
    ensures { IfOk result (λ reply. reply ≡ mapping_shown index.now mapping.now) }
{
    let mut body = Str::of(alloc, "{")?;
    body.push_str(quoted(alloc, index)?.text())?;
    body.push_str(":{\"mappings\":")?;
    body.push_str(print(alloc, mapping)?.text())?;
    body.push_str("}}")?;
    Ok(Reply::new(200, "", body))
}
