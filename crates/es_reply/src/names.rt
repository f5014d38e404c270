//! Refusals of texts that are no names.
ghost use Rattle.std.specs.Prelude.{◌≡◌, IfOk};
ghost use Rattle.es_reply.specs.Bodies.{bad_name, bad_index_name, bad_document_id, bad_user_name, bad_role_name};

use es_base::NoMemory;
use es_response::{Reply, error};
use std::alloc::Global;

/// The reply to a text that is no index name: 400 `bad_name`.
pub fn bad_index_name(alloc: Global, name: &str) -> Result<Reply, NoMemory>
    ensures { IfOk result (λ reply. reply ≡ bad_index_name name.now) }
{
    bad_name(alloc, "index name", name)
}

/// The reply to a text that is no document id: 400 `bad_name`.
pub fn bad_document_id(alloc: Global, id: &str) -> Result<Reply, NoMemory>
    ensures { IfOk result (λ reply. reply ≡ bad_document_id id.now) }
{
    bad_name(alloc, "document id", id)
}

/// The reply to a text that is no user name: 400 `bad_name`.
pub fn bad_user_name(alloc: Global, name: &str) -> Result<Reply, NoMemory>
    ensures { IfOk result (λ reply. reply ≡ bad_user_name name.now) }
{
    bad_name(alloc, "user name", name)
}

/// The reply to a text that is no role name: 400 `bad_name`.
pub fn bad_role_name(alloc: Global, name: &str) -> Result<Reply, NoMemory>
    ensures { IfOk result (λ reply. reply ≡ bad_role_name name.now) }
{
    bad_name(alloc, "role name", name)
}

/// The reply to a text that is no name of this kind.
fn bad_name(alloc: Global, kind: &str, name: &str) -> Result<Reply, NoMemory>
    ensures { IfOk result (λ reply. reply ≡ bad_name kind.now name.now) }
{
    let reason = format!(in alloc; "bad {kind} [{name}]")?;
    error(alloc, 400, "bad_name", reason.as_str())
}
