//! Refusals of what the node has no room or no random bytes for.
ghost use Rattle.std.specs.Prelude.{◌≡◌, IfOk};
ghost use Rattle.es_reply.specs.Bodies.{no_entropy, journal_full_entries, journal_full_bytes, bytes_reason};

use es_base::{NoMemory, Str};
use es_response::{Reply, error};
use std::alloc::Global;

/// The reply where no random bytes were to be had: 503 `no_entropy`.
pub fn no_entropy(alloc: Global) -> Result<Reply, NoMemory>
    ensures { IfOk result (λ reply. reply ≡ no_entropy) }
{
    error(alloc, 503, "no_entropy", "no random bytes")
}

/// The reply where the journal holds as many entries as it may: 503 `journal_full`.
pub fn journal_full_entries(alloc: Global, held: u64, limit: u64) -> Result<Reply, NoMemory>
    ensures { IfOk result (λ reply. reply ≡ journal_full_entries held limit) }
{
    let reason = format!(in alloc; "journal holds [{held}] of [{limit}] entries")?;
    error(alloc, 503, "journal_full", reason.as_str())
}

/// The reply where the journal has no room for the bytes that a change asks for: 503 `journal_full`.
pub fn journal_full_bytes(
    alloc: Global,
    held: u64,
    limit: u64,
    asks: u64,
) -> Result<Reply, NoMemory>
    ensures { IfOk result (λ reply. reply ≡ journal_full_bytes held limit asks) }
{
    let reason = bytes_reason(alloc, held, limit, asks)?;
    error(alloc, 503, "journal_full", reason.text())
}

#[tactic(auto, unfolding(crate::specs::Bodies::bytes_reason))]
fn bytes_reason(alloc: Global, held: u64, limit: u64, asks: u64) -> Result<Str, NoMemory>
    ensures { IfOk result (λ reason. reason ≡ bytes_reason held limit asks) }
{
    Ok(Str::from_string(format!(in alloc;
        "journal holds [{held}] of [{limit}] bytes, [{asks}] asked"
    )?))
}
