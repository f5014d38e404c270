//! Replies on API keys.
ghost use Rattle.std.specs.Prelude.{◌≡◌, IfOk};
ghost use Rattle.es_reply.specs.Bodies.{expiration_member, key_created, keys_listed, keys_invalidated};

use crate::texts::{joined, quoted, text_list};
use es_base::{NoMemory, Str};
use es_response::Reply;
use itoa::Buffer;
use std::alloc::Global;

/// The reply to the creation of a key: 200. `encoded` is what a client sends behind `ApiKey`, and `expiration` is when the
/// key expires, in milliseconds since 1970, if it does.
pub fn key_created(
    alloc: Global,
    id: &str,
    name: &str,
    secret: &str,
    encoded: &str,
    expiration: Option<u64>,
) -> Result<Reply, NoMemory>
    ensures { IfOk result (λ reply. reply ≡ key_created id.now name.now secret.now encoded.now expiration) }
{
    let mut body = Str::of(alloc, "{\"api_key\":")?;
    body.push_str(quoted(alloc, secret)?.text())?;
    body.push_str(",\"encoded\":")?;
    body.push_str(quoted(alloc, encoded)?.text())?;
    body.push_str(expiration_member(alloc, expiration)?.text())?;
    body.push_str(",\"id\":")?;
    body.push_str(quoted(alloc, id)?.text())?;
    body.push_str(",\"name\":")?;
    body.push_str(quoted(alloc, name)?.text())?;
    body.push_str("}")?;
    Ok(Reply::new(200, "", body))
}

// The member that tells when a key expires, where it does.
fn expiration_member(alloc: Global, expiration: Option<u64>) -> Result<Str, NoMemory>
    ensures { IfOk result (λ member. member ≡ expiration_member expiration) }
{
    match expiration {
        None => Ok(Str::empty(alloc)),
        Some(moment) => {
            let mut member = Str::of(alloc, ",\"expiration\":")?;
            let mut buffer = Buffer::new();
            member.push_str(buffer.format(moment))?;
            Ok(member)
        }
    }
}

/// The reply to a list of keys, each by its text: 200.
pub fn keys_listed(alloc: Global, keys: &[Str]) -> Result<Reply, NoMemory>
    ensures { IfOk result (λ reply. reply ≡ keys_listed keys.now) }
{
    let mut body = Str::of(alloc, "{\"api_keys\":[")?;
    body.push_str(joined(alloc, keys)?.text())?;
    body.push_str("]}")?;
    Ok(Reply::new(200, "", body))
}

/// The reply to an invalidation, with the ids of the keys that it invalidated and of those that were invalidated before:
/// 200.
pub fn keys_invalidated(alloc: Global, newly: &[Str], previously: &[Str]) -> Result<Reply, NoMemory>
    ensures { IfOk result (λ reply. reply ≡ keys_invalidated newly.now previously.now) }
{
    let mut body = Str::of(alloc, "{\"error_count\":0,\"invalidated_api_keys\":")?;
    body.push_str(text_list(alloc, newly)?.text())?;
    body.push_str(",\"previously_invalidated_api_keys\":")?;
    body.push_str(text_list(alloc, previously)?.text())?;
    body.push_str("}")?;
    Ok(Reply::new(200, "", body))
}
