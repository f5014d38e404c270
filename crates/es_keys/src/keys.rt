//! API keys: made, sent and verified.
ghost use Rattle.std.specs.Prelude.{◌≡◌, ◌<◌, ◌≤◌, IfOk};
ghost use Rattle.std.specs.Option.{IfSome};
ghost use Rattle.es_cred.specs.Credentials.{token_of};
ghost use Rattle.es_keys.specs.Keys.{id_of, secret_of, key_made, expiry_of, is_secret_of, is_past, is_expired};

use crate::kinds::{KeyRecord, NamedDescriptors, NewKey};
use base64::engine::general_purpose::{STANDARD, URL_SAFE_NO_PAD};
use es_base::{NoMemory, Str};
use es_cred::{digest, same};
use es_tree::Person;
use std::alloc::Global;

/// The id of the key that the change at this place makes: `key-` and the place in twelve decimal digits, with zeros in
/// front.
#[tactic(auto, unfolding(crate::specs::Keys::id_of))]
pub fn id_of(alloc: Global, place: u64) -> Result<Str, NoMemory>
    ensures { IfOk result (λ id. id ≡ id_of place) }
{
    Ok(Str::from_string(format!(in alloc; "key-{place:012}")?))
}

/// The secret made of what was drawn: 22 characters of unpadded base64url (RFC 4648, section 5).
#[tactic(auto, unfolding(crate::specs::Keys::secret_of))]
pub fn secret_of(alloc: Global, drawn: &[u8; 16]) -> Result<Str, NoMemory>
    ensures { IfOk result (λ secret. secret ≡ secret_of drawn.now) }
{
    Ok(Str::from_string(URL_SAFE_NO_PAD.encode(alloc, drawn)?))
}

/// What a client sends behind `ApiKey`: padded base64 (RFC 4648, section 4) of the id, a colon and the secret.
pub fn encoded(alloc: Global, id: &str, secret: &str) -> Result<Str, NoMemory>
    ensures { IfOk result (λ token. token ≡ token_of id.now secret.now) }
{
    let mut pair = String::from_str(alloc, id)?;
    pair.push_str(":")?;
    pair.push_str(secret)?;
    Ok(Str::from_string(STANDARD.encode(alloc, pair.as_bytes())?))
}

/// The key that was asked for, and its secret. `limits` are the owner's descriptors, `place` is that of the change that
/// makes the key, `moment` is in milliseconds since 1970, and `drawn` was drawn by chance. Descriptors are shared and not
/// copied.
#[tactic(auto, unfolding(crate::specs::Keys::key_record))]
pub fn make(
    alloc: Global,
    owner: &Person,
    limits: &NamedDescriptors,
    asked: &NewKey,
    place: u64,
    moment: u64,
    drawn: &[u8; 16],
) -> Result<(KeyRecord, Str), NoMemory>
    requires moment { moment ≤ 4000000000000000 }
    requires duration { IfSome asked.now.expiration (λ duration. duration ≤ 1000000000000000) }
    requires place { place < 1000000000000 }
    ensures { IfOk result (λ made. made ≡ key_made owner.now limits.now asked.now place moment (secret_of drawn.now)) }
{
    let id = id_of(alloc, place)?;
    let secret = secret_of(alloc, drawn)?;
    let record = KeyRecord {
        name: asked.name.copy(alloc)?,
        digest: digest(id.text(), secret.text()),
        owner: owner.copy(alloc)?,
        made: moment,
        expires: expiry(moment, asked.expiration),
        invalidated: false,
        assigned: asked.assigned.copy(alloc)?,
        limits: limits.copy(alloc)?,
        metadata: asked.metadata.copy(alloc)?,
        id,
    };
    Ok((record, secret))
}

// When a key expires that was made at the moment, if it lasts only so long.
fn expiry(moment: u64, duration: Option<u64>) -> Option<u64>
    requires moment { moment ≤ 4000000000000000 }
    requires duration { IfSome duration (λ duration. duration ≤ 1000000000000000) }
    ensures { result ≡ expiry_of moment duration }
{
    match duration {
        Some(duration) => Some(moment + duration),
        None => None,
    }
}

/// Whether the secret is the key's: the digest of its id and the secret is the one that is kept. It takes no memory.
#[tactic(auto, unfolding(crate::specs::Keys::is_secret_of))]
pub fn verify(kept: &KeyRecord, secret: &str) -> bool
    ensures { result ≡ is_secret_of kept.now secret.now }
{
    same(&digest(kept.id.text(), secret), &kept.digest)
}

/// Whether the key has an expiry and the moment, in milliseconds since 1970, is at or past it. It takes no memory.
#[tactic(auto, unfolding(crate::specs::Keys::is_expired))]
pub fn expired(kept: &KeyRecord, moment: u64) -> bool
    ensures { result ≡ is_expired kept.now moment }
{
    match kept.expires {
        Some(end) => moment >= end,
        None => false,
    }
}
