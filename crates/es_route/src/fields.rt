//! The fields of a head that say how a request is answered.
ghost use Rattle.std.specs.Prelude.{◌≡◌, IfOk, Some, None, unwrap_or, if◌then◌else◌};
ghost use Rattle.std.specs.Str.{is_utf8};
ghost use Rattle.es_route.specs.Refusals.{seen_in, run_as_in, is_said, bad_header_in};
ghost use Rattle.es_route.specs.Reading.{credentials_at};

use es_base::{NoMemory, Str};
use es_cred::Credentials;
use es_reply::{Reply, bad_header};
use es_wire::{Once, decimal_of};
use std::alloc::Global;
use std::str;

/// The place that the field `esec-seen` names: 1 to 18 decimal digits, 0 where it is absent, and none where it is neither.
pub fn seen_in(field: &Once) -> Option<u64>
    ensures { result ≡ seen_in field.now }
{
    match field {
        Once::Absent => Some(0),
        Once::One(value) => decimal_of(value.as_slice()),
        Once::Twice => None,
    }
}

/// The user that the field `es-security-runas-user` names; none where it is absent, given twice or no text.
pub fn run_as_in(alloc: Global, field: &Once) -> Result<Option<Str>, NoMemory>
    ensures { IfOk result (λ user. user ≡ unwrap_or (run_as_in field.now) None) }
{
    match field {
        Once::Absent => Ok(None),
        Once::One(value) => text_in(alloc, value.as_slice()),
        Once::Twice => Ok(None),
    }
}

/// The text that the bytes are, if they are one.
fn text_in(alloc: Global, bytes: &[u8]) -> Result<Option<Str>, NoMemory>
    ensures { IfOk result (λ text. text ≡ (if is_utf8 bytes.now then Some bytes.now else None)) }
{
    match str::from_utf8(bytes) {
        Ok(text) => Ok(Some(Str::of(alloc, text)?)),
        Err(_) => Ok(None),
    }
}

/// Whether the field `es-security-runas-user` is absent or names a user.
fn may_be_user(field: &Once) -> bool
    ensures { result ≡ is_said (run_as_in field.now) }
{
    match field {
        Once::Absent => true,
        Once::One(value) => is_text(value.as_slice()),
        Once::Twice => false,
    }
}

fn is_text(bytes: &[u8]) -> bool
    ensures { result ≡ is_utf8 bytes.now }
{
    match str::from_utf8(bytes) {
        Ok(_) => true,
        Err(_) => false,
    }
}

/// The refusal of the first of the two fields that says nothing that can be meant.
pub fn bad_field(alloc: Global, seen: &Once, run_as: &Once) -> Result<Option<Reply>, NoMemory>
    ensures { IfOk result (λ refusal. refusal ≡ bad_header_in seen.now run_as.now) }
{
    if seen_in(seen).is_none() {
        return Ok(Some(bad_header(alloc, "esec-seen")?));
    }
    if !may_be_user(run_as) {
        return Ok(Some(bad_header(alloc, "es-security-runas-user")?));
    }
    Ok(None)
}

/// What the field `authorization` says; a repeated one is malformed.
pub fn credentials_in(alloc: Global, field: &Once) -> Result<Credentials, NoMemory>
    ensures { IfOk result (λ credentials. credentials ≡ credentials_at field.now) }
{
    match field {
        Once::Absent => Credentials::read(alloc, None),
        Once::One(value) => Credentials::read(alloc, Some(value.as_slice())),
        Once::Twice => Ok(Credentials::Malformed),
    }
}
