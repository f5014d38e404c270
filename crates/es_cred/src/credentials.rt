//! What the field `authorization` says.
ghost use Rattle.std.specs.Prelude.{◌≡◌, IfOk, option_map};
ghost use Rattle.std.specs.Option.{option_copied};
ghost use Rattle.es_cred.specs.Credentials.{credentials_of, scheme_of, token_behind, skip_spaces, pair_in, said_as, IsOnlySpelling};

use base64::DecodeAllocError;
use base64::engine::general_purpose::STANDARD;
use es_base::{NoMemory, Str};
use std::alloc::Global;

/// Who a request says that it comes from.
#[derive(Drop)]
pub enum Credentials {
    /// A user's name and secret.
    User { name: Str, secret: Str },
    /// An API key's id and secret.
    Key { id: Str, secret: Str },
    /// There is no field.
    Absent,
    /// The field says nothing that is known here.
    Malformed,
}

/// The schemes of the field (RFC 9110, section 11.1).
#[derive(Clone, Copy, Debug, PartialEq, Eq)]
pub enum Scheme {
    /// `Bearer`: a user.
    Bearer,
    /// `ApiKey`: an API key.
    ApiKey,
}

impl Credentials {
    /// The credentials that the field says: `Bearer` or `ApiKey` in any mix of upper and lower case, one or more spaces,
    /// and then the name or id, a colon and the secret in UTF-8 as padded base64 (RFC 4648, section 4) in its only
    /// spelling. The first colon ends the name or id.
    #[tactic(auto, unfolding(crate::specs::Credentials::credentials_of))]
    pub fn read(alloc: Global, field: Option<&[u8]>) -> Result<Credentials, NoMemory>
        ensures said { IfOk result (λ found. found ≡ credentials_of (option_copied field.entry)) }
        ensures only { IfOk result (λ found. IsOnlySpelling (option_copied field.entry) found) }
    {
        let Some(value) = field else {
            return Ok(Credentials::Absent);
        };
        let Some((scheme, token)) = scheme_of(value) else {
            return Ok(Credentials::Malformed);
        };
        match STANDARD.decode(alloc, token) {
            Ok(text) => pair_in(alloc, scheme, text.as_slice()),
            Err(DecodeAllocError::OutOfMemory) => Err(NoMemory),
            Err(DecodeAllocError::DecodeError(_)) => Ok(Credentials::Malformed),
        }
    }
}

/// The scheme that the field names, and the token behind it.
#[tactic(auto, unfolding(crate::specs::Credentials::scheme_of))]
fn scheme_of(value: &[u8]) -> Option<(Scheme, &[u8])>
    ensures { option_map (λ found. (found.0, found.1.now)) result ≡ scheme_of value.now }
{
    match token_behind(b"Bearer", value) {
        Some(token) => Some((Scheme::Bearer, token)),
        None => match token_behind(b"ApiKey", value) {
            Some(token) => Some((Scheme::ApiKey, token)),
            None => None,
        },
    }
}

/// The token behind the word, which has six letters, and one or more spaces.
fn token_behind<'a>(word: &[u8], value: &'a [u8]) -> Option<&'a [u8]>
    ensures { option_map (λ token. token.now) result ≡ token_behind word.now value.now }
{
    let end = value.len().min(6);
    if !value[..end].eq_ignore_ascii_case(word) {
        return None;
    }
    match &value[end..] {
        [b' ', rest @ ..] => Some(without_spaces(rest)),
        _ => None,
    }
}

/// The bytes from the first that is no space.
fn without_spaces(bytes: &[u8]) -> &[u8]
    ensures { result.now ≡ skip_spaces bytes.now }
{
    let mut rest = bytes;
    while let [b' ', more @ ..] = rest {
        rest = more;
    }
    rest
}

/// The name or id before the first colon and the secret behind it.
fn pair_in(alloc: Global, scheme: Scheme, bytes: &[u8]) -> Result<Credentials, NoMemory>
    ensures { IfOk result (λ found. found ≡ pair_in scheme bytes.now) }
{
    let Ok(text) = std::str::from_utf8(bytes) else {
        return Ok(Credentials::Malformed);
    };
    match text.split_once(':') {
        Some((name, secret)) => said_as(alloc, scheme, name, secret),
        None => Ok(Credentials::Malformed),
    }
}

/// What a pair says under a scheme.
fn said_as(alloc: Global, scheme: Scheme, name: &str, secret: &str) -> Result<Credentials, NoMemory>
    ensures { IfOk result (λ found. found ≡ said_as scheme name.now secret.now) }
{
    let name = Str::of(alloc, name)?;
    let secret = Str::of(alloc, secret)?;
    Ok(match scheme {
        Scheme::Bearer => Credentials::User { name, secret },
        Scheme::ApiKey => Credentials::Key { id: name, secret },
    })
}
