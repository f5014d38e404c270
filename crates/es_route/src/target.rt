//! How a target is cut (RFC 9112, section 3.2).
ghost use Rattle.std.specs.Prelude.{◌≡◌, ◌==◌, nat_eq, nat_le, codes, true, option_map, Some, None, IfOk, if◌then◌else◌};
ghost use Rattle.std.specs.List.{list_all, starts_with, before_first, after_first};
ghost use Rattle.es_route.specs.Stops.{GivesBy};
ghost use Rattle.es_route.specs.Targets.{is_target, target_of};
ghost use Rattle.es_route.specs.Paths.{target_as};

use crate::stop::Stop;
use es_reply::bad_path;
use std::alloc::Global;

/// A path, and the query string behind its question mark.
#[derive(Clone, Copy)]
pub struct Target<'a> {
    pub path: &'a str,
    pub query: &'a str,
}

/// The target that bytes are, cut at the first question mark. It begins with a slash and is ASCII.
pub fn target_of(alloc: Global, bytes: &[u8]) -> Result<Target<'_>, Stop>
    ensures target { GivesBy target_as result (target_of bytes.now) }
    ensures slash { IfOk result (λ target. starts_with nat_eq target.path.now (codes "/") ≡ true) }
{
    match text_of(bytes) {
        Some(text) => Ok(cut(text)),
        None => Err(Stop::Refused(bad_path(alloc)?)),
    }
}

/// The bytes as a text, if they are a target.
fn text_of(bytes: &[u8]) -> Option<&str>
    ensures { option_map (λ text. text.now) result ≡ (if is_target bytes.now then Some bytes.now else None) }
{
    if is_target(bytes) {
        Some(ascii(bytes))
    } else {
        None
    }
}

/// Whether they begin with a slash and are ASCII.
fn is_target(bytes: &[u8]) -> bool
    ensures { result ≡ is_target bytes.now }
{
    bytes.starts_with(b"/") && is_ascii(bytes)
}

fn is_ascii(bytes: &[u8]) -> bool
    ensures { result ≡ list_all (λ b. nat_le b 127) bytes.now }
{
    bytes.iter().all(|b| *b <= 127)
}

/// ASCII as a text.
fn ascii(bytes: &[u8]) -> &str
    requires { is_target bytes.now ≡ true }
    ensures { result.now ≡ bytes.now }
{
    match std::str::from_utf8(bytes) {
        Ok(text) => text,
        Err(_) => unreachable!(),
    }
}

/// The path and the query string.
fn cut(text: &str) -> Target<'_>
    ensures path { result.path.now ≡ before_first (λ b. b == 63) text.now }
    ensures query { result.query.now ≡ after_first (λ b. b == 63) text.now }
{
    match text.split_once('?') {
        Some((path, query)) => Target { path, query },
        None => Target {
            path: text,
            query: "",
        },
    }
}
