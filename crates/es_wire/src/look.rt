//! One look at the bytes that wait.
ghost use Rattle.std.specs.Prelude.{◌≡◌, ◌≤◌, ◌==◌, ◌||◌, All, length, map, take, codes, IfOk};
ghost use Rattle.std.specs.List.{list_any};
ghost use Rattle.httparse.specs.Grammar.{IsToken};
ghost use Rattle.httparse.specs.Spans.{IsRequestWithin, IsRequestOf, IsWithin, IsHeaderWithin, span_bytes, header_bytes};
ghost use Rattle.es_wire.specs.Framing.{field_of, values_of, has_close};
ghost use Rattle.es_wire.specs.Looks.{LooksAt};
ghost use Rattle.es_wire.specs.Requests.{head_limit, field_limit};

use crate::RawRequest;
use crate::fields::{closes, copied_once};
use crate::framing::{Framing, framing_at};
use es_base::{NoMemory, Str};
use es_edge::Bytes;
use httparse::spans::{EMPTY_HEADER_SPAN, HeaderSpan, RequestSpans, parse_request};
use httparse::{Error, Status};
use std::alloc::Global;
use std::str;

/// As many bytes as are read as a head.
const HEAD: usize = 16384;

/// As many fields as a head has at the most.
const FIELDS: usize = 100;

/// What the bytes begin with.
#[derive(Drop)]
pub enum Looked {
    /// A whole request, and how many bytes it is.
    Whole(RawRequest, usize),
    /// What is refused with this status.
    Refused(u16),
    /// A part of a request, which is whole at this length at the earliest.
    More(usize),
    /// Memory was refused.
    NoMemory,
}

/// Reads the request at the front of the bytes.
pub fn look(alloc: Global, pending: &[u8]) -> Looked
    ensures { LooksAt pending.now result }
{
    let front = head_part(pending);
    let mut headers = [EMPTY_HEADER_SPAN; FIELDS];
    match parse_request(front, &mut headers) {
        Err(error) => match error {
            Error::TooManyHeaders => Looked::Refused(431),
            _ => Looked::Refused(400),
        },
        Ok(Status::Partial) => {
            if front.len() == HEAD {
                Looked::Refused(431)
            } else {
                Looked::More(pending.len() + 1)
            }
        }
        Ok(Status::Complete(spans)) => look_at_head(alloc, pending, front, &headers, spans),
    }
}

/// What is read as a head.
fn head_part(pending: &[u8]) -> &[u8]
    ensures { result.now ≡ take head_limit pending.now }
{
    &pending[..HEAD.min(pending.len())]
}

/// Reads the request whose head was found.
fn look_at_head(
    alloc: Global,
    pending: &[u8],
    front: &[u8],
    headers: &[HeaderSpan],
    spans: RequestSpans,
) -> Looked
    requires front { front.now ≡ take head_limit pending.now }
    requires within { IsRequestWithin front.now headers.now spans }
    requires head { IsRequestOf front.now headers.now spans }
    requires few { length headers.now ≤ field_limit }
    ensures { LooksAt pending.now result }
{
    let fields = &headers[..spans.headers];
    match framing_at(front, fields) {
        Framing::Refused(status) => Looked::Refused(status),
        Framing::Body(length) => {
            let behind = &pending[spans.len..];
            if behind.len() < length {
                return Looked::More(spans.len + length);
            }
            match raw_request(alloc, front, fields, spans, &behind[..length]) {
                Ok(raw) => Looked::Whole(raw, spans.len + length),
                Err(NoMemory) => Looked::NoMemory,
            }
        }
    }
}

/// The parts of a request, copied.
fn raw_request(
    alloc: Global,
    front: &[u8],
    fields: &[HeaderSpan],
    spans: RequestSpans,
    body: &[u8],
) -> Result<RawRequest, NoMemory>
    requires method { IsWithin (length front.now) spans.method }
    requires token { IsToken (span_bytes front.now spans.method) }
    requires path { IsWithin (length front.now) spans.path }
    requires fields { All (IsHeaderWithin (length front.now)) fields.now }
    ensures { IfOk result (λ raw. raw ≡ record {
      method = span_bytes front.now spans.method;
      target = span_bytes front.now spans.path;
      authorization = field_of (codes "authorization") (map (header_bytes front.now) fields.now);
      run_as = field_of (codes "es-security-runas-user") (map (header_bytes front.now) fields.now);
      seen = field_of (codes "esec-seen") (map (header_bytes front.now) fields.now);
      body = body.now;
      last = (spans.version == 0) || list_any has_close (values_of (codes "connection") (map (header_bytes front.now) fields.now));
    }) }
{
    Ok(RawRequest {
        method: token_text(alloc, spans.method.of(front))?,
        target: Bytes::from_slice(alloc, spans.path.of(front))?,
        authorization: copied_once(alloc, front, fields, b"authorization")?,
        run_as: copied_once(alloc, front, fields, b"es-security-runas-user")?,
        seen: copied_once(alloc, front, fields, b"esec-seen")?,
        body: Bytes::from_slice(alloc, body)?,
        last: closes(front, fields, spans.version),
    })
}

/// A token is a text.
fn token_text(alloc: Global, bytes: &[u8]) -> Result<Str, NoMemory>
    requires { IsToken bytes.now }
    ensures { IfOk result (λ text. text ≡ bytes.now) }
{
    Str::of(alloc, str::from_utf8(bytes).unwrap())
}
