//! The fields of a head, found by their names.
ghost use Rattle.std.specs.Prelude.{◌≡◌, ◌||◌, ◌==◌, All, length, map, reverse, codes, IfOk};
ghost use Rattle.std.specs.List.{list_any};
ghost use Rattle.httparse.specs.Grammar.{trim_ows, skip_ows, is_ows};
ghost use Rattle.std.specs.Str.{str_eq_ignore_ascii_case};
ghost use Rattle.httparse.specs.Spans.{IsHeaderWithin, IsWithin, header_bytes};
ghost use Rattle.es_wire.specs.Framing.{field_of, values_of, is_coding, has_close};
ghost use Rattle.es_wire.specs.Times.{once_at, IfOnce};

use crate::Once;
use es_base::NoMemory;
use es_edge::Bytes;
use httparse::spans::{HeaderSpan, Span};
use std::alloc::Global;

/// How often a field stands, and where its value is if it stands once.
#[derive(Clone, Copy, Debug, PartialEq, Eq)]
pub enum Times {
    Never,
    Once(Span),
    Again,
}

/// The fields with a name, which compares without case.
pub fn times_of(front: &[u8], headers: &[HeaderSpan], name: &[u8]) -> Times
    requires { All (IsHeaderWithin (length front.now)) headers.now }
    ensures value { once_at front.now result ≡ field_of name.now (map (header_bytes front.now) headers.now) }
    ensures within { IfOnce result (IsWithin (length front.now)) }
{
    let mut found = Times::Never;
    for header in headers {
        if header.name.of(front).eq_ignore_ascii_case(name) {
            found = match found {
                Times::Never => Times::Once(header.value),
                _ => Times::Again,
            };
        }
    }
    found
}

/// The value of a field that may stand once, copied.
pub fn copied_once(
    alloc: Global,
    front: &[u8],
    headers: &[HeaderSpan],
    name: &[u8],
) -> Result<Once, NoMemory>
    requires { All (IsHeaderWithin (length front.now)) headers.now }
    ensures { IfOk result (λ once. once ≡ field_of name.now (map (header_bytes front.now) headers.now)) }
{
    match times_of(front, headers, name) {
        Times::Never => Ok(Once::Absent),
        Times::Once(value) => Ok(Once::One(Bytes::from_slice(alloc, value.of(front))?)),
        Times::Again => Ok(Once::Twice),
    }
}

/// Whether some content-encoding names a coding.
pub fn has_coding(front: &[u8], headers: &[HeaderSpan]) -> bool
    requires { All (IsHeaderWithin (length front.now)) headers.now }
    ensures { result ≡ list_any is_coding (values_of (codes "content-encoding") (map (header_bytes front.now) headers.now)) }
{
    let mut found = false;
    for header in headers {
        if header
            .name
            .of(front)
            .eq_ignore_ascii_case(b"content-encoding")
            && names_coding(header.value.of(front))
        {
            found = true;
        }
    }
    found
}

/// Whether the value is any but `identity`.
fn names_coding(value: &[u8]) -> bool
    ensures { result ≡ is_coding value.now }
{
    value != b"identity".as_slice()
}

/// Whether the connection closes after a request of this version with these fields.
pub fn closes(front: &[u8], headers: &[HeaderSpan], version: u8) -> bool
    requires { All (IsHeaderWithin (length front.now)) headers.now }
    ensures { result ≡ (version == 0) || list_any has_close (values_of (codes "connection") (map (header_bytes front.now) headers.now)) }
{
    let asked = asks_close(front, headers);
    version == 0 || asked
}

/// Whether some connection field has the member close.
fn asks_close(front: &[u8], headers: &[HeaderSpan]) -> bool
    requires { All (IsHeaderWithin (length front.now)) headers.now }
    ensures { result ≡ list_any has_close (values_of (codes "connection") (map (header_bytes front.now) headers.now)) }
{
    let mut found = false;
    for header in headers {
        if header.name.of(front).eq_ignore_ascii_case(b"connection")
            && lists_close(header.value.of(front))
        {
            found = true;
        }
    }
    found
}

/// Whether the comma list has the member close.
fn lists_close(value: &[u8]) -> bool
    ensures { result ≡ has_close value.now }
{
    value.split(|b| *b == b',').any(|member| is_close(member))
}

/// Whether the member is close, without case and the white space around it.
fn is_close(member: &[u8]) -> bool
    ensures { result ≡ str_eq_ignore_ascii_case (trim_ows member.now) (codes "close") }
{
    trimmed(member).eq_ignore_ascii_case(b"close")
}

/// The bytes without the white space at both ends.
fn trimmed(bytes: &[u8]) -> &[u8]
    ensures { result.now ≡ trim_ows bytes.now }
{
    trimmed_end(trimmed_start(bytes))
}

fn trimmed_start(bytes: &[u8]) -> &[u8]
    ensures { result.now ≡ skip_ows bytes.now }
{
    let mut rest = bytes;
    while let [first, others @ ..] = rest {
        if !is_space(*first) {
            break;
        }
        rest = others;
    }
    rest
}

fn trimmed_end(bytes: &[u8]) -> &[u8]
    ensures { reverse result.now ≡ skip_ows (reverse bytes.now) }
{
    let mut rest = bytes;
    while let [others @ .., last] = rest {
        if !is_space(*last) {
            break;
        }
        rest = others;
    }
    rest
}

/// Whether it is a space or a tab.
fn is_space(b: u8) -> bool
    ensures { result ≡ is_ows b }
{
    b == b' ' || b == b'\t'
}
