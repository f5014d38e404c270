//! What the fields of a head say of the body that follows.
ghost use Rattle.std.specs.Prelude.{◌≡◌, All, length, map, true};
ghost use Rattle.std.specs.Char.{is_ascii_digit};
ghost use Rattle.std.specs.Str.Parse.{digits_value};
ghost use Rattle.std.specs.List.{list_all};
ghost use Rattle.httparse.specs.Spans.{IsHeaderWithin, header_bytes};
ghost use Rattle.es_wire.specs.Framing.{framing_of, length_framing, is_decimal, decimal_of};
ghost use Rattle.es_wire.specs.declared.request.Once.TheVariants.{One};

use crate::fields::{Times, has_coding, times_of};
use httparse::spans::HeaderSpan;

/// The bytes of the body, or the status of a refusal.
#[derive(Clone, Copy, Debug, PartialEq, Eq)]
pub enum Framing {
    Body(usize),
    Refused(u16),
}

/// As long as a body is at the most, in bytes.
const BODY: usize = 1048576;

/// The framing that the fields give.
pub fn framing_at(front: &[u8], headers: &[HeaderSpan]) -> Framing
    requires { All (IsHeaderWithin (length front.now)) headers.now }
    ensures { result ≡ framing_of (map (header_bytes front.now) headers.now) }
{
    match times_of(front, headers, b"transfer-encoding") {
        Times::Never => {}
        _ => return Framing::Refused(411),
    }
    if has_coding(front, headers) {
        return Framing::Refused(415);
    }
    match times_of(front, headers, b"content-length") {
        Times::Never => Framing::Body(0),
        Times::Once(value) => length_at(value.of(front)),
        Times::Again => Framing::Refused(400),
    }
}

/// The framing by the value of the one content-length.
fn length_at(value: &[u8]) -> Framing
    ensures { result ≡ length_framing (One value.now) }
{
    if !is_decimal(value) {
        return Framing::Refused(400);
    }
    let length = number_of(value);
    if length <= BODY {
        Framing::Body(length)
    } else {
        Framing::Refused(413)
    }
}

/// The number that 1 to 18 decimal digits write; none for other bytes.
pub fn decimal_of(value: &[u8]) -> Option<u64>
    ensures { result ≡ decimal_of value.now }
{
    if is_decimal(value) {
        Some(number_of(value) as u64)
    } else {
        None
    }
}

/// Whether it is 1 to 18 decimal digits.
fn is_decimal(value: &[u8]) -> bool
    ensures { result ≡ is_decimal value.now }
{
    let digits = all_digits(value);
    1 <= value.len() && value.len() <= 18 && digits
}

fn all_digits(value: &[u8]) -> bool
    ensures { result ≡ list_all is_ascii_digit value.now }
{
    value.iter().all(|b| b.is_ascii_digit())
}

/// The number that the digits write.
fn number_of(value: &[u8]) -> usize
    requires { is_decimal value.now ≡ true }
    ensures { result ≡ digits_value 10 value.now }
{
    let mut length = 0usize;
    for b in value {
        length = length * 10 + (*b - b'0') as usize;
    }
    length
}
