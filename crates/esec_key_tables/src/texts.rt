//! What the texts of cells say.
use es_base::{Seq, Str, Strs};
use es_tree::BodyFault;
use esec_cells::{Fault, digit_of};
use std::alloc::Global;

/// A fault whose place is this text.
pub fn bad(alloc: Global, place: &str) -> BodyFault {
    match Str::of(alloc, place) {
        Ok(place) => BodyFault::Bad { place },
        Err(_) => BodyFault::NoMemory,
    }
}

/// The fault of a line whose cells have this one.
pub fn of_line(found: &BodyFault) -> Fault {
    match found {
        BodyFault::Bad { .. } => Fault::Line,
        BodyFault::NoMemory => Fault::NoMemory,
    }
}

/// A number in decimal digits; above 2^64 - 1 that one.
pub fn number_of(text: &str) -> Result<u64, Fault> {
    if text.is_empty() {
        return Err(Fault::Line);
    }
    let mut value = 0u64;
    for digit in text.as_bytes() {
        if !digit.is_ascii_digit() {
            return Err(Fault::Line);
        }
        value = value
            .saturating_mul(10)
            .saturating_add(u64::from(digit.wrapping_sub(b'0')));
    }
    Ok(value)
}

/// Sixteen bytes that 32 hexadecimal digits say.
pub fn drawn_of(text: &str) -> Result<[u8; 16], Fault> {
    let digits = text.as_bytes();
    if digits.len() != 32 {
        return Err(Fault::Line);
    }
    Ok([
        byte_at(digits, 0)?,
        byte_at(digits, 2)?,
        byte_at(digits, 4)?,
        byte_at(digits, 6)?,
        byte_at(digits, 8)?,
        byte_at(digits, 10)?,
        byte_at(digits, 12)?,
        byte_at(digits, 14)?,
        byte_at(digits, 16)?,
        byte_at(digits, 18)?,
        byte_at(digits, 20)?,
        byte_at(digits, 22)?,
        byte_at(digits, 24)?,
        byte_at(digits, 26)?,
        byte_at(digits, 28)?,
        byte_at(digits, 30)?,
    ])
}

/// The byte of the two hexadecimal digits that begin at a place.
fn byte_at(digits: &[u8], at: usize) -> Result<u8, Fault> {
    match (digits.get(at), digits.get(at.saturating_add(1))) {
        (Some(high), Some(low)) => {
            let high = digit_of(*high)?;
            Ok(high.wrapping_mul(16).wrapping_add(digit_of(*low)?))
        }
        _ => Err(Fault::Line),
    }
}

/// What stands before the first blank, and what stands behind it.
pub fn cut_at_blank(text: &str) -> (&str, &str) {
    match text.split_once(' ') {
        Some((word, rest)) => (word, rest),
        None => (text, ""),
    }
}

/// What stands before the first bar, and what stands behind it.
pub fn cut_at_bar(text: &str) -> (&str, &str) {
    match text.split_once('|') {
        Some((word, rest)) => (word, rest),
        None => (text, ""),
    }
}

/// Names with a comma between each two.
pub fn names_of(alloc: Global, text: &str) -> Result<Strs, Fault> {
    let mut names = Seq::empty(alloc);
    if !text.is_empty() {
        for name in text.split(',') {
            names.push(Str::of(alloc, name)?)?;
        }
    }
    Ok(names)
}
