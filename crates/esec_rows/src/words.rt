//! Words and numbers of a line.
use crate::fault::Fault;
use std::alloc::Global;

/// What stands before the first blank, and what stands behind it.
pub fn cut(line: &[u8]) -> (&[u8], &[u8]) {
    let mut parts = line.splitn(2, |byte| *byte == b' ');
    let word = parts.next().unwrap_or(b"".as_slice());
    let rest = parts.next().unwrap_or(b"".as_slice());
    (word, rest)
}

/// A number in decimal digits; above 2^64 - 1 that one.
pub fn number(digits: &[u8]) -> Result<u64, Fault> {
    if digits.is_empty() {
        return Err(Fault::Line);
    }
    let mut value = 0u64;
    for digit in digits {
        if !digit.is_ascii_digit() {
            return Err(Fault::Line);
        }
        value = value
            .saturating_mul(10)
            .saturating_add(u64::from(digit.wrapping_sub(b'0')));
    }
    Ok(value)
}

/// Numbers with a blank between each two.
pub fn numbers(alloc: Global, text: &[u8]) -> Result<Vec<u64>, Fault> {
    let mut values = Vec::new(alloc);
    for word in text.split(|byte| *byte == b' ') {
        values.push(number(word)?)?;
    }
    Ok(values)
}
