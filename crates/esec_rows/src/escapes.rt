//! Texts of lines, in which `^` begins an escape: `^r` is a carriage return, `^n` a line feed, `^t` a tab, `^^` a
//! caret, `^e` nothing, `^xHH` the byte of these hexadecimal digits, and `^(TEXT^*N)` is TEXT N times.
use crate::fault::Fault;
use std::alloc::{AllocError, Global};

/// Bytes that are being read from a text.
#[derive(Drop)]
struct Reading {
    bytes: Vec<u8>,
    /// The text behind a `^(`, until it is repeated.
    part: Vec<u8>,
    is_in_part: bool,
    next: Next,
}

/// What the next character stands for.
#[derive(Clone, Copy)]
enum Next {
    Itself,
    Escape,
    /// The first of two hexadecimal digits.
    High,
    /// The second one, behind this value.
    Low(u8),
    /// A digit of the number of times, behind this one.
    Times(u64),
}

/// The bytes that a text stands for.
pub fn unescaped(alloc: Global, text: &[u8]) -> Result<Vec<u8>, Fault> {
    let mut reading = Reading {
        bytes: Vec::new(alloc),
        part: Vec::new(alloc),
        is_in_part: false,
        next: Next::Itself,
    };
    for byte in text {
        reading.read(*byte)?;
    }
    match (reading.next, reading.is_in_part) {
        (Next::Itself, false) => Ok(reading.bytes),
        _ => Err(Fault::Line),
    }
}

impl Reading {
    fn read(&mut self, byte: u8) -> Result<(), Fault> {
        match self.next {
            Next::Itself if byte == b'^' => self.next = Next::Escape,
            Next::Itself => self.put(byte)?,
            Next::Escape => self.escape(byte)?,
            Next::High => self.next = Next::Low(digit_of(byte)?.wrapping_mul(16)),
            Next::Low(high) => self.put(high.wrapping_add(digit_of(byte)?))?,
            Next::Times(times) if byte == b')' => self.repeat(times)?,
            Next::Times(times) => self.next = Next::Times(times_with(times, byte)?),
        }
        Ok(())
    }

    fn escape(&mut self, byte: u8) -> Result<(), Fault> {
        match byte {
            b'r' => self.put(b'\r'),
            b'n' => self.put(b'\n'),
            b't' => self.put(b'\t'),
            b'^' => self.put(b'^'),
            b'e' => {
                self.next = Next::Itself;
                Ok(())
            }
            b'x' => {
                self.next = Next::High;
                Ok(())
            }
            b'(' => {
                self.is_in_part = true;
                self.next = Next::Itself;
                Ok(())
            }
            b'*' => {
                self.next = Next::Times(0);
                Ok(())
            }
            _ => Err(Fault::Line),
        }
    }

    fn put(&mut self, byte: u8) -> Result<(), Fault> {
        self.next = Next::Itself;
        if self.is_in_part {
            self.part.push(byte)?;
        } else {
            self.bytes.push(byte)?;
        }
        Ok(())
    }

    fn repeat(&mut self, times: u64) -> Result<(), Fault> {
        for _ in 0..times {
            self.bytes.extend_from_slice(self.part.as_slice())?;
        }
        self.part.clear();
        self.is_in_part = false;
        self.next = Next::Itself;
        Ok(())
    }
}

pub fn digit_of(byte: u8) -> Result<u8, Fault> {
    match byte {
        b'0'..=b'9' => Ok(byte.wrapping_sub(b'0')),
        b'a'..=b'f' => Ok(byte.wrapping_sub(b'a').wrapping_add(10)),
        _ => Err(Fault::Line),
    }
}

fn times_with(times: u64, byte: u8) -> Result<u64, Fault> {
    if !byte.is_ascii_digit() {
        return Err(Fault::Line);
    }
    Ok(
        times
            .saturating_mul(10)
            .saturating_add(u64::from(byte.wrapping_sub(b'0'))),
    )
}

/// The text of some bytes, as it could stand in a row.
pub fn escaped(alloc: Global, bytes: &[u8]) -> Result<String, AllocError> {
    let mut text = String::new(alloc);
    for byte in bytes {
        match *byte {
            b'\r' => text.push_str("^r")?,
            b'\n' => text.push_str("^n")?,
            b'^' => text.push_str("^^")?,
            b' '..=b'~' => text.push(char::from(*byte))?,
            _ => text.push_str(&format!(in alloc; "^x{byte:02x}")?)?,
        }
    }
    Ok(text)
}
