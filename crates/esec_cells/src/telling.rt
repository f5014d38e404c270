//! Answers as texts.
use crate::faults::Fault;
use es_base::Str;
use es_cred::Hash32;
use es_tree::BodyFault;
use std::alloc::Global;

/// `true` or `false`.
pub fn truth(alloc: Global, holds: bool) -> Result<Str, Fault> {
    Ok(Str::of(alloc, if holds { "true" } else { "false" })?)
}

/// A number in decimal digits, or `none`.
pub fn number(alloc: Global, number: Option<i64>) -> Result<Str, Fault> {
    match number {
        Some(number) => Ok(Str::of(alloc, format!(in alloc; "{number}")?.as_str())?),
        None => Ok(Str::of(alloc, "none")?),
    }
}

/// The place of a fault, in brackets.
pub fn fault(alloc: Global, found: &BodyFault) -> Result<Str, Fault> {
    match found {
        BodyFault::Bad { place } => {
            let place = place.text();
            Ok(Str::of(alloc, format!(in alloc; "bad [{place}]")?.as_str())?)
        }
        BodyFault::NoMemory => Err(Fault::NoMemory),
    }
}

/// A digest in hexadecimal digits.
pub fn hexadecimal(alloc: Global, bytes: &Hash32) -> Result<Str, Fault> {
    let mut text = Str::empty(alloc);
    for byte in bytes {
        text.push_str(format!(in alloc; "{byte:02x}")?.as_str())?;
    }
    Ok(text)
}

/// One word more, with a blank before it where it isn't the first.
pub fn add(text: &mut Str, word: &str) -> Result<(), Fault> {
    if !text.is_empty() {
        text.push(' ')?;
    }
    text.push_str(word)?;
    Ok(())
}
