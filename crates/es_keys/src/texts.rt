//! Texts inside the text of a key.
ghost use Rattle.std.specs.Prelude.{◌≡◌, IfOk};
ghost use Rattle.json.specs.Print.{quoted as quoted_of};

use es_base::{NoMemory, Str};
use json::Writer;
use std::alloc::Global;

/// The text as a JSON string.
pub fn quoted(alloc: Global, text: &str) -> Result<Str, NoMemory>
    ensures { IfOk result (λ string. string ≡ quoted_of text.now) }
{
    let mut out = Writer::new(Vec::with_capacity(alloc, 32)?);
    out.string(text)?;
    match String::from_utf8(out.into_inner()) {
        Ok(string) => Ok(Str::from_string(string)),
        Err(_) => unreachable!(),
    }
}
