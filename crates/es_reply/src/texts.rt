//! Texts inside replies.
ghost use Rattle.std.specs.Prelude.{◌≡◌, map, IfOk};
ghost use Rattle.json.specs.Print.{quoted as quoted_of};
ghost use Rattle.es_tree.specs.Text.{with_commas};
ghost use Rattle.es_reply.specs.Bodies.{text_or_null, text_list};

use es_base::{NoMemory, Str, Strs};
use json::Writer;
use std::alloc::Global;

/// The text as a JSON string.
pub fn quoted(alloc: Global, text: &str) -> Result<Str, NoMemory>
    ensures { IfOk result (λ string. string ≡ quoted_of text.now) }
{
    let mut out = Writer::new(Vec::with_capacity(alloc, 32)?);
    out.string(text)?;
    match String::from_utf8(out.into_inner()) {
        Ok(string) => Ok(Str::from_string(string)),
        Err(_) => unreachable!(),
    }
}

/// The text as a JSON string, or `null` where there is none.
#[tactic(auto, unfolding(crate::specs::Bodies::text_or_null))]
pub fn text_or_null(alloc: Global, text: &Option<Str>) -> Result<Str, NoMemory>
    ensures { IfOk result (λ string. string ≡ text_or_null text.now) }
{
    match text {
        Some(text) => quoted(alloc, text.text()),
        None => Str::of(alloc, "null"),
    }
}

/// The texts as a JSON list of strings.
#[tactic(auto, unfolding(crate::specs::Bodies::text_list))]
pub fn text_list(alloc: Global, texts: &[Str]) -> Result<Str, NoMemory>
    ensures { IfOk result (λ list. list ≡ text_list texts.now) }
{
    let strings = all_quoted(alloc, texts)?;
    let mut list = Str::of(alloc, "[")?;
    list.push_str(joined(alloc, strings.as_slice())?.text())?;
    list.push_str("]")?;
    Ok(list)
}

// Each of the texts as a JSON string.
fn all_quoted(alloc: Global, texts: &[Str]) -> Result<Strs, NoMemory>
    ensures { IfOk result (λ strings. strings ≡ map quoted_of texts.now) }
{
    let mut strings = Strs::empty(alloc);
    for text in texts {
        strings.push(quoted(alloc, text.text())?)?;
    }
    Ok(strings)
}

/// The texts, with a comma between each two.
pub fn joined(alloc: Global, texts: &[Str]) -> Result<Str, NoMemory>
    ensures { IfOk result (λ whole. whole ≡ with_commas texts.now) }
{
    let [first, others @ ..] = texts else {
        return Ok(Str::empty(alloc));
    };
    let mut whole = first.copy(alloc)?;
    for text in others {
        whole.push(',')?;
        whole.push_str(text.text())?;
    }
    Ok(whole)
}
