//! Texts that are cut at their commas.
ghost use Rattle.std.specs.Prelude.{◌≡◌, map, IfOk};
ghost use Rattle.es_request.specs.Requests.{cut_at_commas};

use es_base::{NoMemory, Str, Strs};
use std::alloc::{AllocError, Global};

/// The pieces of a text between its commas, at least one.
pub fn cut_at_commas(alloc: Global, text: &str) -> Result<Strs, NoMemory>
    ensures { IfOk result (λ pieces. pieces ≡ cut_at_commas text.now) }
{
    let pieces = pieces_of(alloc, text)?;
    owned(alloc, pieces.as_slice())
}

fn pieces_of(alloc: Global, text: &str) -> Result<Vec<&str>, AllocError>
    ensures { IfOk result (λ pieces. map (λ piece. piece.now) pieces.items ≡ cut_at_commas text.now) }
{
    text.split(',').collect(alloc)
}

fn owned(alloc: Global, texts: &[&str]) -> Result<Strs, NoMemory>
    ensures { IfOk result (λ copies. copies ≡ map (λ text. text.now) texts.now) }
{
    let mut copies = Strs::empty(alloc);
    for text in texts {
        copies.push(Str::of(alloc, text)?)?;
    }
    Ok(copies)
}
