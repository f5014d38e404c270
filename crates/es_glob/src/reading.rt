//! From a text to the marks of a pattern.
ghost use Rattle.std.specs.Prelude.{◌≡◌, ◌&&◌, nat_le, length, IfOk};
ghost use Rattle.std.specs.Option.{option_map};
ghost use Rattle.std.specs.Str.{chars};
ghost use Rattle.es_glob.specs.Patterns.{can_begin, max_characters, mark_of, marks_of};

use crate::characters::{count, split_first};
use crate::mark::Mark;
use es_base::NoMemory;
use std::alloc::Global;

/// How many characters a pattern may have.
const MAX_CHARACTERS: usize = 255;

/// Whether a text has at least one character and at most 255, of which the first isn't `/`.
pub(crate) fn has_form(text: &str) -> bool
    ensures { result ≡ (can_begin (chars text.now) && nat_le (length (chars text.now)) max_characters) }
{
    can_begin(text) && count(text) <= MAX_CHARACTERS
}

// Whether there is a first character, and it isn't `/`.
fn can_begin(text: &str) -> bool
    ensures { result ≡ can_begin (chars text.now) }
{
    match split_first(text) {
        Some((first, _)) => first != '/',
        None => false,
    }
}

/// The marks that a text stands for; none where a lone `\` ends it.
pub(crate) fn read_marks(alloc: Global, text: &str) -> Result<Option<Vec<Mark>>, NoMemory>
    ensures { IfOk result (λ found. option_map (λ marks. marks.items) found ≡ marks_of (chars text.now)) }
{
    let mut marks = Vec::new(alloc);
    let mut rest = text;
    while let Some((c, behind)) = split_first(rest) {
        if c == '\\' {
            let Some((escaped, behind)) = split_first(behind) else {
                return Ok(None);
            };
            marks.push(Mark::Is(escaped))?;
            rest = behind;
        } else {
            marks.push(plain_mark(c))?;
            rest = behind;
        }
    }
    Ok(Some(marks))
}

// The mark of a character that no backslash precedes.
fn plain_mark(c: char) -> Mark
    ensures { result ≡ mark_of c }
{
    match c {
        '*' => Mark::Any,
        '?' => Mark::One,
        _ => Mark::Is(c),
    }
}
