//! Whether marks fit a text.
ghost use Rattle.std.specs.Prelude.{◌≡◌, ◌≤◌, ◌∷◌, length, false, IsTrue, IfSome, IfNone};
ghost use Rattle.std.specs.Str.{chars};
ghost use Rattle.es_glob.specs.declared.mark.Mark.TheVariants.{Any as AnyRun};
ghost use Rattle.es_glob.specs.Patterns.{fits_marks, takes, is_run_next};

use crate::characters::{is_empty, split_first};
use crate::mark::Mark;

// What is left of marks and of a text.
#[derive(Clone, Copy)]
struct Rest<'a> {
    marks: &'a [Mark],
    text: &'a str,
}

/// Whether the marks fit the whole text. The time is at most in proportion to the product of both lengths.
pub(crate) fn fits_marks(marks: &[Mark], text: &str) -> bool
    ensures { result ≡ fits_marks marks.now (chars text.now) }
{
    let Some(mut rest) = front(marks, text) else {
        return false;
    };
    while let Some((_run, marks)) = rest.marks.split_first() {
        match leftmost(marks, rest.text) {
            Some(behind) => rest = behind,
            None => return false,
        }
    }
    is_empty(rest.text)
}

// What is left behind the leftmost place of the text at which the segment of the marks fits.
fn leftmost<'a>(marks: &'a [Mark], text: &'a str) -> Option<Rest<'a>>
    ensures none { IfNone result (fits_marks (AnyRun ∷ marks.now) (chars text.now) ≡ false) }
    ensures same { IfSome result (λ rest. fits_marks (AnyRun ∷ marks.now) (chars text.now) ≡ fits_marks rest.marks.now (chars rest.text.now)) }
    ensures stops { IfSome result (λ rest. IsTrue (is_run_next rest.marks.now)) }
    ensures fewer { IfSome result (λ rest. length rest.marks.now ≤ length marks.now) }
{
    let mut rest = text;
    loop {
        if let Some(behind) = segment(marks, rest) {
            return Some(behind);
        }
        match split_first(rest) {
            Some((_, later)) => rest = later,
            None => return None,
        }
    }
}

// Takes a segment off the front of the text: the marks up to the next `Any`, or with no `Any` all marks, which then
// have to fit up to the text's end.
fn segment<'a>(marks: &'a [Mark], text: &'a str) -> Option<Rest<'a>>
    ensures none { IfNone result (fits_marks marks.now (chars text.now) ≡ false) }
    ensures same { IfSome result (λ rest. fits_marks (AnyRun ∷ marks.now) (chars text.now) ≡ fits_marks rest.marks.now (chars rest.text.now)) }
    ensures stops { IfSome result (λ rest. IsTrue (is_run_next rest.marks.now)) }
    ensures fewer { IfSome result (λ rest. length rest.marks.now ≤ length marks.now) }
{
    match front(marks, text) {
        Some(rest) if !rest.marks.is_empty() || is_empty(rest.text) => Some(rest),
        _ => None,
    }
}

// Takes the marks up to the next `Any` off the front of the text.
fn front<'a>(marks: &'a [Mark], text: &'a str) -> Option<Rest<'a>>
    ensures none { IfNone result (fits_marks marks.now (chars text.now) ≡ false) }
    ensures same { IfSome result (λ rest. fits_marks marks.now (chars text.now) ≡ fits_marks rest.marks.now (chars rest.text.now)) }
    ensures later { IfSome result (λ rest. IsTrue (fits_marks (AnyRun ∷ marks.now) (chars text.now)) → IsTrue (fits_marks (AnyRun ∷ rest.marks.now) (chars rest.text.now))) }
    ensures stops { IfSome result (λ rest. IsTrue (is_run_next rest.marks.now)) }
    ensures fewer { IfSome result (λ rest. length rest.marks.now ≤ length marks.now) }
{
    let mut rest = Rest { marks, text };
    while let Some((mark, marks)) = rest.marks.split_first() {
        if *mark == Mark::Any {
            return Some(rest);
        }
        match split_first(rest.text) {
            Some((c, text)) if takes(*mark, c) => rest = Rest { marks, text },
            _ => return None,
        }
    }
    Some(rest)
}

// Whether the mark takes the character.
fn takes(mark: Mark, c: char) -> bool
    ensures { result ≡ takes mark c }
{
    match mark {
        Mark::Is(wanted) => c == wanted,
        Mark::One => true,
        Mark::Any => false,
    }
}
