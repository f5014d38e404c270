//! A pattern.
ghost use Rattle.std.specs.Prelude.{◌≡◌, ◌↔◌, false, Err, IsTrue, IfOk, OnOk};
ghost use Rattle.es_glob.specs.Patterns.{is_pattern, fits, FitsText};

use crate::fault::PatternFault;
use crate::mark::Mark;
use crate::matching::fits_marks;
use crate::reading::{has_form, read_marks};
use es_base::{Copied, NoMemory, Str};
use std::alloc::Global;
use std::marker::Model;

/// A pattern over names: `*` stands for any run of characters, also none, `?` for exactly one, and `\` makes the
/// next character stand for itself. Contracts see the bytes of its text.
#[derive(Debug, Drop)]
pub struct Pattern {
    text: Str,
    marks: Vec<Mark>,
}

impl Model for Pattern {
    ghost use Rattle.std.specs.Prelude.{◌≡◌, List, ℕ, Some, IsTrue};
    ghost use Rattle.std.specs.Str.{chars};
    ghost use Rattle.es_glob.specs.Patterns.{is_pattern, marks_of};

    ghost Value = { List ℕ };

    ghost view = { λ pattern. pattern.text };

    ghost invariant = { λ pattern. (marks_of (chars pattern.text) ≡ Some pattern.marks.items) × IsTrue (is_pattern pattern.text) };
}

impl Pattern {
    /// The pattern of a text, of 1 to 255 characters that don't begin with `/` and don't end in a lone `\`.
    pub fn read(alloc: Global, text: &str) -> Result<Pattern, PatternFault>
        ensures text { IfOk result (λ pattern. pattern ≡ text.now) }
        ensures pattern { OnOk result (IsTrue (is_pattern text.now)) }
        ensures bad { result ≡ Err PatternFault.BadPattern → is_pattern text.now ≡ false }
    {
        if !has_form(text) {
            return Err(PatternFault::BadPattern);
        }
        match read_marks(alloc, text)? {
            Some(marks) => Ok(Pattern {
                text: Str::of(alloc, text)?,
                marks,
            }),
            None => Err(PatternFault::BadPattern),
        }
    }

    /// Its text.
    pub fn text(&self) -> &str
        ensures text { result.now ≡ self.now }
        ensures pattern { IsTrue (is_pattern self.now) }
    {
        self.text.text()
    }

    /// Whether it fits the whole text. It takes no memory.
    pub fn matches(&self, text: &str) -> bool
        ensures value { result ≡ fits self.now text.now }
        ensures relation { IsTrue result ↔ FitsText self.now text.now }
    {
        fits_marks(self.marks.as_slice(), text)
    }

    /// An equal pattern.
    pub fn copy(&self, alloc: Global) -> Result<Pattern, NoMemory>
        ensures { IfOk result (λ copy. copy ≡ self.now) }
    {
        let text = self.text.copy(alloc)?;
        let marks = Vec::from_slice(alloc, self.marks.as_slice())?;
        Ok(Pattern { text, marks })
    }
}

impl Copied for Pattern {
    fn copied(&self, alloc: Global) -> Result<Pattern, NoMemory> {
        self.copy(alloc)
    }
}
