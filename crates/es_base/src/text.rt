//! A text.
ghost use Rattle.std.specs.Prelude.{◌≡◌, ◌++◌, [], length, encode_utf8, string_bytes, IfOk, OnOk, OnErr, IsTrue, ◌↔◌};

use crate::{Copied, NoMemory, Seq};
use std::alloc::Global;
use std::marker::Model;

/// A text in UTF-8. Contracts see the list of its bytes.
#[derive(Debug, Drop)]
pub struct Str {
    text: String,
}

/// Texts in order.
pub type Strs = Seq<Str>;

impl Model for Str {
    ghost use Rattle.std.specs.Prelude.{List, ℕ, string_bytes};

    ghost Value = { List ℕ };

    ghost view = { λ text. string_bytes text.text };
}

impl Str {
    /// The empty text. It takes no memory.
    pub fn empty(alloc: Global) -> Str
        ensures { result ≡ [] }
    {
        Str {
            text: String::new(alloc),
        }
    }

    /// A text of its own.
    pub fn of(alloc: Global, text: &str) -> Result<Str, NoMemory>
        ensures { IfOk result (λ copy. copy ≡ text.now) }
    {
        Ok(Str {
            text: String::from_str(alloc, text)?,
        })
    }

    /// The text of a `String`. It takes no memory.
    pub fn from_string(text: String) -> Str
        ensures { result ≡ string_bytes text }
    {
        Str { text }
    }

    /// How many bytes it has.
    pub fn len(&self) -> usize
        ensures { result ≡ length self.now }
    {
        self.text.len()
    }

    /// Whether it has no bytes.
    pub fn is_empty(&self) -> bool
        ensures { IsTrue result ↔ (self.now ≡ []) }
    {
        self.text.is_empty()
    }

    /// The text, borrowed.
    pub fn text(&self) -> &str
        ensures { result.now ≡ self.now }
    {
        self.text.as_str()
    }

    /// One character more, at the end.
    pub fn push(&mut self, c: char) -> Result<(), NoMemory>
        ensures ok { OnOk result (self.new ≡ self.old ++ encode_utf8 c) }
        ensures err { OnErr result (self.new ≡ self.old) }
    {
        self.text.push(c)?;
        Ok(())
    }

    /// A text more, at the end.
    pub fn push_str(&mut self, text: &str) -> Result<(), NoMemory>
        ensures ok { OnOk result (self.new ≡ self.old ++ text.now) }
        ensures err { OnErr result (self.new ≡ self.old) }
    {
        self.text.push_str(text)?;
        Ok(())
    }

    /// An equal text.
    pub fn copy(&self, alloc: Global) -> Result<Str, NoMemory>
        ensures { IfOk result (λ copy. copy ≡ self.now) }
    {
        Str::of(alloc, self.text())
    }
}

impl Copied for Str {
    fn copied(&self, alloc: Global) -> Result<Str, NoMemory> {
        self.copy(alloc)
    }
}
