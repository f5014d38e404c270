//! Patterns of which one has to fit.
ghost use Rattle.std.specs.Prelude.{◌≡◌, IfOk};
ghost use Rattle.es_glob.specs.Patterns.{any_fits};

use crate::pattern::Pattern;
use es_base::{Copied, NoMemory, Seq};
use std::alloc::Global;
use std::marker::Model;

/// Patterns in order.
pub type Patterns = Seq<Pattern>;

/// Patterns of which one has to fit. Contracts see the list of their texts.
#[derive(Debug, Drop)]
pub struct PatternSet {
    patterns: Patterns,
}

impl Model for PatternSet {
    ghost use Rattle.std.specs.Prelude.{List, ℕ};

    ghost Value = { List (List ℕ) };

    ghost view = { λ set. set.patterns };
}

impl PatternSet {
    /// The set of these patterns. It takes no memory.
    pub fn of(patterns: Patterns) -> PatternSet
        ensures { result ≡ patterns }
    {
        PatternSet { patterns }
    }

    /// The patterns, in their order.
    pub fn patterns(&self) -> &Patterns
        ensures { result.now ≡ self.now }
    {
        &self.patterns
    }

    /// Whether one of them fits the whole text. It takes no memory.
    pub fn matches(&self, text: &str) -> bool
        ensures { result ≡ any_fits self.now text.now }
    {
        self.patterns
            .as_slice()
            .iter()
            .any(|pattern| pattern.matches(text))
    }

    /// Equal patterns.
    pub fn copy(&self, alloc: Global) -> Result<PatternSet, NoMemory>
        ensures { IfOk result (λ copy. copy ≡ self.now) }
    {
        Ok(PatternSet {
            patterns: self.patterns.copy(alloc)?,
        })
    }
}

impl Copied for PatternSet {
    fn copied(&self, alloc: Global) -> Result<PatternSet, NoMemory> {
        self.copy(alloc)
    }
}
