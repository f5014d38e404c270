//! Truth values by their places.
ghost use Rattle.std.specs.Prelude.{◌≡◌, ◌↔◌, ◌<◌, [], length, true, false, not, map, replicate, slice_get, slice_set, count_by, Some, IsTrue, IfOk};
ghost use Rattle.es_bits.specs.Pairs.{both, either};
ghost use Rattle.es_bits.specs.Places.{true_places};

use crate::words::{and_words, clear_past, count_words, invert_words, or_words, place_in_words};
use es_base::{Copied, NoMemory};
use std::alloc::Global;
use std::marker::Model;

/// Truth values in order, as many as when it was made.
#[derive(Debug, Drop)]
pub struct Bits {
    // The lowest bit of the first word is the first truth value. The bits past the last truth value are 0.
    words: Vec<u64>,
    len: usize,
}

impl Model for Bits {
    ghost use Rattle.std.specs.Prelude.{List, Bool, take};
    ghost use Rattle.es_bits.specs.Words.{bits_of, IsTidy};

    ghost Value = { List Bool };

    ghost view = { λ bits. take bits.len (bits_of bits.words.items) };

    ghost invariant = { λ bits. IsTidy bits.words.items bits.len };
}

impl Bits {
    /// `len` times false.
    pub fn zeros(alloc: Global, len: usize) -> Result<Bits, NoMemory>
        ensures { IfOk result (λ bits. bits ≡ replicate len false) }
    {
        let words = vec![in alloc; 0u64; len.div_ceil(64)]?;
        Ok(Bits { words, len })
    }

    /// `len` times true.
    pub fn ones(alloc: Global, len: usize) -> Result<Bits, NoMemory>
        ensures { IfOk result (λ bits. bits ≡ replicate len true) }
    {
        let mut words = vec![in alloc; u64::MAX; len.div_ceil(64)]?;
        clear_past(&mut words, len);
        Ok(Bits { words, len })
    }

    /// An equal list.
    pub fn copy(&self, alloc: Global) -> Result<Bits, NoMemory>
        ensures { IfOk result (λ copy. copy ≡ self.now) }
    {
        Ok(Bits {
            words: Vec::from_slice(alloc, &self.words)?,
            len: self.len,
        })
    }

    /// How many truth values there are.
    pub fn len(&self) -> usize
        ensures { result ≡ length self.now }
    {
        self.len
    }

    /// Whether there are none.
    pub fn is_empty(&self) -> bool
        ensures { IsTrue result ↔ (self.now ≡ []) }
    {
        self.len() == 0
    }

    /// The value at a place, counted from 0, becomes true. The others stay.
    pub fn set(&mut self, at: usize)
        requires { at < length self.old }
        ensures { self.new ≡ slice_set self.old at true }
    {
        self.words[at / 64] |= 1 << (at % 64);
    }

    /// The value at a place, counted from 0.
    pub fn get(&self, at: usize) -> bool
        requires { at < length self.now }
        ensures { slice_get self.now at ≡ Some result }
    {
        self.words[at / 64] >> (at % 64) & 1 == 1
    }

    /// Place by place, whether both are true. The lists are equally long.
    pub fn and_with(&mut self, other: &Bits)
        requires { length self.old ≡ length other.now }
        ensures { self.new ≡ both self.old other.now }
    {
        and_words(&mut self.words, &other.words);
    }

    /// Place by place, whether one of them is true. The lists are equally long.
    pub fn or_with(&mut self, other: &Bits)
        requires { length self.old ≡ length other.now }
        ensures { self.new ≡ either self.old other.now }
    {
        or_words(&mut self.words, &other.words);
    }

    /// Place by place, the other value.
    pub fn invert(&mut self)
        ensures { self.new ≡ map not self.old }
    {
        invert_words(&mut self.words);
        clear_past(&mut self.words, self.len);
    }

    /// How many are true.
    pub fn count(&self) -> usize
        ensures { result ≡ count_by (λ truth. truth) self.now }
    {
        count_words(&self.words)
    }

    /// The place of the `k`-th true value, both counted from 0 in ascending order. There is none where at most `k` are true.
    pub fn member(&self, k: usize) -> Option<usize>
        ensures { result ≡ slice_get (true_places self.now) k }
    {
        place_in_words(&self.words, k)
    }
}

impl Copied for Bits {
    fn copied(&self, alloc: Global) -> Result<Bits, NoMemory> {
        self.copy(alloc)
    }
}
