//! The cache.
ghost use Rattle.std.specs.Prelude.{◌≡◌, ◌≢◌, ◌+◌, ◌-◌, ◌^◌, ◌<◌, ◌≤◌, length, is_some, IfOk, OnOk, OnErr, None};
ghost use Rattle.std.specs.Option.{option_copied};
ghost use Rattle.std.specs.List.{IsDistinct};
ghost use Rattle.std.specs.List.Retain.{IsFiltered};
ghost use Rattle.std.specs.Map.{lookup, keys_of};
ghost use Rattle.std.specs.Borrow.{sem};
ghost use Rattle.es_cache.specs.Cache.{no_entries, with_entries};
ghost use Rattle.es_cache.specs.Entries.{brought_first, put_first, without_keys};
ghost use Rattle.es_cache.specs.Publishing.{answer_at};
ghost use Rattle.es_cache.specs.KeyTests.{AnswersAt};

use crate::published::Published;
use crate::sharing::Share;
use es_base::{NoMemory, Seq};
use lru::LruCache;
use std::alloc::Global;
use std::hash::Hash;
use std::marker::Model;
use std::num::NonZeroUsize;

/// Keys in order.
pub type Keys<K> = Seq<K>;

/// At most so many entries, and how often something was invalidated. Contracts see the entries, the most recently used first, the count and the capacity.
///
/// Keys are hashed with a fixed seed, so keys that an attacker picks can make each call take time linear in the number of entries.
#[derive(Drop)]
pub struct Counted<K: Eq + Hash, V> {
    cache: LruCache<K, V>,
    count: u64,
}

impl<K: Eq + Hash, V> Model for Counted<K, V> {
    ghost use Rattle.es_cache.specs.Cache.{Cache, cache_code};

    ghost Value = { Cache K V };

    ghost coded = { cache_code K.code V.code };

    ghost view = { λ counted. record { entries = counted.cache.entries; count = counted.count; capacity = counted.cache.cap } };
}

impl<K: Eq + Hash, V> Counted<K, V> {
    ghost use Rattle.es_cache.specs.Lending.{ends_with};

    /// No entries, and nothing invalidated yet. The capacity is in entries.
    pub fn new(alloc: Global, capacity: usize) -> Result<Counted<K, V>, NoMemory>
        requires { 1 ≤ capacity }
        ensures { IfOk result (λ counted. counted ≡ no_entries capacity) }
    {
        let capacity = NonZeroUsize::new(capacity).unwrap();
        Ok(Counted {
            cache: LruCache::new(alloc, capacity)?,
            count: 0,
        })
    }

    /// Whether there is an entry with an equal key. The order stays.
    pub fn has(&self, key: &K) -> bool
        ensures { result ≡ is_some (lookup (K.eq key.now) self.now.entries) }
    {
        self.cache.contains(key)
    }

    /// The value of the entry with an equal key. The order stays.
    pub fn peek(&self, key: &K) -> Option<&V>
        ensures { option_copied result ≡ lookup (K.eq key.now) self.now.entries }
    {
        self.cache.peek(key)
    }

    /// The value of the entry with an equal key, which comes first.
    pub fn find(&mut self, key: &K) -> Option<&V>
        ensures* first { sem 𝓛 (ends_with K.row V.row K.Hash self.entry
            (brought_first (K.eq key.now) self.old.entries)) }
        ensures value { option_copied result ≡ lookup (K.eq key.now) self.old.entries }
    {
        self.cache.get(key)
    }

    /// Adds one to the count, after something was invalidated.
    pub fn raise(&mut self)
        requires { self.old.count < 2 ^ 64 - 1 }
        ensures { self.new ≡ record self.old { count = self.old.count + 1 } }
    {
        self.count += 1;
    }

    /// How often something was invalidated.
    pub fn count(&self) -> u64
        ensures { result ≡ self.now.count }
    {
        self.count
    }

    /// How many entries there are.
    pub fn len(&self) -> usize
        ensures len { result ≡ length self.now.entries }
        ensures within { length self.now.entries ≤ self.now.capacity }
        ensures distinct { IsDistinct K.eq (keys_of self.now.entries) }
    {
        self.cache.len()
    }
}

impl<K: Eq + Hash + Drop, V: Drop> Counted<K, V> {
    /// Makes an entry the first, if nothing was invalidated since its loader began, which was at this count.
    ///
    /// An equal key that is there stays and takes the value. Where there is none, the last entry of a full cache is dropped. The cache takes its memory from the allocator that it was made with.
    pub fn publish(
        &mut self,
        _alloc: Global,
        began: u64,
        key: K,
        value: V,
    ) -> Result<Published, NoMemory>
        ensures answer { IfOk result (λ answer. answer ≡ answer_at began self.old.count) }
        ensures put { began ≡ self.old.count → OnOk result (self.new
            ≡ with_entries self.old (put_first K.eq self.old.capacity key value self.old.entries)) }
        ensures stale { began ≢ self.old.count → self.new ≡ self.old }
        ensures err { OnErr result (self.new ≡ self.old) }

        // Only a new key at the count that stands asks for memory.
        ensures asks_at { OnErr result (began ≡ self.old.count) }
        ensures asks_for { OnErr result (lookup (K.eq key) self.old.entries ≡ None) }
    {
        if began != self.count {
            return Ok(Published::Stale {
                began,
                stands: self.count,
            });
        }
        self.cache.put(key, value)?;
        Ok(Published::Put)
    }

    /// Takes out the entries with these keys. The order of the others stays.
    pub fn drop_all(&mut self, keys: &Keys<K>)
        ensures { self.new ≡ with_entries self.old (without_keys K.eq keys.now self.old.entries) }
    {
        if self.len() == 0 {
            return;
        }
        for key in keys.as_slice() {
            drop(self.cache.pop_entry(key));
        }
    }
}

impl<K: Eq + Hash + Share + Drop, V> Counted<K, V> {
    /// The keys for which the test is true, in the order of the entries.
    pub fn doomed<F: Fn(&K) -> bool>(&self, alloc: Global, test: F) -> Result<Keys<K>, NoMemory>
        requires { F.IsAlwaysCallable test }
        ensures { IfOk result (λ keys.
            IsFiltered (AnswersAt F.Fn) test (keys_of self.now.entries) keys) }
    {
        let mut keys = Vec::new(alloc);
        for (key, _value) in &self.cache {
            if test(key) {
                keys.push(key.share(alloc)?)?;
            }
        }
        Ok(Seq::from_vec(keys))
    }
}
