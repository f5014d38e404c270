//! Named values in the order of their names.
ghost use Rattle.std.specs.Prelude.{◌≡◌, ◌↔◌, [], ◌∷◌, ◌++◌, ◌<◌, length, slice_get, Some, IsTrue, IfOk, OnErr, map, if◌then◌else◌};
ghost use Rattle.std.specs.Option.{option_copied};
ghost use Rattle.es_tree.specs.Rising.{is_rising, is_last, name_of};
ghost use Rattle.es_tree.specs.Find.{value_named};

use crate::tree::Named;
use es_base::{Copied, NoMemory, Seq};
use std::alloc::Global;
use std::marker::Model;

/// Distinct names in the order of their bytes, each with its value.
#[derive(Debug, Drop)]
pub struct Ordered<V> {
    items: Vec<Named<V>>,
}

impl<V> Model for Ordered<V> {
    ghost use Rattle.std.specs.Prelude.{List, IsTrue, map};
    ghost use Rattle.es_tree.specs.declared.tree.Named.{Named};
    ghost use Rattle.es_tree.specs.Rising.{named_code, is_rising, name_of};
    ghost use Rattle.std.specs.Coded.{coded_list};

    ghost Value = { List (Named V) };

    ghost coded = { coded_list (named_code V.code) };

    ghost view = { λ ordered. ordered.items.items };

    ghost invariant = { λ ordered. IsTrue (is_rising (map name_of ordered.items.items)) };
}

impl<V> Ordered<V> {
    /// No names. It takes no memory.
    pub fn empty(alloc: Global) -> Ordered<V>
        ensures { result ≡ [] }
    {
        Ordered {
            items: Vec::new(alloc),
        }
    }

    /// Named values that are in order already. It takes no memory.
    pub fn of(items: Seq<Named<V>>) -> Ordered<V>
        requires { IsTrue (is_rising (map name_of items)) }
        ensures { result ≡ items }
    {
        Ordered {
            items: items.into_vec(),
        }
    }

    /// The named values as a slice.
    pub fn as_slice(&self) -> &[Named<V>]
        ensures items { result.now ≡ self.now }
        ensures rising { IsTrue (is_rising (map name_of self.now)) }
    {
        self.items.as_slice()
    }

    /// How many names there are.
    pub fn len(&self) -> usize
        ensures { result ≡ length self.now }
    {
        self.items.len()
    }

    /// Whether there are none.
    pub fn is_empty(&self) -> bool
        ensures { IsTrue result ↔ (self.now ≡ []) }
    {
        self.items.is_empty()
    }

    /// The named value at a place, counted from 0.
    pub fn get(&self, at: usize) -> &Named<V>
        requires { at < length self.now }
        ensures { slice_get self.now at ≡ Some result.now }
    {
        &self.items[at]
    }

    /// The value of this name.
    pub fn find(&self, name: &str) -> Option<&V>
        ensures { option_copied result ≡ value_named name.now self.now }
    {
        let items = self.items.as_slice();
        match items.binary_search_by(|item| item.name.text().cmp(name)) {
            Ok(at) => Some(&items[at].value),
            Err(_) => None,
        }
    }
}

impl<V: Drop> Ordered<V> {
    /// One named value more, if its name comes after all that are there, and whether it was taken.
    pub fn push(&mut self, item: Named<V>) -> Result<bool, NoMemory>
        ensures taken { IfOk result (λ taken. taken ≡ is_last item.name (map name_of self.old)) }
        ensures ok { IfOk result (λ taken. self.new ≡ (if taken then self.old ++ item ∷ [] else self.old)) }
        ensures err { OnErr result (self.new ≡ self.old) }
    {
        if !comes_last(self.items.as_slice(), item.name.text()) {
            return Ok(false);
        }
        self.items.push(item)?;
        Ok(true)
    }
}

// Whether the name comes after all of these.
fn comes_last<V>(items: &[Named<V>], name: &str) -> bool
    requires { IsTrue (is_rising (map name_of items.now)) }
    ensures { result ≡ is_last name.now (map name_of items.now) }
{
    match items.last() {
        Some(last) => last.name.text() < name,
        None => true,
    }
}

impl<V: Copied + Drop> Ordered<V> {
    /// The same names with equal values.
    pub fn copy(&self, alloc: Global) -> Result<Ordered<V>, NoMemory>
        ensures { IfOk result (λ copy. copy ≡ self.now) }
    {
        let mut copies = Vec::with_capacity(alloc, self.items.len())?;
        for item in self.items.as_slice() {
            copies.push(item.copied(alloc)?)?;
        }
        Ok(Ordered { items: copies })
    }
}

impl<V: Copied + Drop> Copied for Named<V> {
    fn copied(&self, alloc: Global) -> Result<Named<V>, NoMemory> {
        Ok(Named {
            name: self.name.copy(alloc)?,
            value: self.value.copied(alloc)?,
        })
    }
}

impl<V: Copied + Drop> Copied for Ordered<V> {
    fn copied(&self, alloc: Global) -> Result<Ordered<V>, NoMemory> {
        self.copy(alloc)
    }
}
