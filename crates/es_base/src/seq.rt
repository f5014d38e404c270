//! A list that owns its items.
ghost use Rattle.std.specs.Prelude.{◌≡◌, [], ◌∷◌, ◌++◌, ◌<◌, length, slice_get, Some, IfOk, OnOk, OnErr, IsTrue, ◌↔◌};

use crate::NoMemory;
use std::alloc::Global;
use std::marker::Model;

/// Items in order. Contracts see the list of the items, and neither capacity nor address.
#[derive(Debug, Drop)]
pub struct Seq<T> {
    items: Vec<T>,
}

impl<T> Model for Seq<T> {
    ghost use Rattle.std.specs.Prelude.{List};
    ghost use Rattle.std.specs.Coded.{coded_list};

    ghost Value = { List T };

    ghost coded = { coded_list T.code };

    ghost view = { λ seq. seq.items.items };
}

impl<T> Seq<T> {
    /// No items. It takes no memory.
    pub fn empty(alloc: Global) -> Seq<T>
        ensures { result ≡ [] }
    {
        Seq {
            items: Vec::new(alloc),
        }
    }

    /// The items of a vector. It takes no memory.
    pub fn from_vec(items: Vec<T>) -> Seq<T>
        ensures { result ≡ items.items }
    {
        Seq { items }
    }

    /// The vector of the items. It takes no memory.
    pub fn into_vec(self) -> Vec<T>
        ensures { result.items ≡ self }
    {
        let Seq { items } = self;
        items
    }

    /// The items as a slice.
    pub fn as_slice(&self) -> &[T]
        ensures { result.now ≡ self.now }
    {
        self.items.as_slice()
    }

    /// How many items there are.
    pub fn len(&self) -> usize
        ensures { result ≡ length self.now }
    {
        self.items.len()
    }

    /// Whether there are none.
    pub fn is_empty(&self) -> bool
        ensures { IsTrue result ↔ (self.now ≡ []) }
    {
        self.items.is_empty()
    }

    /// The item at a place, counted from 0.
    pub fn get(&self, at: usize) -> &T
        requires { at < length self.now }
        ensures { slice_get self.now at ≡ Some result.now }
    {
        &self.items[at]
    }
}

impl<T: Drop> Seq<T> {
    /// One item more, at the end.
    pub fn push(&mut self, item: T) -> Result<(), NoMemory>
        ensures ok { OnOk result (self.new ≡ self.old ++ item ∷ []) }
        ensures err { OnErr result (self.new ≡ self.old) }
    {
        self.items.push(item)?;
        Ok(())
    }
}

impl<T: Copy> Seq<T> {
    /// The items of a slice.
    pub fn from_slice(alloc: Global, items: &[T]) -> Result<Seq<T>, NoMemory>
        ensures { IfOk result (λ seq. seq ≡ items.now) }
    {
        Ok(Seq {
            items: Vec::from_slice(alloc, items)?,
        })
    }

    /// All items of a slice more, at the end.
    pub fn extend(&mut self, items: &[T]) -> Result<(), NoMemory>
        ensures ok { OnOk result (self.new ≡ self.old ++ items.now) }
        ensures err { OnErr result (self.new ≡ self.old) }
    {
        self.items.extend_from_slice(items)?;
        Ok(())
    }
}

/// What can be copied, where memory lasts.
pub trait Copied {
    /// An equal value.
    fn copied(&self, alloc: Global) -> Result<Self, NoMemory>
        ensures { IfOk result (λ copy. copy ≡ self.now) };
}

impl Copied for u8 {
    fn copied(&self, _alloc: Global) -> Result<u8, NoMemory> {
        Ok(*self)
    }
}

impl Copied for u64 {
    fn copied(&self, _alloc: Global) -> Result<u64, NoMemory> {
        Ok(*self)
    }
}

impl<T: Copied + Drop> Seq<T> {
    /// Equal items.
    pub fn copy(&self, alloc: Global) -> Result<Seq<T>, NoMemory>
        ensures { IfOk result (λ copies. copies ≡ self.now) }
    {
        let mut copies = Vec::with_capacity(alloc, self.items.len())?;
        for item in self.items.as_slice() {
            copies.push(item.copied(alloc)?)?;
        }
        Ok(Seq { items: copies })
    }
}

impl<T: Copied + Drop> Copied for Seq<T> {
    fn copied(&self, alloc: Global) -> Result<Seq<T>, NoMemory> {
        self.copy(alloc)
    }
}
