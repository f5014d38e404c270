//! All indices by their names.
ghost use Rattle.std.specs.Prelude.{◌≡◌, ◌<◌, ◌^◌, IfOk};
ghost use Rattle.std.specs.Option.{option_copied};
ghost use Rattle.std.specs.FinMap as map;
ghost use Rattle.es_catalog.specs.Catalog.{document_at, fitting, stands, HasWrittenAt};
ghost use Rattle.es_catalog.specs.Changes.{with_doc, put_into, delete_from, version_of, number_of, CanGrow};

use crate::change::DocChange;
use crate::index::{Index, Stored};
use es_base::{NoMemory, Shared, Str, Strs};
use es_glob::Pattern;
use es_map::Map;
use es_tree::Tree;
use std::alloc::Global;
use std::marker::Model;

/// The indices by their names. A change makes a new catalog, which shares with the old one all that they have in common.
#[derive(Drop)]
pub struct Catalog {
    indices: Map<Index>,
}

impl Model for Catalog {
    ghost use Rattle.es_map.specs.Entries.{IsRising};
    ghost use Rattle.es_catalog.specs.Catalog.{CatalogValue};
    ghost use Rattle.es_catalog.specs.Codes.{catalog_code};
    ghost use Rattle.es_map.specs.Views.{map_of};

    ghost Value = { CatalogValue };

    ghost coded = { catalog_code };

    ghost view = { λ catalog. map_of catalog.indices };

    ghost invariant = { λ catalog. IsRising catalog.indices };
}

impl Catalog {
    /// No indices. It takes no memory.
    pub fn opening() -> Catalog
        ensures { result ≡ map.empty }
    {
        Catalog {
            indices: Map::empty(),
        }
    }

    /// The same catalog once more, whatever its size.
    pub fn share(&self) -> Result<Catalog, NoMemory>
        ensures { IfOk result (λ share. share ≡ self.now) }
    {
        Ok(Catalog {
            indices: self.indices.share()?,
        })
    }

    /// The index of this name.
    pub fn index(&self, name: &str) -> Option<&Index>
        ensures { option_copied result ≡ map.get self.now name.now }
    {
        self.indices.get(name)
    }

    /// The document of this index and id. It was written under a mapping within the index's.
    pub fn find(&self, name: &str, id: &str) -> Option<&Stored>
        ensures document { option_copied result ≡ document_at self.now name.now id.now }
        ensures written { HasWrittenAt self.now name.now }
    {
        match self.index(name) {
            Some(index) => index.get(id),
            None => None,
        }
    }

    /// The names of the indices that fit the pattern, in byte order.
    pub fn fitting(&self, alloc: Global, pattern: &Pattern) -> Result<Strs, NoMemory>
        ensures { IfOk result (λ names. names ≡ fitting self.now pattern.now) }
    {
        let mut names = Strs::empty(alloc);
        for place in 0..self.indices.len() {
            if let Some((name, _index)) = self.indices.at(place) {
                if pattern.matches(name) {
                    names.push(Str::of(alloc, name)?)?;
                }
            }
        }
        Ok(names)
    }

    /// Whether an index of this incarnation stands.
    pub fn stands(&self, incarnation: u64) -> bool
        ensures { result ≡ stands self.now incarnation }
    {
        for place in 0..self.indices.len() {
            if let Some((_name, index)) = self.indices.at(place) {
                if index.incarnation() == incarnation {
                    return true;
                }
            }
        }
        false
    }

    /// The catalog after a change, which is the accepted change with this number. It copies no document, and costs the same
    /// whoever holds the old catalog.
    pub fn with(&self, alloc: Global, change: &DocChange, number: u64) -> Result<Catalog, NoMemory>
        requires { CanGrow self.now change.now }
        ensures { IfOk result (λ catalog. catalog ≡ with_doc self.now number change.now) }
    {
        match change {
            DocChange::CreateIndex { name, mapping } => {
                self.with_index(alloc, name, Index::new(number, mapping.share()?))
            }
            DocChange::DeleteIndex { name } => self.without_index(alloc, name.text()),
            DocChange::Put {
                index,
                id,
                document,
            } => self.put(alloc, index, id, document),
            DocChange::Delete { index, id } => self.delete(alloc, index, id.text()),
        }
    }

    // This catalog with the document at the id of the index, if the index stands.
    fn put(
        &self,
        alloc: Global,
        name: &Str,
        id: &Str,
        document: &Shared<Tree>,
    ) -> Result<Catalog, NoMemory>
        requires { number_of (version_of (document_at self.now name.now id.now)) < 2 ^ 63 }
        ensures { IfOk result (λ catalog. catalog ≡ put_into self.now name.now (map.get self.now name.now) id.now document.now) }
    {
        match self.index(name.text()) {
            Some(index) => self.with_index(alloc, name, index.with(alloc, id, document)?),
            None => self.share(),
        }
    }

    // This catalog without the document of the id in the index.
    fn delete(&self, alloc: Global, name: &Str, id: &str) -> Result<Catalog, NoMemory>
        ensures { IfOk result (λ catalog. catalog ≡ delete_from self.now name.now (map.get self.now name.now) id.now) }
    {
        let Some(index) = self.index(name.text()) else {
            return self.share();
        };
        self.with_index(alloc, name, index.without(alloc, id)?)
    }

    // This catalog with the index at the name.
    fn with_index(&self, alloc: Global, name: &Str, index: Index) -> Result<Catalog, NoMemory>
        ensures { IfOk result (λ catalog. catalog ≡ map.insert self.now name.now index) }
    {
        Ok(Catalog {
            indices: self.indices.with(alloc, name.copy(alloc)?, index)?,
        })
    }

    // This catalog without the index of the name.
    fn without_index(&self, alloc: Global, name: &str) -> Result<Catalog, NoMemory>
        ensures { IfOk result (λ catalog. catalog ≡ map.remove self.now name.now) }
    {
        Ok(Catalog {
            indices: self.indices.without(alloc, name)?,
        })
    }
}
