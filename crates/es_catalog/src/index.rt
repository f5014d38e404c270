//! An index and its documents.
ghost use Rattle.std.specs.Prelude.{◌≡◌, ◌<◌, ◌^◌, IfOk, slice_get, option_map};
ghost use Rattle.std.specs.Option.{option_copied};
ghost use Rattle.std.specs.FinMap as map;
ghost use Rattle.es_catalog.specs.Catalog.{HasWritten};
ghost use Rattle.es_catalog.specs.Changes.{with_document, without_document, version_of, version_after, number_of};

use es_base::{NoMemory, Shared, Str};
use es_map::Map;
use es_mapping::Mapping;
use es_tree::Tree;
use std::alloc::Global;
use std::marker::Model;

/// A document that is kept.
#[derive(Drop)]
pub struct Stored {
    /// 1 at its first put, and one more at each further one; it begins again at 1 behind a delete.
    pub version: u64,
    /// An object.
    pub document: Shared<Tree>,
    /// The mapping of its index when it was put.
    pub written: Shared<Mapping>,
}

/// The place of its creation, its mapping, and its documents by their ids. A change makes a new index, which shares with the
/// old one all that they have in common.
#[derive(Drop)]
pub struct Index {
    incarnation: u64,
    mapping: Shared<Mapping>,
    documents: Map<Stored>,
}

impl Model for Index {
    ghost use Rattle.es_catalog.specs.Catalog.{IndexValue};
    ghost use Rattle.es_catalog.specs.Codes.{index_code};
    ghost use Rattle.es_catalog.specs.Views.{index_of, IsKept};

    ghost Value = { IndexValue };

    ghost coded = { index_code };

    ghost view = { λ index. index_of index.incarnation index.mapping index.documents };

    ghost invariant = { λ index. IsKept index.incarnation index.mapping index.documents };
}

impl Index {
    /// An index without documents, created at this place. It takes no memory.
    pub(crate) fn new(incarnation: u64, mapping: Shared<Mapping>) -> Index
        ensures { result ≡ record { incarnation = incarnation; mapping = mapping; documents = map.empty } }
    {
        Index {
            incarnation,
            mapping,
            documents: Map::empty(),
        }
    }

    /// The place of the change that created it.
    pub fn incarnation(&self) -> u64
        ensures { result ≡ self.now.incarnation }
    {
        self.incarnation
    }

    /// Its mapping.
    pub fn mapping(&self) -> &Mapping
        ensures { result.now ≡ self.now.mapping }
    {
        self.mapping.get()
    }

    /// How many documents it has.
    pub fn len(&self) -> usize
        ensures { result ≡ map.len self.now.documents }
    {
        self.documents.len()
    }

    /// The document of this id. It was written under a mapping within the index's.
    pub fn get(&self, id: &str) -> Option<&Stored>
        ensures document { option_copied result ≡ map.get self.now.documents id.now }
        ensures written { HasWritten self.now }
    {
        self.documents.get(id)
    }

    /// The id and the document at a place, counted from 0 in the byte order of ids.
    pub fn at(&self, place: usize) -> Option<(&str, &Stored)>
        ensures document { option_map (λ e. (e.0.now, e.1.now)) result ≡ slice_get (map.entries self.now.documents) place }
    {
        self.documents.at(place)
    }

    /// This index with the document at the id, written under the index's mapping.
    pub(crate) fn with(
        &self,
        alloc: Global,
        id: &Str,
        document: &Shared<Tree>,
    ) -> Result<Index, NoMemory>
        requires { number_of (version_of (map.get self.now.documents id.now)) < 2 ^ 63 }
        ensures { IfOk result (λ index. index ≡ with_document self.now id.now document.now) }
    {
        self.mapping.get().laws();
        let stored = Stored {
            version: version_after(self.documents.get(id.text())),
            document: document.share()?,
            written: self.mapping.share()?,
        };
        Ok(Index {
            incarnation: self.incarnation,
            mapping: self.mapping.share()?,
            documents: self.documents.with(alloc, id.copy(alloc)?, stored)?,
        })
    }

    /// This index without the document of the id.
    pub(crate) fn without(&self, alloc: Global, id: &str) -> Result<Index, NoMemory>
        ensures { IfOk result (λ index. index ≡ without_document self.now id.now) }
    {
        Ok(Index {
            incarnation: self.incarnation,
            mapping: self.mapping.share()?,
            documents: self.documents.without(alloc, id)?,
        })
    }
}

// The version after a put over this document, or over none.
fn version_after(stored: Option<&Stored>) -> u64
    requires { number_of (version_of (option_copied stored)) < 2 ^ 63 }
    ensures { result ≡ version_after (version_of (option_copied stored.entry)) }
{
    match stored {
        Some(stored) => stored.version + 1,
        None => 1,
    }
}
