//! Changes of indices and documents.
use es_base::{Shared, Str};
use es_mapping::Mapping;
use es_tree::Tree;

/// One change of the indices or of their documents.
#[derive(Drop)]
pub enum DocChange {
    /// An index of this name with this mapping, and no documents.
    CreateIndex {
        name: Str,
        mapping: Shared<Mapping>,
    },
    /// The index of this name goes, with its documents.
    DeleteIndex {
        name: Str,
    },
    /// A document by its index and its id, in place of the one that it had.
    Put {
        index: Str,
        id: Str,
        document: Shared<Tree>,
    },
    /// The document of this index and id goes.
    Delete {
        index: Str,
        id: Str,
    },
}
