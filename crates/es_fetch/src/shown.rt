//! A document as it is shown.
use es_base::Shared;
use es_tree::Tree;

/// What is shown of a document.
#[derive(Drop)]
pub struct Shown {
    pub version: u64,
    /// The document with its granted fields alone.
    pub document: Shared<Tree>,
}
