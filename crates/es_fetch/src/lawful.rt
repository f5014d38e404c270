//! What stands in what somebody may see.
ghost use Rattle.es_fetch.specs.Laws.{DocumentSeen, IndexSeen};

/// It does nothing. Its contract is these laws.
pub fn laws()
    ensures document_seen { DocumentSeen }
    ensures index_seen { IndexSeen }
{}
