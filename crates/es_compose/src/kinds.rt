//! What a person is permitted.
use es_base::{Seq, Shared};
use es_glob::FieldRule;
use es_query::Query;

/// Queries in order. Permissions share their queries, so that none is copied.
pub type DocQueries = Seq<Shared<Query>>;

/// A condition on documents.
#[derive(Drop)]
pub enum DocClause {
    /// Every document.
    All,
    /// The documents for which one of the queries holds.
    Any(DocQueries),
}

/// Two clauses, which both have to permit a document.
#[derive(Drop)]
pub struct DocRule {
    pub first: DocClause,
    pub second: DocClause,
}

/// What a person is permitted for an action on an index.
#[derive(Drop)]
pub struct Permission {
    /// Whether the action is granted at all.
    pub granted: bool,
    /// On which documents.
    pub docs: DocRule,
    /// Which of their fields are seen.
    pub fields: FieldRule,
}
