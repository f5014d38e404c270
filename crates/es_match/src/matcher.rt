//! Queries made ready for documents of one mapping.
use crate::asking::Asked;
use es_base::Str;
use es_query::Clauses;
use es_value::FieldType;

/// What a query asks of the scalars at a field's path.
#[derive(Debug, Drop)]
pub struct FieldTest {
    /// The type of the field.
    pub kind: FieldType,
    pub asked: Asked,
}

/// A query made ready for documents of one mapping: its scalars are read in the types of their fields.
#[derive(Debug, Drop)]
pub enum Matcher {
    /// On every document, or on none.
    Always(bool),
    /// Where the test holds on a scalar at the path.
    Field(Str, FieldTest),
    Bool(Clauses<Matcher>),
}
