//! Types of fields, and their values.
use es_base::{Seq, Str};

/// The type of a field.
#[derive(Clone, Copy, Debug, PartialEq, Eq)]
pub enum FieldType {
    /// Texts, compared by their bytes.
    Keyword,
    /// Whole numbers.
    Long,
    /// Moments, in milliseconds since 1970 in UTC.
    Date,
}

/// A value of a field.
#[derive(Debug, Drop)]
pub enum Value {
    /// Of a `long`, or of a `date` in milliseconds since 1970 in UTC.
    Number(i64),
    /// Of a `keyword`.
    Text(Str),
}

/// Values in order.
pub type Values = Seq<Value>;

/// A value whose text is borrowed.
#[derive(Clone, Copy)]
pub enum Lent<'a> {
    /// Of a `long`, or of a `date` in milliseconds since 1970 in UTC.
    Number(i64),
    /// Of a `keyword`.
    Text(&'a str),
}
