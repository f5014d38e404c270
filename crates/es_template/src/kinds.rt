//! What a template is made of.
use es_base::{Seq, Str, Strs};
use es_tree::Ordered;

/// What a tag names of a person.
#[derive(Debug, Drop)]
pub enum Property {
    Username,
    FullName,
    Email,
    Roles,
    /// The names of members that lead into the metadata, from the outermost on.
    Metadata(Strs),
}

/// A piece of a text.
#[derive(Debug, Drop)]
pub enum Piece {
    /// Characters that are kept as they are.
    Text(Str),
    /// A tag, in whose place the text of a value comes.
    Tag(Property),
}

/// The pieces of a text, in order.
pub type Pieces = Seq<Piece>;

/// A JSON value with tags.
#[derive(Debug, Drop)]
pub enum Template {
    Null,
    Bool(bool),
    /// A number.
    Int(i64),
    /// A string.
    Text(Pieces),
    /// A value of its own, of any kind.
    Hole(Property),
    /// An array.
    List(Templates),
    Object(TemplateMembers),
}

/// Templates in order.
pub type Templates = Seq<Template>;

/// The members of an object: distinct names in the order of their bytes.
pub type TemplateMembers = Ordered<Template>;

/// Where a byte of a source text stands.
#[derive(Clone, Copy, Debug, PartialEq, Eq)]
pub(crate) enum Standing {
    /// Outside of JSON strings.
    Outside,
    /// Inside a JSON string.
    Inside,
    /// Inside a JSON string, behind a backslash.
    Escaped,
}
