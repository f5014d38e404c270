//! Tags in texts.
ghost use Rattle.std.specs.Prelude.{◌≡◌, ◌++◌, IfOk, OnOk};
ghost use Rattle.std.specs.List.{list_all};
ghost use Rattle.es_template.specs.Tags.{is_plain, is_name, names_of, path_of, property_of, named_in_tag, hole_of, text_pieces, tag_pieces, pieces_of, IsAdded};

use crate::kinds::{Piece, Pieces, Property};
use crate::marks::{behind, cut, first_part, trimmed};
use es_base::{NoMemory, Seq, Str, Strs};
use std::alloc::Global;

/// What opens a tag.
pub const OPENING: &str = "{{";

/// What closes a tag.
pub const CLOSING: &str = "}}";

/// What opens a toJson tag.
pub const JSON_OPENING: &str = "{{#toJson}}";

/// What closes a toJson tag.
pub const JSON_CLOSING: &str = "{{/toJson}}";

/// What stands before the path of a name in the metadata.
pub const METADATA: &str = "_user.metadata.";

/// Whether a text has no braces.
pub fn is_plain(text: &str) -> bool
    ensures { result ≡ list_all is_plain text.now }
{
    text.as_bytes()
        .iter()
        .all(|byte| *byte != b'{' && *byte != b'}')
}

fn is_name(text: &str) -> bool
    ensures { result ≡ is_name text.now }
{
    !text.is_empty() && is_plain(text)
}

// The names between the dots of a path, if each is one.
fn names(alloc: Global, path: &str) -> Result<Option<Strs>, NoMemory>
    ensures { IfOk result (λ found. found ≡ names_of path.now) }
{
    let mut found = Seq::empty(alloc);
    let mut rest = Some(path);
    while let Some(text) = rest {
        let (name, next) = first_part(".", text);
        if !is_name(name) {
            return Ok(None);
        }
        found.push(Str::of(alloc, name)?)?;
        rest = next;
    }
    Ok(Some(found))
}

fn metadata(alloc: Global, path: &str) -> Result<Option<Property>, NoMemory>
    ensures { IfOk result (λ found. found ≡ path_of path.now) }
{
    match names(alloc, path)? {
        Some(path) => Ok(Some(Property::Metadata(path))),
        None => Ok(None),
    }
}

// What a name stands for.
#[tactic(auto, unfolding(crate::specs::Tags::property_of))]
fn property(alloc: Global, name: &str) -> Result<Option<Property>, NoMemory>
    ensures { IfOk result (λ found. found ≡ property_of name.now) }
{
    match name {
        "_user.username" => Ok(Some(Property::Username)),
        "_user.full_name" => Ok(Some(Property::FullName)),
        "_user.email" => Ok(Some(Property::Email)),
        "_user.roles" => Ok(Some(Property::Roles)),
        _ => match behind(METADATA, name) {
            Some(path) => metadata(alloc, path),
            None => Ok(None),
        },
    }
}

/// What the text inside a tag stands for.
#[tactic(auto, unfolding(crate::specs::Tags::named_in_tag))]
pub fn named_in_tag(alloc: Global, inside: &str) -> Result<Option<Property>, NoMemory>
    ensures { IfOk result (λ found. found ≡ named_in_tag inside.now) }
{
    property(alloc, trimmed(inside))
}

/// What a text stands for that is a toJson tag and nothing else.
#[tactic(auto, unfolding(crate::specs::Tags::hole_of))]
pub fn hole(alloc: Global, text: &str) -> Result<Option<Property>, NoMemory>
    ensures { IfOk result (λ found. found ≡ hole_of text.now) }
{
    let Some(rest) = behind(JSON_OPENING, text) else {
        return Ok(None);
    };
    match cut(JSON_CLOSING, rest) {
        Some((inside, "")) => named_in_tag(alloc, inside),
        _ => Ok(None),
    }
}

// Plain characters, where there are any.
fn add_text(pieces: &mut Pieces, alloc: Global, text: &str) -> Result<(), NoMemory>
    ensures { OnOk result (pieces.new ≡ pieces.old ++ text_pieces text.now) }
{
    if text.is_empty() {
        return Ok(());
    }
    pieces.push(Piece::Text(Str::of(alloc, text)?))
}

// A tag and the plain characters behind it, and whether it is a tag.
#[tactic(auto, unfolding(crate::specs::Tags::tag_pieces))]
fn add_tag(pieces: &mut Pieces, alloc: Global, part: &str) -> Result<bool, NoMemory>
    ensures { IfOk result (λ is_tag. IsAdded is_tag pieces.old pieces.new (tag_pieces part.now)) }
{
    let Some((inside, text)) = cut(CLOSING, part) else {
        return Ok(false);
    };
    match named_in_tag(alloc, inside)? {
        Some(property) => {
            pieces.push(Piece::Tag(property))?;
            add_text(pieces, alloc, text)?;
            Ok(true)
        }
        None => Ok(false),
    }
}

/// The pieces of a text, unless a `{{` in it opens no tag of a known name.
#[tactic(auto, unfolding(crate::specs::Tags::pieces_of))]
pub fn pieces(alloc: Global, text: &str) -> Result<Option<Pieces>, NoMemory>
    ensures { IfOk result (λ found. found ≡ pieces_of text.now) }
{
    let mut found = Seq::empty(alloc);
    let (front, mut rest) = first_part(OPENING, text);
    add_text(&mut found, alloc, front)?;
    while let Some(tagged) = rest {
        let (part, next) = first_part(OPENING, tagged);
        if !add_tag(&mut found, alloc, part)? {
            return Ok(None);
        }
        rest = next;
    }
    Ok(Some(found))
}
