//! Paths of fields: names joined by dots.
ghost use Rattle.std.specs.Prelude.{◌≡◌};
ghost use Rattle.es_mapping.specs.Paths.{path_cmp, is_path};
ghost use Rattle.es_mapping.specs.Below.{continues};
ghost use Rattle.es_mapping.specs.Possible.{byte_cmp};

use std::cmp::Ordering;

/// The greatest number of pieces that a path has.
pub(crate) const MOST_PIECES: usize = 30;

/// Which path comes first: they compare piece by piece, and pieces by their bytes.
pub(crate) fn path_cmp(one: &str, other: &str) -> Ordering
    ensures { result ≡ path_cmp one.now other.now }
{
    cmp_paths(one.as_bytes(), other.as_bytes())
}

/// The same of the bytes of paths, or of what is left of paths that begin alike.
pub(crate) fn cmp_paths(one: &[u8], other: &[u8]) -> Ordering
    ensures { result ≡ path_cmp one.now other.now }
{
    for at in 0..one.len().min(other.len()) {
        if one[at] != other[at] {
            return cmp_bytes(one[at], other[at]);
        }
    }
    one.len().cmp(&other.len())
}

// Two bytes that differ: a dot comes first.
fn cmp_bytes(one: u8, other: u8) -> Ordering
    ensures { result ≡ byte_cmp one other }
{
    if one == b'.' {
        Ordering::Less
    } else if other == b'.' {
        Ordering::Greater
    } else {
        one.cmp(&other)
    }
}

/// Whether the text is a path: 1 to 30 pieces, none of them empty.
pub(crate) fn is_path(text: &str) -> bool
    ensures { result ≡ is_path text.now }
{
    text.split('.').all(|piece| !piece.is_empty()) && text.split('.').count() <= MOST_PIECES
}

/// Whether the text is the path, or the path followed by a dot and more.
pub(crate) fn continues(path: &str, text: &str) -> bool
    ensures { result ≡ continues path.now text.now }
{
    let (path, text) = (path.as_bytes(), text.as_bytes());
    text.starts_with(path) && (text.len() == path.len() || text[path.len()] == b'.')
}
