//! The paths that stand, with their parameters.
ghost use Rattle.std.specs.Prelude.{◌≡◌, [], ◌∷◌, nat_eq, codes, Some, option_map, true};
ghost use Rattle.std.specs.List.{starts_with};
ghost use Rattle.es_route.specs.Targets.{segments_of as segments_in};
ghost use Rattle.es_route.specs.Rows.{is_everywhere, is_of_cluster, has_bytes, cluster_rows, index_rows};
ghost use Rattle.es_route.specs.Paths.{path_as, found_in, found_of, SegmentsAre};

use crate::segments::{Segments, segments_of};

/// A path with its parameters, as it was sent.
#[derive(Clone, Copy)]
pub enum Path<'a> {
    Bulk,
    Search,
    Authenticate,
    Keys,
    /// A key by its id.
    Key(&'a str),
    HasPrivileges,
    Role(&'a str),
    User(&'a str),
    /// The cache of a role.
    RoleCache(&'a str),
    Index(&'a str),
    IndexBulk(&'a str),
    Mapping(&'a str),
    IndexSearch(&'a str),
    /// A document that must be new, by its index and its id.
    Create(&'a str, &'a str),
    /// A document by its index and its id.
    Document(&'a str, &'a str),
}

/// The path that begins with a slash, if it stands.
pub fn path_of(path: &str) -> Option<Path<'_>>
    requires { starts_with nat_eq path.now (codes "/") ≡ true }
    ensures { option_map path_as result ≡ found_of (segments_in path.now) }
{
    match path.strip_prefix('/') {
        Some(rest) => path_at(segments_of(rest)),
        None => None,
    }
}

/// The path of these segments.
fn path_at<'a>(segments: Segments<'a>) -> Option<Path<'a>>
    ensures { (list : _) → SegmentsAre segments.entry list → option_map path_as result ≡ found_of list }
{
    match segments {
        Segments::One(first) => path_of_one(first),
        Segments::Two(first, second) => path_of_two(first, second),
        Segments::Three(first, second, third) => path_of_three(first, second, third),
        Segments::Four(first, second, third, fourth) => {
            path_of_four(first, second, third, fourth)
        }
        Segments::More => None,
    }
}

fn path_of_one(first: &str) -> Option<Path<'_>>
    ensures { option_map path_as result ≡ found_of (first.now ∷ []) }
{
    if is_of_cluster(first) {
        cluster_path_of_one(first)
    } else {
        index_path_of_one(first)
    }
}

fn path_of_two<'a>(first: &'a str, second: &str) -> Option<Path<'a>>
    ensures { option_map path_as result ≡ found_of (first.now ∷ second.now ∷ []) }
{
    if is_of_cluster(first) {
        cluster_path_of_two(first, second)
    } else {
        index_path_of_two(first, second)
    }
}

fn path_of_three<'a>(first: &'a str, second: &str, third: &'a str) -> Option<Path<'a>>
    ensures { option_map path_as result ≡ found_of (first.now ∷ second.now ∷ third.now ∷ []) }
{
    if is_of_cluster(first) {
        cluster_path_of_three(first, second, third)
    } else {
        index_path_of_three(first, second, third)
    }
}

fn path_of_four<'a>(first: &str, second: &str, third: &'a str, fourth: &str) -> Option<Path<'a>>
    ensures { option_map path_as result ≡ found_of (first.now ∷ second.now ∷ third.now ∷ fourth.now ∷ []) }
{
    if is_of_cluster(first) {
        cluster_path_of_four(first, second, third, fourth)
    } else {
        None
    }
}

/// Whether a path with this first segment is looked up among those of the cluster.
fn is_of_cluster(segment: &str) -> bool
    ensures { result ≡ is_of_cluster segment.now }
{
    segment.as_bytes().starts_with(b"_") && !is_everywhere(segment)
}

/// Whether the segment is every index's name, or begins a list with it.
fn is_everywhere(segment: &str) -> bool
    ensures { result ≡ is_everywhere segment.now }
{
    segment == "_all" || segment.as_bytes().starts_with(b"_all,")
}

fn cluster_path_of_one<'a>(first: &str) -> Option<Path<'a>>
    ensures { option_map path_as result ≡ found_in cluster_rows (first.now ∷ []) }
{
    match first {
        "_bulk" => Some(Path::Bulk),
        "_search" => Some(Path::Search),
        _ => None,
    }
}

fn cluster_path_of_two<'a>(first: &str, second: &str) -> Option<Path<'a>>
    ensures { option_map path_as result ≡ found_in cluster_rows (first.now ∷ second.now ∷ []) }
{
    match first {
        "_security" => security_path(second),
        _ => None,
    }
}

fn security_path<'a>(word: &str) -> Option<Path<'a>>
    ensures { option_map path_as result ≡ found_in cluster_rows (codes "_security" ∷ word.now ∷ []) }
{
    match word {
        "_authenticate" => Some(Path::Authenticate),
        "api_key" => Some(Path::Keys),
        _ => None,
    }
}

fn cluster_path_of_three<'a>(first: &str, second: &str, third: &'a str) -> Option<Path<'a>>
    ensures { option_map path_as result ≡ found_in cluster_rows (first.now ∷ second.now ∷ third.now ∷ []) }
{
    if !has_bytes(third) {
        return None;
    }
    match first {
        "_security" => named_path(second, third),
        _ => None,
    }
}

/// A path of the security layer with a name or an id.
fn named_path<'a>(word: &str, name: &'a str) -> Option<Path<'a>>
    requires { has_bytes name.now ≡ true }
    ensures { option_map path_as result ≡ found_in cluster_rows (codes "_security" ∷ word.now ∷ name.now ∷ []) }
{
    match word {
        "api_key" => Some(Path::Key(name)),
        "role" => Some(Path::Role(name)),
        "user" => Some(user_path(name)),
        _ => None,
    }
}

/// What stands behind `user`.
fn user_path(name: &str) -> Path<'_>
    requires { has_bytes name.now ≡ true }
    ensures { Some (path_as result) ≡ found_in cluster_rows (codes "_security" ∷ codes "user" ∷ name.now ∷ []) }
{
    match name {
        "_has_privileges" => Path::HasPrivileges,
        _ => Path::User(name),
    }
}

fn cluster_path_of_four<'a>(
    first: &str,
    second: &str,
    third: &'a str,
    fourth: &str,
) -> Option<Path<'a>>
    ensures { option_map path_as result ≡ found_in cluster_rows (first.now ∷ second.now ∷ third.now ∷ fourth.now ∷ []) }
{
    match first {
        "_security" => role_path(second, third, fourth),
        _ => None,
    }
}

fn role_path<'a>(word: &str, name: &'a str, last: &str) -> Option<Path<'a>>
    ensures { option_map path_as result ≡ found_in cluster_rows (codes "_security" ∷ word.now ∷ name.now ∷ last.now ∷ []) }
{
    match word {
        "role" => cache_path(name, last),
        _ => None,
    }
}

fn cache_path<'a>(name: &'a str, last: &str) -> Option<Path<'a>>
    ensures { option_map path_as result ≡ found_in cluster_rows (codes "_security" ∷ codes "role" ∷ name.now ∷ last.now ∷ []) }
{
    if !has_bytes(name) {
        return None;
    }
    match last {
        "_clear_cache" => Some(Path::RoleCache(name)),
        _ => None,
    }
}

fn index_path_of_one(first: &str) -> Option<Path<'_>>
    ensures { option_map path_as result ≡ found_in index_rows (first.now ∷ []) }
{
    if !has_bytes(first) {
        return None;
    }
    Some(Path::Index(first))
}

fn index_path_of_two<'a>(first: &'a str, second: &str) -> Option<Path<'a>>
    ensures { option_map path_as result ≡ found_in index_rows (first.now ∷ second.now ∷ []) }
{
    if !has_bytes(first) {
        return None;
    }
    match second {
        "_bulk" => Some(Path::IndexBulk(first)),
        "_mapping" => Some(Path::Mapping(first)),
        "_search" => Some(Path::IndexSearch(first)),
        _ => None,
    }
}

fn index_path_of_three<'a>(first: &'a str, second: &str, third: &'a str) -> Option<Path<'a>>
    ensures { option_map path_as result ≡ found_in index_rows (first.now ∷ second.now ∷ third.now ∷ []) }
{
    if !has_bytes(first) {
        return None;
    }
    document_path(first, second, third)
}

fn document_path<'a>(index: &'a str, word: &str, id: &'a str) -> Option<Path<'a>>
    requires { has_bytes index.now ≡ true }
    ensures { option_map path_as result ≡ found_in index_rows (index.now ∷ word.now ∷ id.now ∷ []) }
{
    if !has_bytes(id) {
        return None;
    }
    match word {
        "_create" => Some(Path::Create(index, id)),
        "_doc" => Some(Path::Document(index, id)),
        _ => None,
    }
}

/// Whether a segment can be a parameter.
fn has_bytes(segment: &str) -> bool
    ensures { result ≡ has_bytes segment.now }
{
    !segment.is_empty()
}
