//! The methods of each path (RFC 9110, section 9).
ghost use Rattle.std.specs.Prelude.{◌≡◌, codes};
ghost use Rattle.es_route.specs.Rows.{kind_in, allow_of};
ghost use Rattle.es_route.specs.Paths.{path_row};

use crate::path::Path;
use es_request::RouteKind;

/// What is asked of a path by a method, if the path has it.
pub fn kind_of(path: &Path<'_>, method: &str) -> Option<RouteKind>
    ensures { result ≡ kind_in (path_row path.now).methods method.now }
{
    match method {
        "DELETE" => deleted(path),
        "GET" => got(path),
        "POST" => posted(path),
        "PUT" => put(path),
        _ => None,
    }
}

/// What `DELETE` asks of the path.
#[tactic(auto, unfolding(crate::specs::Paths::cluster_row, crate::specs::Paths::index_row))]
fn deleted(path: &Path<'_>) -> Option<RouteKind>
    ensures { result ≡ kind_in (path_row path.now).methods (codes "DELETE") }
{
    match path {
        Path::Keys => Some(RouteKind::Invalidate),
        Path::Role(_) => Some(RouteKind::DeleteRole),
        Path::User(_) => Some(RouteKind::DeleteUser),
        Path::Index(_) => Some(RouteKind::DeleteIndex),
        Path::Document(..) => Some(RouteKind::DeleteDocument),
        _ => None,
    }
}

/// What `GET` asks of the path.
#[tactic(auto, unfolding(crate::specs::Paths::cluster_row, crate::specs::Paths::index_row))]
fn got(path: &Path<'_>) -> Option<RouteKind>
    ensures { result ≡ kind_in (path_row path.now).methods (codes "GET") }
{
    match path {
        Path::Search | Path::IndexSearch(_) => Some(RouteKind::Search),
        Path::Authenticate => Some(RouteKind::Authenticate),
        Path::Keys => Some(RouteKind::ListKeys),
        Path::HasPrivileges => Some(RouteKind::HasPrivileges),
        Path::Role(_) => Some(RouteKind::GetRole),
        Path::User(_) => Some(RouteKind::GetUser),
        Path::Mapping(_) => Some(RouteKind::GetMapping),
        Path::Document(..) => Some(RouteKind::GetDocument),
        _ => None,
    }
}

/// What `POST` asks of the path.
#[tactic(auto, unfolding(crate::specs::Paths::cluster_row, crate::specs::Paths::index_row))]
fn posted(path: &Path<'_>) -> Option<RouteKind>
    ensures { result ≡ kind_in (path_row path.now).methods (codes "POST") }
{
    match path {
        Path::Bulk | Path::IndexBulk(_) => Some(RouteKind::Bulk),
        Path::Search | Path::IndexSearch(_) => Some(RouteKind::Search),
        Path::Keys => Some(RouteKind::CreateKey),
        Path::HasPrivileges => Some(RouteKind::HasPrivileges),
        Path::Role(_) => Some(RouteKind::PutRole),
        Path::User(_) => Some(RouteKind::PutUser),
        Path::RoleCache(_) => Some(RouteKind::ClearCache),
        Path::Create(..) => Some(RouteKind::CreateDocument),
        Path::Document(..) => Some(RouteKind::PutDocument),
        _ => None,
    }
}

/// What `PUT` asks of the path.
#[tactic(auto, unfolding(crate::specs::Paths::cluster_row, crate::specs::Paths::index_row))]
fn put(path: &Path<'_>) -> Option<RouteKind>
    ensures { result ≡ kind_in (path_row path.now).methods (codes "PUT") }
{
    match path {
        Path::Keys => Some(RouteKind::CreateKey),
        Path::Key(_) => Some(RouteKind::UpdateKey),
        Path::Role(_) => Some(RouteKind::PutRole),
        Path::User(_) => Some(RouteKind::PutUser),
        Path::RoleCache(_) => Some(RouteKind::ClearCache),
        Path::Index(_) => Some(RouteKind::CreateIndex),
        Path::Mapping(_) => Some(RouteKind::PutMapping),
        Path::Create(..) => Some(RouteKind::CreateDocument),
        Path::Document(..) => Some(RouteKind::PutDocument),
        _ => None,
    }
}

/// The methods of a path in byte order, as the field `allow` lists them (RFC 9110, section 10.2.1).
#[tactic(auto, unfolding(crate::specs::Paths::cluster_row, crate::specs::Paths::index_row))]
pub fn allow_of(path: &Path<'_>) -> &'static str
    ensures { result.now ≡ allow_of (path_row path.now).methods }
{
    match path {
        Path::Bulk | Path::IndexBulk(_) => "POST",
        Path::Authenticate => "GET",
        Path::Search | Path::HasPrivileges | Path::IndexSearch(_) => "GET, POST",
        Path::Keys | Path::Role(_) | Path::User(_) | Path::Document(..) => "DELETE, GET, POST, PUT",
        Path::Key(_) => "PUT",
        Path::RoleCache(_) | Path::Create(..) => "POST, PUT",
        Path::Index(_) => "DELETE, PUT",
        Path::Mapping(_) => "GET, PUT",
    }
}
