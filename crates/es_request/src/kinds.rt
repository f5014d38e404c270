//! What routes ask.
ghost use Rattle.std.specs.Prelude.{◌≡◌};
ghost use Rattle.es_request.specs.Requests.{is_built};

/// What a route asks, by its path and its method.
#[derive(Clone, Copy, Debug, PartialEq, Eq)]
pub enum RouteKind {
    CreateIndex,
    DeleteIndex,
    GetMapping,
    PutMapping,
    PutDocument,
    /// The put of a document that must be new.
    CreateDocument,
    GetDocument,
    DeleteDocument,
    Search,
    PutRole,
    GetRole,
    DeleteRole,
    PutUser,
    GetUser,
    DeleteUser,
    /// The clearing of the cache of composed roles.
    ClearCache,
    CreateKey,
    ListKeys,
    /// The invalidation of keys.
    Invalidate,
    UpdateKey,
    /// Who the caller is.
    Authenticate,
    Bulk,
    HasPrivileges,
}

impl RouteKind {
    /// Whether requests of this kind are built.
    pub fn is_built(self) -> bool
        ensures { result ≡ is_built self }
    {
        matches!(
            self,
            RouteKind::CreateIndex
                | RouteKind::DeleteIndex
                | RouteKind::GetMapping
                | RouteKind::PutDocument
                | RouteKind::CreateDocument
                | RouteKind::GetDocument
                | RouteKind::DeleteDocument
                | RouteKind::PutRole
                | RouteKind::GetRole
                | RouteKind::DeleteRole
                | RouteKind::PutUser
                | RouteKind::GetUser
                | RouteKind::DeleteUser
                | RouteKind::ClearCache
                | RouteKind::CreateKey
                | RouteKind::ListKeys
                | RouteKind::Invalidate
                | RouteKind::Authenticate
        )
    }
}
