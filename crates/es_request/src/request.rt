//! Requests.
ghost use Rattle.std.specs.Prelude.{◌≡◌};
ghost use Rattle.es_request.specs.Requests.{is_change, draws};

use es_base::{Shared, Str, Strs};
use es_compose::RolePart;
use es_cred::UserRecord;
use es_keys::NewKey;
use es_mapping::Mapping;
use es_response::Reply;
use es_tree::Tree;

/// What is asked. It owns its texts.
#[derive(Drop)]
pub enum Request {
    /// The request is refused by its own text, whoever sends it and whatever stands.
    Refused(Reply),
    /// The creation of an index of this name with this mapping.
    CreateIndex {
        index: Str,
        mapping: Shared<Mapping>,
    },
    DeleteIndex {
        index: Str,
    },
    GetMapping {
        index: Str,
    },
    /// The put of a document, which must be new where `only_new` says so.
    Put {
        index: Str,
        id: Str,
        document: Shared<Tree>,
        only_new: bool,
    },
    Get {
        index: Str,
        id: Str,
    },
    Delete {
        index: Str,
        id: Str,
    },
    /// The put of a role, made ready. Contracts see its descriptor.
    PutRole {
        name: Str,
        role: Shared<RolePart>,
    },
    GetRole {
        name: Str,
    },
    DeleteRole {
        name: Str,
    },
    PutUser {
        user: Shared<UserRecord>,
    },
    GetUser {
        name: Str,
    },
    DeleteUser {
        name: Str,
    },
    /// The creation of an API key.
    CreateKey(Shared<NewKey>),
    /// The list of the acting user's keys where `owner` says so, else of all.
    ListKeys {
        owner: bool,
    },
    /// The invalidation of the keys of these ids, or of all where `ids` is absent; where `owner` says so, of the acting user's
    /// among them alone.
    Invalidate {
        ids: Option<Strs>,
        owner: bool,
    },
    /// Who the caller is.
    Authenticate,
    /// The clearing of the composed roles of these names, or of all where `every` says so.
    ClearCache {
        names: Strs,
        every: bool,
    },
}

impl Request {
    /// Whether the request changes something where it is accepted.
    pub fn is_change(&self) -> bool
        ensures { result ≡ is_change self.now }
    {
        match self {
            Request::CreateIndex { .. }
            | Request::DeleteIndex { .. }
            | Request::Put { .. }
            | Request::Delete { .. }
            | Request::PutRole { .. }
            | Request::DeleteRole { .. }
            | Request::PutUser { .. }
            | Request::DeleteUser { .. }
            | Request::CreateKey(_)
            | Request::Invalidate { .. }
            | Request::ClearCache { .. } => true,
            Request::Refused(_)
            | Request::GetMapping { .. }
            | Request::Get { .. }
            | Request::GetRole { .. }
            | Request::GetUser { .. }
            | Request::ListKeys { .. }
            | Request::Authenticate => false,
        }
    }

    /// Whether it draws from the chance: the creation of a key alone does.
    pub fn draws(&self) -> bool
        ensures { result ≡ draws self.now }
    {
        matches!(self, Request::CreateKey(_))
    }
}
