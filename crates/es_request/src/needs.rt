//! What a request needs.
ghost use Rattle.std.specs.Prelude.{◌≡◌, if◌then◌else◌};
ghost use Rattle.es_request.specs.Needs.{need_as, need_of, keys_action};

use crate::request::Request;
use es_priv::{Action, ClusterAction};

/// What the caller's roles have to grant.
#[derive(Clone, Copy, Debug)]
pub enum Need<'a> {
    Nothing,
    /// An action on the index of this name.
    Index(Action, &'a str),
    /// An action on the cluster.
    Cluster(ClusterAction),
}

/// What a request needs.
#[tactic(auto, unfolding(crate::specs::Needs::need_of))]
pub fn need_of(request: &Request) -> Need<'_>
    ensures { need_as result ≡ need_of request.now }
{
    match request {
        Request::Refused(_) | Request::Authenticate => Need::Nothing,
        Request::CreateIndex { index, .. } => Need::Index(Action::CreateIndex, index.text()),
        Request::DeleteIndex { index } => Need::Index(Action::DeleteIndex, index.text()),
        Request::GetMapping { index } => Need::Index(Action::GetMapping, index.text()),
        Request::Put {
            index,
            only_new,
            ..
        } => Need::Index(put_action(*only_new), index.text()),
        Request::Get { index, .. } => Need::Index(Action::Get, index.text()),
        Request::Delete { index, .. } => Need::Index(Action::Delete, index.text()),
        Request::PutRole { .. }
        | Request::GetRole { .. }
        | Request::DeleteRole { .. }
        | Request::PutUser { .. }
        | Request::GetUser { .. }
        | Request::DeleteUser { .. }
        | Request::ClearCache { .. } => Need::Cluster(ClusterAction::Security),
        Request::CreateKey(_) => Need::Cluster(ClusterAction::OwnKeys),
        Request::ListKeys { owner } | Request::Invalidate { owner, .. } => {
            Need::Cluster(keys_action(*owner))
        }
    }
}

/// The action on keys: on the caller's own, where it says so, else on any.
fn keys_action(owner: bool) -> ClusterAction
    ensures { result ≡ keys_action owner }
{
    if owner {
        ClusterAction::OwnKeys
    } else {
        ClusterAction::AnyKeys
    }
}

/// The action of a put: the creation of a document that must be new is one of its own.
fn put_action(only_new: bool) -> Action
    ensures { result ≡ (if only_new then Action.Create else Action.Put) }
{
    if only_new {
        Action::Create
    } else {
        Action::Put
    }
}
