//! What the state says of a request for a change.
ghost use Rattle.std.specs.Prelude.{◌≡◌, ◌<◌, ◌≤◌, ◌^◌, IfOk, ℕ, List};
ghost use Rattle.es_catalog.specs.Catalog.{document_at};
ghost use Rattle.es_catalog.specs.Changes.{version_of, number_of};
ghost use Rattle.es_request.specs.Requests.{IsTimely};
ghost use Rattle.es_vault.specs.Changes.{verdict_in};
ghost use Rattle.es_vault.specs.Replayable.{last_moment};
ghost use Rattle.es_vault.specs.Lent.{verdict_as};

use crate::changes::{create_index, delete_document, delete_index, put_document};
use crate::creating::{create_key, owner_of};
use crate::security::{clear_cache, delete_role, delete_user, invalidate, put_role, put_user};
use crate::verdict::{Verdict, refuses};
use es_base::NoMemory;
use es_catalog::Catalog;
use es_keys::Subject;
use es_records::Records;
use es_reply::not_built;
use es_request::{Call, Request};
use std::alloc::Global;

/// What the state says of a subject's call for a change, which would be the accepted change with this number. Nothing is
/// changed yet.
#[tactic(auto, unfolding(crate::specs::Changes::verdict_in))]
pub fn verdict_of(
    alloc: Global,
    records: &Records,
    catalog: &Catalog,
    number: u64,
    subject: &Subject,
    call: &Call,
) -> Result<Verdict, NoMemory>
    requires versions { (name id : List ℕ) → number_of (version_of (document_at catalog.now name id)) < 2 ^ 63 }
    requires moment { call.now.moment ≤ last_moment }
    requires timely { IsTimely call.now.request }
    requires number { number < 1000000000000 }
    ensures { IfOk result (λ verdict. verdict_as verdict ≡ verdict_in (record { records = records.now; catalog = catalog.now }) number subject.now call.now.moment call.now.draw call.now.request) }
{
    match &call.request {
        Request::CreateIndex { index, mapping } => create_index(alloc, catalog, index, mapping),
        Request::DeleteIndex { index } => delete_index(alloc, catalog, index),
        Request::Put {
            index,
            id,
            document,
            only_new,
        } => put_document(alloc, catalog, index, id, document, *only_new),
        Request::Delete { index, id } => delete_document(alloc, catalog, index, id),
        Request::PutRole { name, role } => put_role(alloc, records, name, role),
        Request::DeleteRole { name } => delete_role(alloc, records, name),
        Request::PutUser { user } => put_user(alloc, records, user),
        Request::DeleteUser { name } => delete_user(alloc, records, name),
        Request::CreateKey(asked) => create_key(
            alloc,
            records,
            subject,
            asked.get(),
            number,
            call.moment,
            &call.draw,
        ),
        Request::Invalidate { ids, owner } => {
            let owner = owner_of(*owner, subject);
            invalidate(alloc, records, ids.as_ref(), owner)
        }
        Request::ClearCache { names, every } => clear_cache(alloc, names, *every),
        Request::Refused(_)
        | Request::GetMapping { .. }
        | Request::Get { .. }
        | Request::GetRole { .. }
        | Request::GetUser { .. }
        | Request::ListKeys { .. }
        | Request::Authenticate => Ok(refuses(not_built(alloc)?)),
    }
}
