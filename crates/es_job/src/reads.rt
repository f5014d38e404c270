//! What a read shows of an index, of a role, of a user, and of who asks.
ghost use Rattle.std.specs.Prelude.{◌≡◌, IfOk, None, if◌then◌else◌, map as map_list};
ghost use Rattle.std.specs.Option.{option_copied};
ghost use Rattle.std.specs.FinMap as map;
ghost use Rattle.es_priv.specs.declared.kinds.Action.TheVariants as action;
ghost use Rattle.es_decide.specs.Decisions.{permitted};
ghost use Rattle.es_fetch.specs.Permitted.{permitted_index, permitted_catalog};
ghost use Rattle.es_job.specs.Reads.{mapping_reply, document_reply, stored_reply, role_reply, user_reply, keys_reply, itself, authentication};
ghost use Rattle.es_records.specs.Keys.{keys_of, is_owned};
ghost use Rattle.es_keys.specs.Printed.{key_text};

use es_base::{NoMemory, Seq, Strs};
use es_catalog::{Catalog, Index};
use es_compose::Permission;
use es_decide::{Halves, permit};
use es_fetch::{get, mapping};
use es_keys::{Caller, KeyRecord, Subject, Target, key_text};
use es_priv::Action;
use es_records::Records;
use es_reply::{
    Reply, absent, authenticated, found, key_authenticated, keys_listed, mapping_shown,
    no_such_index, nothing_shown, person_shown, role_shown,
};
use std::alloc::Global;

/// The reply to a get of the mapping of an index: its fields that the subject may see, or 404 where no index of the name stands.
pub fn get_mapping(
    alloc: Global,
    catalog: &Catalog,
    subject: &Subject,
    halves: &Halves,
    name: &str,
) -> Result<Reply, NoMemory>
    ensures { IfOk result (λ reply. reply ≡ mapping_reply name.now (map.get (permitted_catalog (permitted subject.now halves.now action.GetMapping) catalog.now) name.now)) }
{
    let permission = permit(alloc, subject, halves, Action::GetMapping, name)?;
    match granted_index(catalog, &permission, name) {
        None => no_such_index(alloc, name),
        Some(index) => {
            let fields = mapping(alloc, &permission, index)?;
            let tree = fields.print(alloc)?;
            mapping_shown(alloc, name, &tree)
        }
    }
}

/// The reply to a get of a document: its fields that the subject may see, or 404 where the index or the document doesn't stand,
/// and where the document is hidden.
pub fn get_document(
    alloc: Global,
    catalog: &Catalog,
    subject: &Subject,
    halves: &Halves,
    name: &str,
    id: &str,
) -> Result<Reply, NoMemory>
    ensures { IfOk result (λ reply. reply ≡ document_reply name.now id.now (map.get (permitted_catalog (permitted subject.now halves.now action.Get) catalog.now) name.now)) }
{
    let permission = permit(alloc, subject, halves, Action::Get, name)?;
    match granted_index(catalog, &permission, name) {
        None => no_such_index(alloc, name),
        Some(index) => get_from(alloc, &permission, index, name, id),
    }
}

/// The index of the name, if it stands and is granted.
fn granted_index<'a>(catalog: &'a Catalog, permission: &Permission, name: &str) -> Option<&'a Index>
    ensures { option_copied result ≡ (if permission.now.granted then map.get catalog.now name.now else None) }
{
    if permission.granted {
        catalog.index(name)
    } else {
        None
    }
}

/// The reply to a get of a document of this index.
fn get_from(
    alloc: Global,
    permission: &Permission,
    index: &Index,
    name: &str,
    id: &str,
) -> Result<Reply, NoMemory>
    ensures { IfOk result (λ reply. reply ≡ stored_reply name.now id.now (map.get (permitted_index permission.now index.now).documents id.now)) }
{
    match get(alloc, permission, index, id)? {
        None => absent(alloc, name, id),
        Some(shown) => found(alloc, name, id, shown.version, shown.document.get()),
    }
}

/// The reply to a get of a role: its descriptor, or 404.
pub fn get_role(alloc: Global, records: &Records, name: &str) -> Result<Reply, NoMemory>
    ensures { IfOk result (λ reply. reply ≡ role_reply name.now (map.get records.now.roles name.now)) }
{
    match records.role(name) {
        None => nothing_shown(alloc),
        Some(role) => {
            let tree = role.descriptor().print(alloc)?;
            role_shown(alloc, name, &tree)
        }
    }
}

/// The reply to a get of a user: what is kept of the person, or 404.
pub fn get_user(alloc: Global, records: &Records, name: &str) -> Result<Reply, NoMemory>
    ensures { IfOk result (λ reply. reply ≡ user_reply (map.get records.now.users name.now)) }
{
    match records.user(name) {
        None => nothing_shown(alloc),
        Some(user) => person_shown(alloc, &user.person),
    }
}

/// The reply to a list of keys: those of the owner, if one is named, in the order of their ids.
pub fn list_keys(alloc: Global, records: &Records, owner: Option<&str>) -> Result<Reply, NoMemory>
    ensures { IfOk result (λ reply. reply ≡ keys_reply (keys_of records.now (option_copied owner.entry))) }
{
    let texts = key_texts(alloc, records, owner)?;
    keys_listed(alloc, texts.as_slice())
}

// The texts of these keys.
fn key_texts(alloc: Global, records: &Records, owner: Option<&str>) -> Result<Strs, NoMemory>
    ensures { IfOk result (λ texts. texts ≡ map_list key_text (keys_of records.now (option_copied owner.entry))) }
{
    let mut texts = Seq::empty(alloc);
    for place in 0..records.key_count() {
        let kept = records.key_at(place);
        if is_owned(owner, kept) {
            texts.push(key_text(alloc, kept)?)?;
        }
    }
    Ok(texts)
}

// Whether the key's owner has the name, where one is named.
fn is_owned(owner: Option<&str>, kept: &KeyRecord) -> bool
    ensures { result ≡ is_owned (option_copied owner.entry) kept.now }
{
    match owner {
        Some(name) => kept.owner.username.text() == name,
        None => true,
    }
}

/// The reply to one who asks who it is.
#[tactic(auto, unfolding(crate::specs::Reads::authentication))]
pub fn authenticate(alloc: Global, subject: &Subject) -> Result<Reply, NoMemory>
    ensures { IfOk result (λ reply. reply ≡ authentication subject.now) }
{
    match &subject.target {
        Target::As(user) => authenticated(alloc, &user.get().person),
        Target::Own | Target::Unknown => itself(alloc, &subject.caller),
    }
}

// The same of a caller that acts as itself.
fn itself(alloc: Global, caller: &Caller) -> Result<Reply, NoMemory>
    ensures { IfOk result (λ reply. reply ≡ itself caller.now) }
{
    match caller {
        Caller::User(user) => authenticated(alloc, &user.get().person),
        Caller::Key(kept) => {
            let kept = kept.get();
            key_authenticated(alloc, &kept.owner, kept.id.text(), kept.name.text())
        }
    }
}
