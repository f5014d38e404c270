//! What the state says of a change of indices and documents.
ghost use Rattle.std.specs.Prelude.{◌≡◌, ◌<◌, ◌^◌, IfOk, option_map};
ghost use Rattle.std.specs.FinMap as map;
ghost use Rattle.es_reply.specs.Bodies.{document_refused};
ghost use Rattle.es_mapping.specs.Checking.{fault_in};
ghost use Rattle.es_mapping.specs.Printed.{type_name};
ghost use Rattle.es_catalog.specs.Catalog.{document_at};
ghost use Rattle.es_catalog.specs.Changes.{version_of, number_of};
ghost use Rattle.es_vault.specs.Changes.{creation, deletion, put, put_over, document_deletion, deletion_over};
ghost use Rattle.es_vault.specs.Lent.{verdict_as};

use crate::verdict::{Change, Verdict, accepts, refuses};
use es_base::{NoMemory, Shared, Str};
use es_catalog::{Catalog, DocChange, Index};
use es_mapping::kinds::ValueFault;
use es_mapping::{FieldType, Mapping};
use es_reply::{
    Reply, acknowledged, deleted, document_exists, document_refused, index_created, index_exists,
    no_such_index, not_found, put_reply,
};
use es_tree::Tree;
use std::alloc::Global;

/// The creation of an index: 400 where one of the name stands.
pub fn create_index(
    alloc: Global,
    catalog: &Catalog,
    name: &Str,
    mapping: &Shared<Mapping>,
) -> Result<Verdict, NoMemory>
    ensures { IfOk result (λ verdict. verdict_as verdict ≡ creation name.now mapping.now (map.get catalog.now name.now)) }
{
    match catalog.index(name.text()) {
        Some(_) => Ok(refuses(index_exists(alloc, name.text())?)),
        None => {
            let reply = index_created(alloc, name.text())?;
            let change = DocChange::CreateIndex {
                name: name.copy(alloc)?,
                mapping: mapping.share()?,
            };
            Ok(accepts(reply, Change::Doc(change)))
        }
    }
}

/// The deletion of an index: 404 where none of the name stands.
pub fn delete_index(alloc: Global, catalog: &Catalog, name: &Str) -> Result<Verdict, NoMemory>
    ensures { IfOk result (λ verdict. verdict_as verdict ≡ deletion name.now (map.get catalog.now name.now)) }
{
    match catalog.index(name.text()) {
        None => Ok(refuses(no_such_index(alloc, name.text())?)),
        Some(_) => {
            let reply = acknowledged(alloc)?;
            let change = DocChange::DeleteIndex {
                name: name.copy(alloc)?,
            };
            Ok(accepts(reply, Change::Doc(change)))
        }
    }
}

/// The put of a document: 404 where its index doesn't stand.
pub fn put_document(
    alloc: Global,
    catalog: &Catalog,
    name: &Str,
    id: &Str,
    document: &Shared<Tree>,
    only_new: bool,
) -> Result<Verdict, NoMemory>
    requires { number_of (version_of (document_at catalog.now name.now id.now)) < 2 ^ 63 }
    ensures { IfOk result (λ verdict. verdict_as verdict ≡ put name.now id.now document.now only_new (map.get catalog.now name.now)) }
{
    match catalog.index(name.text()) {
        None => Ok(refuses(no_such_index(alloc, name.text())?)),
        Some(index) => put_into(alloc, index, name, id, document, only_new),
    }
}

/// The put of a document into this index: 409 where it has to be new and isn't, and 400 where a value isn't of its field's type.
fn put_into(
    alloc: Global,
    index: &Index,
    name: &Str,
    id: &Str,
    document: &Shared<Tree>,
    only_new: bool,
) -> Result<Verdict, NoMemory>
    requires { number_of (version_of (map.get index.now.documents id.now)) < 2 ^ 63 }
    ensures { IfOk result (λ verdict. verdict_as verdict ≡ put_over name.now id.now document.now only_new index.now (map.get index.now.documents id.now)) }
{
    let version = version_in(index, id.text());
    if only_new && version.is_some() {
        return Ok(refuses(document_exists(alloc, id.text())?));
    }
    match refusal_of_values(alloc, index.mapping(), document.get())? {
        Some(reply) => Ok(refuses(reply)),
        None => {
            let reply = put_reply(alloc, name.text(), id.text(), version)?;
            let change = DocChange::Put {
                index: name.copy(alloc)?,
                id: id.copy(alloc)?,
                document: document.share()?,
            };
            Ok(accepts(reply, Change::Doc(change)))
        }
    }
}

/// The version of the document, if it stands.
fn version_in(index: &Index, id: &str) -> Option<u64>
    ensures { result ≡ version_of (map.get index.now.documents id.now) }
{
    index.get(id).map(|stored| stored.version)
}

/// The refusal of a document with a value that isn't of its field's type.
fn refusal_of_values(
    alloc: Global,
    mapping: &Mapping,
    document: &Tree,
) -> Result<Option<Reply>, NoMemory>
    ensures { IfOk result (λ refusal. refusal ≡ option_map (λ fault. document_refused fault.0 (type_name fault.1)) (fault_in mapping.now document.now)) }
{
    match mapping.check(alloc, document) {
        Ok(()) => Ok(None),
        Err(fault) => match fault {
            ValueFault::BadValue { path, kind } => Ok(Some(document_refused(
                alloc,
                path.text(),
                name_of(kind),
            )?)),
            ValueFault::NoMemory => Err(NoMemory),
        },
    }
}

/// The name of a type.
fn name_of(kind: FieldType) -> &'static str
    ensures { result.now ≡ type_name kind }
{
    match kind {
        FieldType::Keyword => "keyword",
        FieldType::Long => "long",
        FieldType::Date => "date",
    }
}

/// The deletion of a document: 404 where its index doesn't stand.
pub fn delete_document(
    alloc: Global,
    catalog: &Catalog,
    name: &Str,
    id: &Str,
) -> Result<Verdict, NoMemory>
    requires { number_of (version_of (document_at catalog.now name.now id.now)) < 2 ^ 63 }
    ensures { IfOk result (λ verdict. verdict_as verdict ≡ document_deletion name.now id.now (map.get catalog.now name.now)) }
{
    match catalog.index(name.text()) {
        None => Ok(refuses(no_such_index(alloc, name.text())?)),
        Some(index) => delete_from(alloc, index, name, id),
    }
}

/// The deletion of a document from this index: 404 where it doesn't stand.
fn delete_from(alloc: Global, index: &Index, name: &Str, id: &Str) -> Result<Verdict, NoMemory>
    requires { number_of (version_of (map.get index.now.documents id.now)) < 2 ^ 63 }
    ensures { IfOk result (λ verdict. verdict_as verdict ≡ deletion_over name.now id.now (map.get index.now.documents id.now)) }
{
    match index.get(id.text()) {
        None => Ok(refuses(not_found(alloc, name.text(), id.text())?)),
        Some(stored) => {
            let reply = deleted(alloc, name.text(), id.text(), stored.version + 1)?;
            let change = DocChange::Delete {
                index: name.copy(alloc)?,
                id: id.copy(alloc)?,
            };
            Ok(accepts(reply, Change::Doc(change)))
        }
    }
}
