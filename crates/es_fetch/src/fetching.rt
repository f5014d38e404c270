//! Reads of an index by somebody's permission.
ghost use Rattle.std.specs.Prelude.{◌≡◌, IfOk};
ghost use Rattle.std.specs.FinMap as map;
ghost use Rattle.es_fields.specs.Projection.{project_of};
ghost use Rattle.es_fetch.specs.Permitted.{shown, permitted_index};

use crate::permitting::permits;
use crate::shown::Shown;
use es_base::{NoMemory, Shared};
use es_catalog::{Index, Stored};
use es_compose::Permission;
use es_fields::{project, project_mapping};
use es_glob::FieldRule;
use es_mapping::Mapping;
use es_tree::Tree;
use std::alloc::Global;

/// The document of this id as the permission shows it; none where it doesn't stand or isn't permitted. Whether the index is
/// granted isn't asked here.
pub fn get(
    alloc: Global,
    permission: &Permission,
    index: &Index,
    id: &str,
) -> Result<Option<Shown>, NoMemory>
    ensures { IfOk result (λ found. found ≡ map.get (permitted_index permission.now index.now).documents id.now) }
{
    match index.get(id) {
        None => Ok(None),
        Some(stored) => {
            if permits(alloc, &permission.docs, stored)? {
                Ok(Some(shown(alloc, &permission.fields, stored)?))
            } else {
                Ok(None)
            }
        }
    }
}

/// The mapping with its granted fields. Whether the index is granted isn't asked here.
#[tactic(auto, unfolding(crate::specs::Permitted::permitted_index))]
pub fn mapping(alloc: Global, permission: &Permission, index: &Index) -> Result<Mapping, NoMemory>
    ensures { IfOk result (λ mapping. mapping ≡ (permitted_index permission.now index.now).mapping) }
{
    project_mapping(alloc, &permission.fields, index.mapping())
}

/// The document with its granted fields.
#[tactic(auto, unfolding(crate::specs::Permitted::shown))]
fn shown(alloc: Global, rule: &FieldRule, stored: &Stored) -> Result<Shown, NoMemory>
    ensures { IfOk result (λ found. found ≡ shown rule.now stored.now) }
{
    Ok(Shown {
        version: stored.version,
        document: projected(alloc, rule, &stored.document)?,
    })
}

/// The projection of a document: the document itself, shared, where every field is granted.
#[tactic(auto, unfolding(es_fields::specs::Projection::project_of))]
fn projected(
    alloc: Global,
    rule: &FieldRule,
    document: &Shared<Tree>,
) -> Result<Shared<Tree>, NoMemory>
    ensures { IfOk result (λ projection. projection ≡ project_of rule.now document.now) }
{
    if rule.grants_all() {
        document.share()
    } else {
        Shared::new(alloc, project(alloc, rule, document.get())?)
    }
}
