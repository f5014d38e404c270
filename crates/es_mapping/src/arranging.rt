//! Fields in the order of their paths.
ghost use Rattle.std.specs.Prelude.{◌≡◌, ◌&&◌, map, IfOk, IsTrue, IsPermutation, IsSorted};
ghost use Rattle.es_tree.specs.Rising.{name_of};
ghost use Rattle.es_grammar.specs.Reading.{Gives};
ghost use Rattle.std.specs.List.{list_all};
ghost use Rattle.es_mapping.specs.Paths.{path_cmp, is_path};
ghost use Rattle.es_mapping.specs.Mappings.{is_mapping};
ghost use Rattle.es_mapping.specs.Below.{arranged, neighbours_apart};

use crate::mapping::{Fields, Mapping};
use crate::paths::{continues, is_path, path_cmp};
use es_base::NoMemory;
use es_grammar::here;
use es_tree::{BodyFault, Named};
use es_value::FieldType;
use std::alloc::Global;

/// The mapping of the fields, if each two of their paths are apart.
pub(crate) fn arranged(alloc: Global, fields: Fields) -> Result<Mapping, BodyFault>
    ensures gives { Gives result (arranged fields) }
    ensures sound { IfOk result (λ mapping. IsTrue (is_mapping mapping)) }
{
    let fields = sorted(fields)?;
    if !are_paths(fields.as_slice()) {
        return Err(here(alloc));
    }
    Ok(Mapping::of(fields))
}

fn sorted(fields: Fields) -> Result<Vec<Named<FieldType>>, NoMemory>
    ensures moved { IfOk result (λ sorted. IsPermutation fields sorted.items) }
    ensures sorted { IfOk result (λ sorted. IsSorted (λ one other. path_cmp one.name other.name) sorted.items) }
{
    let mut fields = fields.into_vec();
    fields.sort_by(|one, other| path_cmp(one.name.text(), other.name.text()))?;
    Ok(fields)
}

// Whether fields in the order of their paths may be those of a mapping.
fn are_paths(fields: &[Named<FieldType>]) -> bool
    ensures { result ≡ (list_all (λ field. is_path field.name) fields.now && neighbours_apart (map name_of fields.now)) }
{
    are_each_paths(fields) && are_neighbours_apart(fields)
}

fn are_each_paths(fields: &[Named<FieldType>]) -> bool
    ensures { result ≡ list_all (λ field. is_path field.name) fields.now }
{
    fields.iter().all(|field| is_path(field.name.text()))
}

// Whether no path is the one before it, or that one followed by a dot and more.
fn are_neighbours_apart(fields: &[Named<FieldType>]) -> bool
    ensures { result ≡ neighbours_apart (map name_of fields.now) }
{
    for at in 1..fields.len() {
        if continues(fields[at - 1].name.text(), fields[at].name.text()) {
            return false;
        }
    }
    true
}
