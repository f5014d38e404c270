//! From trees to mappings.
ghost use Rattle.std.specs.Prelude.{◌≡◌, ◌++◌, ◌∷◌, [], List, ℕ, Option, Some, IfOk, OnOk, IsTrue, true, false, codes};
ghost use Rattle.std.specs.Option.{option_copied};
ghost use Rattle.es_tree.specs.Leaves.{longer};
ghost use Rattle.es_tree.specs.declared.tree.Tree.{Tree};
ghost use Rattle.es_grammar.specs.Reading.{Gives, below, placed};
ghost use Rattle.es_grammar.specs.Members.{inside};
ghost use Rattle.es_mapping.specs.Mappings.{type_named, not_dynamic_form, named_field, properties_form, field_at, mapping_form, is_mapping};
ghost use Rattle.es_mapping.specs.Below.{at_path, at_path_if, fields_of, field_with, field_lines, mapping_lines};

use crate::arranging::arranged;
use crate::mapping::{Fields, Mapping};
use crate::sizes::is_kept_whole;
use es_base::{NoMemory, Seq, Str};
use es_grammar::{
    Form, Prints, Spelling, TextOf, ends, here, members_of, next, optional, or_empty, placed, under,
};
use es_tree::{BodyFault, Member, Named, Tree};
use es_value::FieldType;
use std::alloc::Global;

/// More levels than any tree in memory has.
const MOST_LEVELS: usize = usize::MAX;

/// The names of types. A field of type `object` has fields in it.
struct TypeName;

impl Spelling for TypeName {
    type Out = Option<FieldType>;

    ghost named = { type_named };

    fn parse(_alloc: Global, text: &str) -> Result<Option<Option<FieldType>>, NoMemory> {
        Ok(match text {
            "keyword" => Some(Some(FieldType::Keyword)),
            "long" => Some(Some(FieldType::Long)),
            "date" => Some(Some(FieldType::Date)),
            "object" => Some(None),
            _ => None,
        })
    }
}

/// The truth value `false`, or its text.
struct NotDynamic;

impl Form for NotDynamic {
    type Out = ();

    ghost form = { not_dynamic_form };

    ghost sound = { λ _. true };

    fn read(alloc: Global, tree: &Tree) -> Result<(), BodyFault> {
        match tree {
            Tree::Bool(false) => Ok(()),
            Tree::Text(text) if text.text() == "false" => Ok(()),
            _ => Err(here(alloc)),
        }
    }
}

/// Mappings, for grammars that have them in other values.
pub struct MappingForm;

impl Form for MappingForm {
    ghost use Rattle.es_mapping.specs.Mappings.{mapping_form, is_mapping};

    type Out = Mapping;

    ghost form = { mapping_form };

    ghost sound = { is_mapping };

    fn read(alloc: Global, tree: &Tree) -> Result<Mapping, BodyFault> {
        if !is_kept_whole(tree) {
            return Err(BodyFault::NoMemory);
        }
        mapping_of(alloc, MOST_LEVELS, tree)
    }
}

impl Prints for MappingForm {
    ghost use Rattle.es_mapping.specs.Printed.{mapping_tree};

    ghost tree = { mapping_tree };

    fn print(alloc: Global, mapping: &Mapping) -> Result<Tree, NoMemory> {
        mapping.print(alloc)
    }
}

impl Mapping {
    /// The mapping that the tree is. `place` is the tree's own place in what was read: names and numbers from the
    /// outermost value on, joined by dots. `Bad` has the place of the first fault, in the order of the members' names. A path
    /// that is empty in a piece, that has more than 30 pieces, that is there twice, or that is another one followed by a dot
    /// and more, is a fault at the tree itself, behind all others.
    ///
    /// Each field keeps its whole path. A tree whose paths take many times what its names do is refused for want of memory,
    /// before anything is kept.
    pub fn read(alloc: Global, tree: &Tree, place: &str) -> Result<Mapping, BodyFault>
        ensures { Gives result (placed place.now (mapping_form tree.now)) }
    {
        placed(alloc, place, MappingForm::read(alloc, tree))
    }
}

fn mapping_of(alloc: Global, levels: usize, tree: &Tree) -> Result<Mapping, BodyFault>
    ensures gives { Gives result (mapping_lines levels tree.now) }
    ensures sound { IfOk result (λ mapping. IsTrue (is_mapping mapping)) }
{
    let members = members_of(alloc, tree)?;
    let (_, members) = optional::<NotDynamic>(alloc, "dynamic", members)?;
    let (found, members) = next(alloc, "properties", members)?;
    let fields = given_properties(alloc, levels, &Str::empty(alloc), true, found)?;
    ends(alloc, members)?;
    arranged(alloc, or_empty(alloc, fields))
}

// The fields below the path that the member `properties` has, where it is there.
#[cycle(fields)]
fn given_properties(
    alloc: Global,
    levels: usize,
    path: &Str,
    is_top: bool,
    found: Option<&Tree>,
) -> Result<Option<Fields>, BodyFault>
    ensures { Gives result (at_path_if is_top path.now (inside (codes "properties") (properties_form (field_at levels)) (option_copied found.entry))) }
{
    match found {
        Some(tree) => {
            let fields = properties(alloc, levels, path, is_top, tree);
            Ok(Some(under(alloc, "properties", fields)?))
        }
        None => Ok(None),
    }
}

// The fields below the path in an object from names to fields.
#[cycle(fields)]
fn properties(
    alloc: Global,
    levels: usize,
    path: &Str,
    is_top: bool,
    tree: &Tree,
) -> Result<Fields, BodyFault>
    ensures { Gives result (at_path is_top path.now (properties_form (field_at levels) tree.now)) }
{
    let members = members_of(alloc, tree)?;
    each_field(alloc, levels, path, is_top, members)
}

#[cycle(fields)]
fn each_field(
    alloc: Global,
    levels: usize,
    path: &Str,
    is_top: bool,
    members: &[Member],
) -> Result<Fields, BodyFault>
    ensures { Gives result (at_path is_top path.now (fields_of (field_at levels) members.now)) }
{
    let mut found = Vec::new(alloc);
    for member in members {
        let fields = fields_at(alloc, levels, path, is_top, member)?;
        add_all(&mut found, fields)?;
    }
    Ok(Seq::from_vec(found))
}

fn add_all(found: &mut Vec<Named<FieldType>>, fields: Fields) -> Result<(), NoMemory>
    ensures { OnOk result (found.new.items ≡ found.old.items ++ fields) }
{
    found.append(&mut fields.into_vec())?;
    Ok(())
}

#[cycle(fields)]
fn fields_at(
    alloc: Global,
    levels: usize,
    path: &Str,
    is_top: bool,
    member: &Member,
) -> Result<Fields, BodyFault>
    ensures { Gives result (at_path is_top path.now (below member.now.name (named_field (field_at levels) member.now.name member.now.value))) }
{
    let longer = longer_path(alloc, path, is_top, &member.name)?;
    let fields = field(alloc, levels, &longer, &member.value);
    under(alloc, member.name.text(), fields)
}

fn longer_path(alloc: Global, path: &Str, is_top: bool, name: &Str) -> Result<Str, NoMemory>
    ensures { IfOk result (λ longer_path. longer_path ≡ longer is_top path.now name.now) }
{
    if is_top {
        return name.copy(alloc);
    }
    let mut text = path.copy(alloc)?;
    text.push('.')?;
    text.push_str(name.text())?;
    Ok(text)
}

// The field at the path, or the fields below it, at most so many levels deep.
#[cycle(fields)]
fn field(alloc: Global, levels: usize, path: &Str, tree: &Tree) -> Result<Fields, BodyFault>
    ensures { Gives result (at_path false path.now (field_at levels tree.now)) }
{
    if levels == 0 {
        return Err(here(alloc));
    }
    field_in(alloc, levels - 1, path, tree)
}

#[cycle(fields)]
fn field_in(alloc: Global, levels: usize, path: &Str, tree: &Tree) -> Result<Fields, BodyFault>
    ensures { Gives result (field_lines path.now (field_at levels) tree.now) }
{
    let members = members_of(alloc, tree)?;
    let (found, members) = next(alloc, "properties", members)?;
    let fields = given_properties(alloc, levels, path, false, found)?;
    let (kind, members) = optional::<TextOf<TypeName>>(alloc, "type", members)?;
    ends(alloc, members)?;
    field_with(alloc, path, kind, fields)
}

// A field of a type, or the fields of an object.
fn field_with(
    alloc: Global,
    path: &Str,
    kind: Option<Option<FieldType>>,
    fields: Option<Fields>,
) -> Result<Fields, BodyFault>
    ensures { Gives result (field_with path.now kind fields) }
{
    match (kind, fields) {
        (None | Some(None), Some(fields)) => Ok(fields),
        (Some(Some(kind)), None) => Ok(one_field(alloc, path, kind)?),
        _ => Err(here(alloc)),
    }
}

fn one_field(alloc: Global, path: &Str, kind: FieldType) -> Result<Fields, NoMemory>
    ensures { IfOk result (λ fields. fields ≡ record { name = path.now; value = kind } ∷ []) }
{
    let mut fields = Seq::empty(alloc);
    fields.push(Named {
        name: path.copy(alloc)?,
        value: kind,
    })?;
    Ok(fields)
}
