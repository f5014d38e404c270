//! Documents under a mapping.
ghost use Rattle.std.specs.Prelude.{◌≡◌, List, IfOk, IsTrue, map, is_some};
ghost use Rattle.std.specs.List.{flat_map};
ghost use Rattle.std.specs.Option.{option_copied};
ghost use Rattle.es_tree.specs.declared.tree.Tree.{Tree, out-Tree};
ghost use Rattle.es_tree.specs.declared.tree.Named.{Named};
ghost use Rattle.es_tree.specs.Leaves.{paths_of, extended};
ghost use Rattle.es_value.specs.declared.kinds.FieldType.{FieldType};
ghost use Rattle.es_value.specs.Values.{typed};
ghost use Rattle.es_mapping.specs.Paths.{are_rising};
ghost use Rattle.es_mapping.specs.Checking.{values_of, fault_in, unless_typed, Checks};
ghost use Rattle.es_mapping.specs.Possible.{left_from, rest_of, first_along, fault_under};

use crate::kinds::ValueFault;
use crate::mapping::Mapping;
use crate::narrowing::{Possible, behind};
use es_base::{NoMemory, Seq};
use es_path::{ScalarMap, gather};
use es_tree::{Members, Named, Tree};
use es_value::{FieldType, Value, Values, read_value, read_whole};
use std::alloc::Global;

/// The values of scalars in a field of this type.
#[derive(Drop)]
struct OfType {
    kind: FieldType,
}

impl ScalarMap for OfType {
    ghost use Rattle.es_value.specs.Values.{typed};

    type Out = Value;

    ghost given_by = { λ of_type scalar. typed of_type.kind scalar };

    fn give(&self, alloc: Global, scalar: &Tree) -> Result<Option<Value>, NoMemory> {
        read_value(alloc, self.kind, scalar)
    }
}

impl Mapping {
    /// The first non-null value at a mapped path that isn't of its type is a fault. Values at other paths and null are of
    /// every type. It takes memory for a fault alone, and passes over what has no field in it.
    pub fn check(&self, alloc: Global, document: &Tree) -> Result<(), ValueFault>
        ensures { Checks result (fault_in self.now document.now) }
    {
        let possible = Possible {
            field: None,
            from: 0,
            fields: self.fields(),
        };
        check_within(alloc, possible, document)
    }

    /// The values of the field at the path, in the document's order. A value that isn't of the field's type gives none, and
    /// so does null; a path without a field has none.
    #[tactic(auto, unfolding(crate::specs::Checking::values_of))]
    pub fn values(&self, alloc: Global, document: &Tree, path: &str) -> Result<Values, NoMemory>
        ensures { IfOk result (λ values. values ≡ values_of self.now document.now path.now) }
    {
        match self.kind(path) {
            Some(kind) => gather(alloc, document, path, &OfType { kind }),
            None => Ok(Seq::empty(alloc)),
        }
    }
}

// The first fault of a tree, where these fields are possible.
#[cycle(checking)]
fn check_within(alloc: Global, possible: Possible<'_>, tree: &Tree) -> Result<(), ValueFault>
    requires { IsTrue (are_rising (map (left_from possible.from) possible.fields.now)) }
    ensures { Checks result (first_along (rest_of possible.entry) (paths_of tree.now)) }
{
    if possible.field.is_none() && possible.fields.is_empty() {
        return Ok(());
    }
    match tree {
        Tree::Null | Tree::Bool(_) | Tree::Int(_) | Tree::Text(_) => {
            check_scalar(alloc, possible.field, tree)
        }
        Tree::List(items) => check_items(alloc, possible, items.as_slice()),
        Tree::Object(members) => check_members(alloc, possible, members),
    }
}

#[cycle(checking)]
fn check_items(alloc: Global, possible: Possible<'_>, items: &[Tree]) -> Result<(), ValueFault>
    requires { IsTrue (are_rising (map (left_from possible.from) possible.fields.now)) }
    ensures { Checks result (first_along (rest_of possible.entry) (flat_map paths_of items.now)) }
{
    for item in items {
        check_within(alloc, possible, item)?;
    }
    Ok(())
}

#[cycle(checking)]
fn check_members(alloc: Global, possible: Possible<'_>, members: &Members) -> Result<(), ValueFault>
    requires { IsTrue (are_rising (map (left_from possible.from) possible.fields.now)) }
    ensures { Checks result (first_along (rest_of possible.entry) (flat_map (λ m. extended m.name (paths_of m.value)) members.now)) }
{
    for member in members.as_slice() {
        let name = member.name.text().as_bytes();
        check_within(
            alloc,
            behind(possible.fields, possible.from, name),
            &member.value,
        )?;
    }
    Ok(())
}

fn check_scalar(
    alloc: Global,
    field: Option<&Named<FieldType>>,
    scalar: &Tree,
) -> Result<(), ValueFault>
    ensures { Checks result (fault_under (option_copied field.entry) scalar.now) }
{
    match (field, scalar) {
        (None, _) | (_, Tree::Null) => Ok(()),
        (Some(field), scalar) => check_typed(alloc, field, scalar),
    }
}

fn check_typed(alloc: Global, field: &Named<FieldType>, scalar: &Tree) -> Result<(), ValueFault>
    ensures { Checks result (unless_typed field.now.name field.now.value (typed field.now.value scalar.now)) }
{
    if is_typed(field.value, scalar) {
        return Ok(());
    }
    Err(ValueFault::BadValue {
        path: field.name.copy(alloc)?,
        kind: field.value,
    })
}

// Whether the scalar is of the type. It takes no memory.
fn is_typed(kind: FieldType, scalar: &Tree) -> bool
    ensures { result ≡ is_some (typed kind scalar.now) }
{
    match kind {
        FieldType::Keyword => matches!(scalar, Tree::Bool(_) | Tree::Int(_) | Tree::Text(_)),
        FieldType::Long => read_whole(FieldType::Long, scalar).is_some(),
        FieldType::Date => read_whole(FieldType::Date, scalar).is_some(),
    }
}
