//! From mappings to trees.
ghost use Rattle.std.specs.Prelude.{◌≡◌, ◌++◌, ◌<◌, ◌≤◌, ◌+◌, ◌-◌, map, drop, length, slice_get, codes, IfOk, IsTrue, Ok};
ghost use Rattle.std.specs.Option.{option_copied};
ghost use Rattle.es_tree.specs.declared.tree.Tree.{Text};
ghost use Rattle.es_mapping.specs.Paths.{pieces};
ghost use Rattle.es_mapping.specs.Mappings.{mapping_form};
ghost use Rattle.es_mapping.specs.Printed.{type_name, single, field_tree, properties_tree, most_pieces, mapping_tree, left_at, group_trees, is_headed, run_of, are_parted, have_names};

use crate::mapping::Mapping;
use crate::paths::MOST_PIECES;
use es_base::{NoMemory, Seq, Str};
use es_grammar::add;
use es_tree::{Member, Members, Named, Tree};
use es_value::FieldType;
use std::alloc::Global;

impl Mapping {
    /// The tree of the mapping: paths cut at their dots into nested `properties`, without objects that have no field. It
    /// reads back.
    pub fn print(&self, alloc: Global) -> Result<Tree, NoMemory>
        ensures tree { IfOk result (λ printed. printed ≡ mapping_tree self.now) }
        ensures reads_back { mapping_form (mapping_tree self.now) ≡ Ok self.now }
    {
        let fields = properties(alloc, 0, self.fields())?;
        object_of(alloc, "properties", fields)
    }
}

// An object with this one member.
fn object_of(alloc: Global, name: &str, value: Tree) -> Result<Tree, NoMemory>
    ensures { IfOk result (λ tree. tree ≡ single name.now value) }
{
    let mut members = Seq::empty(alloc);
    add(&mut members, alloc, name, value)?;
    Ok(Tree::Object(Members::of(members)))
}

// An object from the names at the depth to the fields under them.
#[cycle(printing)]
fn properties(alloc: Global, depth: usize, fields: &[Named<FieldType>]) -> Result<Tree, NoMemory>
    requires within { depth ≤ most_pieces }
    requires named { IsTrue (have_names (map (left_at depth) fields.now)) }
    ensures { IfOk result (λ tree. tree ≡ properties_tree (most_pieces - depth) (map (left_at depth) fields.now)) }
{
    if depth == MOST_PIECES {
        return Ok(Tree::Object(Members::empty(alloc)));
    }
    let mut members = Seq::empty(alloc);
    let mut from = 0;
    while from < fields.len() {
        from += add_group(alloc, depth, &fields[from..], &mut members)?;
    }
    Ok(Tree::Object(Members::of(members)))
}

// One member more, with the fields at the front that have one name at the depth, and how many these are.
#[cycle(printing)]
fn add_group(
    alloc: Global,
    depth: usize,
    fields: &[Named<FieldType>],
    members: &mut Seq<Member>,
) -> Result<usize, NoMemory>
    requires within { depth < most_pieces }
    requires some { 0 < length fields.now }
    requires named { IsTrue (have_names (map (left_at depth) fields.now)) }
    ensures some { IfOk result (λ count. 0 < count) }
    ensures within { IfOk result (λ count. count ≤ length fields.now) }
    ensures added { IfOk result (λ count. members.new ++ group_trees (most_pieces - (depth + 1)) (map (left_at depth) (drop count fields.now)) ≡ members.old ++ group_trees (most_pieces - (depth + 1)) (map (left_at depth) fields.now)) }
{
    let Some(name) = piece(fields[0].name.text(), depth) else {
        unreachable!()
    };
    let count = with_name(fields, depth, name);
    let value = field(alloc, depth + 1, &fields[..count])?;
    add(members, alloc, name, value)?;
    Ok(count)
}

// A type, where the names end at the depth, or the fields under the names there.
#[cycle(printing)]
fn field(alloc: Global, depth: usize, fields: &[Named<FieldType>]) -> Result<Tree, NoMemory>
    requires within { depth ≤ most_pieces }
    requires some { 0 < length fields.now }
    requires parted { IsTrue (are_parted (map (left_at depth) fields.now)) }
    ensures { IfOk result (λ tree. tree ≡ field_tree (properties_tree (most_pieces - depth)) (map (left_at depth) fields.now)) }
{
    match piece(fields[0].name.text(), depth) {
        Some(_) => object_of(alloc, "properties", properties(alloc, depth, fields)?),
        None => typed(alloc, fields[0].value),
    }
}

fn typed(alloc: Global, kind: FieldType) -> Result<Tree, NoMemory>
    ensures { IfOk result (λ tree. tree ≡ single (codes "type") (Text (type_name kind))) }
{
    let name = Str::of(alloc, name_of(kind))?;
    object_of(alloc, "type", Tree::Text(name))
}

fn name_of(kind: FieldType) -> &'static str
    ensures { result.now ≡ type_name kind }
{
    match kind {
        FieldType::Keyword => "keyword",
        FieldType::Long => "long",
        FieldType::Date => "date",
    }
}

// How many fields at the front have the name at the depth.
fn with_name(fields: &[Named<FieldType>], depth: usize, name: &str) -> usize
    ensures { result ≡ run_of name.now (map (left_at depth) fields.now) }
{
    for (at, field) in fields.iter().enumerate() {
        if !has_name(field, depth, name) {
            return at;
        }
    }
    fields.len()
}

fn has_name(field: &Named<FieldType>, depth: usize, name: &str) -> bool
    ensures { result ≡ is_headed name.now (drop depth (pieces field.now.name)) }
{
    match piece(field.name.text(), depth) {
        Some(piece) => piece == name,
        None => false,
    }
}

// The name in the path at the depth, counted from 0.
fn piece(path: &str, depth: usize) -> Option<&str>
    ensures { option_copied result ≡ slice_get (pieces path.now) depth }
{
    path.split('.').nth(depth)
}
