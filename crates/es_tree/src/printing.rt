//! From a tree to its text.
ghost use Rattle.std.specs.Prelude.{◌≡◌, ◌≤◌, ℕ, ◌++◌, map, Ok, IfOk, OnOk, IsTrue};
ghost use Rattle.std.specs.List.{list_all};
ghost use Rattle.json.specs.Print.{print, ends_value};
ghost use Rattle.es_tree.specs.Rising.{is_rising, name_of};
ghost use Rattle.es_tree.specs.Order.{is_ordered, is_fitting, levels_of};
ghost use Rattle.es_tree.specs.Read.{max_levels, read_of, read_within_of};
ghost use Rattle.es_tree.specs.Text.{text_of, member_text};
ghost use Rattle.es_tree.specs.Adds.{more_texts, AddsText};

use crate::tree::{Members, Tree};
use es_base::{NoMemory, Str};
use json::Writer;
use std::alloc::Global;

/// The tree as compact JSON (RFC 8259, with no white space): members in the order of their names' bytes, and in
/// strings only what must be escaped, in its shortest form. It reads back under each limit that its levels permit.
pub fn print(alloc: Global, tree: &Tree) -> Result<Str, NoMemory>
    ensures text { IfOk result (λ text. text ≡ text_of tree.now) }
    ensures reads_back { IfOk result (λ text. levels_of tree.now ≤ max_levels → read_of text ≡ Ok tree.now) }
    ensures reads_back_within { IfOk result (λ text. (limit : ℕ) → levels_of tree.now ≤ limit → levels_of tree.now ≤ 127 → read_within_of limit text ≡ Ok tree.now) }
{
    let mut out = Writer::new(Vec::new(alloc));
    write_tree(tree, &mut out)?;
    match String::from_utf8(out.into_inner()) {
        Ok(text) => Ok(Str::from_string(text)),
        Err(_) => unreachable!(),
    }
}

#[cycle(writing)]
#[tactic(auto, using(crate::proofs::Induction::scalars))]
fn write_tree(tree: &Tree, out: &mut Writer) -> Result<(), NoMemory>
    ensures text { OnOk result (AddsText out.old out.new (text_of tree.now)) }
    ensures fits { OnOk result (IsTrue (is_fitting tree.now)) }
    ensures ordered { OnOk result (IsTrue (is_ordered tree.now)) }
{
    match tree {
        Tree::Null => out.null()?,
        Tree::Bool(truth) => out.boolean(*truth)?,
        Tree::Int(number) => out.i64(*number)?,
        Tree::Text(text) => out.string(text.text())?,
        Tree::List(items) => {
            out.begin_array()?;
            write_items(items.as_slice(), out)?;
            out.end_array()?;
        }
        Tree::Object(members) => {
            out.begin_object()?;
            write_members(members, out)?;
            out.end_object()?;
        }
    }
    Ok(())
}

#[cycle(writing)]
fn write_items(items: &[Tree], out: &mut Writer) -> Result<(), NoMemory>
    ensures text { OnOk result (print out.new.tokens ≡ print out.old.tokens ++ more_texts (ends_value out.old.tokens) (map text_of items.now)) }
    ensures fits { OnOk result (IsTrue (list_all is_fitting items.now)) }
    ensures ordered { OnOk result (IsTrue (list_all is_ordered items.now)) }
    ensures before { OnOk result (out.new.before ≡ out.old.before) }
{
    for item in items {
        write_tree(item, out)?;
    }
    Ok(())
}

#[cycle(writing)]
fn write_members(members: &Members, out: &mut Writer) -> Result<(), NoMemory>
    ensures text { OnOk result (print out.new.tokens ≡ print out.old.tokens ++ more_texts (ends_value out.old.tokens) (map member_text members.now)) }
    ensures fits { OnOk result (IsTrue (list_all (λ member. is_fitting member.value) members.now)) }
    ensures ordered { OnOk result (IsTrue (list_all (λ member. is_ordered member.value) members.now)) }
    ensures rising { IsTrue (is_rising (map name_of members.now)) }
    ensures before { OnOk result (out.new.before ≡ out.old.before) }
{
    for member in members.as_slice() {
        out.key(member.name.text())?;
        write_tree(&member.value, out)?;
    }
    Ok(())
}
