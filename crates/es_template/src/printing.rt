//! From templates to trees.
ghost use Rattle.std.specs.Prelude.{◌≡◌, ◌++◌, map, codes, IfOk, OnOk};
ghost use Rattle.std.specs.List.{flat_map};
ghost use Rattle.es_grammar.specs.Printing.{named_tree};
ghost use Rattle.es_template.specs.Marks.{joined, behind_marks};
ghost use Rattle.es_template.specs.Tags.{property_name};
ghost use Rattle.es_template.specs.Printed.{piece_text, hole_text, template_tree};

use crate::kinds::{Piece, Property, Template, TemplateMembers};
use crate::tags::{CLOSING, JSON_CLOSING, JSON_OPENING, METADATA, OPENING};
use es_base::{NoMemory, Str};
use es_tree::{Member, Members, Tree, Trees, room_for};
use std::alloc::Global;

impl Template {
    /// The tree that the template prints as: each tag without spaces around its name.
    pub fn print(&self, alloc: Global) -> Result<Tree, NoMemory>
        ensures { IfOk result (λ tree. tree ≡ template_tree self.now) }
    {
        tree_of(alloc, self)
    }
}

// Names with a dot before each.
fn add_dotted(out: &mut Str, names: &[Str]) -> Result<(), NoMemory>
    ensures { OnOk result (out.new ≡ out.old ++ behind_marks (codes ".") names.now) }
{
    for name in names {
        out.push_str(".")?;
        out.push_str(name.text())?;
    }
    Ok(())
}

// Names with a dot between each two.
fn add_path(out: &mut Str, names: &[Str]) -> Result<(), NoMemory>
    ensures { OnOk result (out.new ≡ out.old ++ joined (codes ".") names.now) }
{
    match names {
        [] => Ok(()),
        [first, rest @ ..] => {
            out.push_str(first.text())?;
            add_dotted(out, rest)
        }
    }
}

fn add_name(out: &mut Str, property: &Property) -> Result<(), NoMemory>
    ensures { OnOk result (out.new ≡ out.old ++ property_name property.now) }
{
    match property {
        Property::Username => out.push_str("_user.username"),
        Property::FullName => out.push_str("_user.full_name"),
        Property::Email => out.push_str("_user.email"),
        Property::Roles => out.push_str("_user.roles"),
        Property::Metadata(path) => {
            out.push_str(METADATA)?;
            add_path(out, path.as_slice())
        }
    }
}

fn add_piece(out: &mut Str, piece: &Piece) -> Result<(), NoMemory>
    ensures { OnOk result (out.new ≡ out.old ++ piece_text piece.now) }
{
    match piece {
        Piece::Text(text) => out.push_str(text.text()),
        Piece::Tag(property) => {
            out.push_str(OPENING)?;
            add_name(out, property)?;
            out.push_str(CLOSING)
        }
    }
}

fn pieces_text(alloc: Global, pieces: &[Piece]) -> Result<Str, NoMemory>
    ensures { IfOk result (λ text. text ≡ flat_map piece_text pieces.now) }
{
    let mut text = Str::empty(alloc);
    for piece in pieces {
        add_piece(&mut text, piece)?;
    }
    Ok(text)
}

fn hole_text(alloc: Global, property: &Property) -> Result<Str, NoMemory>
    ensures { IfOk result (λ text. text ≡ hole_text property.now) }
{
    let mut text = Str::of(alloc, JSON_OPENING)?;
    add_name(&mut text, property)?;
    text.push_str(JSON_CLOSING)?;
    Ok(text)
}

#[cycle(printing)]
#[tactic(auto, using(crate::proofs::Trees::template_trees))]
fn tree_of(alloc: Global, template: &Template) -> Result<Tree, NoMemory>
    ensures { IfOk result (λ tree. tree ≡ template_tree template.now) }
{
    match template {
        Template::Null => Ok(Tree::Null),
        Template::Bool(truth) => Ok(Tree::Bool(*truth)),
        Template::Int(number) => Ok(Tree::Int(*number)),
        Template::Text(pieces) => Ok(Tree::Text(pieces_text(alloc, pieces.as_slice())?)),
        Template::Hole(property) => Ok(Tree::Text(hole_text(alloc, property)?)),
        Template::List(items) => Ok(Tree::List(trees_of(alloc, items.as_slice())?)),
        Template::Object(members) => Ok(Tree::Object(members_of(alloc, members)?)),
    }
}

#[cycle(printing)]
fn trees_of(alloc: Global, templates: &[Template]) -> Result<Trees, NoMemory>
    ensures { IfOk result (λ trees. trees ≡ map template_tree templates.now) }
{
    let mut trees = room_for(alloc, templates.len())?;
    for template in templates {
        trees.push(tree_of(alloc, template)?)?;
    }
    Ok(trees)
}

#[cycle(printing)]
fn members_of(alloc: Global, members: &TemplateMembers) -> Result<Members, NoMemory>
    ensures { IfOk result (λ found. found ≡ map (named_tree template_tree) members.now) }
{
    let mut found = room_for(alloc, members.len())?;
    for member in members.as_slice() {
        let name = member.name.copy(alloc)?;
        let value = tree_of(alloc, &member.value)?;
        found.push(Member { name, value })?;
    }
    Ok(Members::of(found))
}
