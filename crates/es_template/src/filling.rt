//! Templates filled for a person.
ghost use Rattle.std.specs.Prelude.{◌≡◌, ◌++◌, map, IfOk, OnOk};
ghost use Rattle.std.specs.List.{flat_map};
ghost use Rattle.std.specs.Option.{option_copied};
ghost use Rattle.es_tree.specs.declared.tree.Tree as tree;
ghost use Rattle.es_grammar.specs.Printing.{named_tree};
ghost use Rattle.es_template.specs.Filling.{text_or_null, or_null, value_at, value_of, tag_text, filled_piece, filled};

use crate::kinds::{Piece, Property, Template, TemplateMembers};
use crate::room::{ROOM, spend, spend_tree};
use es_base::{NoMemory, Str};
use es_tree::{Member, Members, Person, Tree, Trees, print, room_for};
use std::alloc::Global;

impl Template {
    /// The tree that the template gives for the person: the value itself in place of each hole, and in a text the text
    /// of the value in place of each tag. Nothing of the person is read as JSON or as a tag. Want of memory is also the
    /// answer where the tree would hold more than 16 MiB.
    pub fn render(&self, alloc: Global, person: &Person) -> Result<Tree, NoMemory>
        ensures { IfOk result (λ tree. tree ≡ filled person.now self.now) }
    {
        let mut room = ROOM;
        filled_tree(&mut room, alloc, person, self)
    }
}

// What the names lead to, through the members of objects.
fn value_at<'a>(path: &[Str], tree: &'a Tree) -> Option<&'a Tree>
    ensures { or_null (option_copied result) ≡ value_at path.now tree.now }
{
    let mut found = tree;
    for name in path {
        match found.member(name.text()) {
            Some(value) => found = value,
            None => return None,
        }
    }
    Some(found)
}

fn text_or_null(alloc: Global, text: &Option<Str>) -> Result<Tree, NoMemory>
    ensures { IfOk result (λ tree. tree ≡ text_or_null text.now) }
{
    match text {
        Some(text) => Ok(Tree::Text(text.copy(alloc)?)),
        None => Ok(Tree::Null),
    }
}

fn texts(alloc: Global, items: &[Str]) -> Result<Trees, NoMemory>
    ensures { IfOk result (λ trees. trees ≡ map tree.Text items.now) }
{
    let mut trees = room_for(alloc, items.len())?;
    for item in items {
        trees.push(Tree::Text(item.copy(alloc)?))?;
    }
    Ok(trees)
}

// The value of a property.
fn value(alloc: Global, person: &Person, property: &Property) -> Result<Tree, NoMemory>
    ensures { IfOk result (λ value. value ≡ value_of person.now property.now) }
{
    match property {
        Property::Username => Ok(Tree::Text(person.username.copy(alloc)?)),
        Property::FullName => text_or_null(alloc, &person.full_name),
        Property::Email => text_or_null(alloc, &person.email),
        Property::Roles => Ok(Tree::List(texts(alloc, person.roles.as_slice())?)),
        Property::Metadata(path) => match value_at(path.as_slice(), &person.metadata) {
            Some(value) => value.copy(alloc),
            None => Ok(Tree::Null),
        },
    }
}

// What a value is inside a text.
fn add_value(out: &mut Str, alloc: Global, value: &Tree) -> Result<(), NoMemory>
    ensures { OnOk result (out.new ≡ out.old ++ tag_text value.now) }
{
    match value {
        Tree::Null => Ok(()),
        Tree::Text(text) => out.push_str(text.text()),
        _ => {
            let text = print(alloc, value)?;
            out.push_str(text.text())
        }
    }
}

#[tactic(auto, using(crate::proofs::Values::tag_texts))]
fn add_given(out: &mut Str, text: &Option<Str>) -> Result<(), NoMemory>
    ensures { OnOk result (out.new ≡ out.old ++ tag_text (text_or_null text.now)) }
{
    match text {
        Some(text) => out.push_str(text.text()),
        None => Ok(()),
    }
}

// The text of a property's value.
#[tactic(auto, using(crate::proofs::Values::tag_texts))]
fn add_property(
    out: &mut Str,
    alloc: Global,
    person: &Person,
    property: &Property,
) -> Result<(), NoMemory>
    ensures { OnOk result (out.new ≡ out.old ++ tag_text (value_of person.now property.now)) }
{
    match property {
        Property::Username => out.push_str(person.username.text()),
        Property::FullName => add_given(out, &person.full_name),
        Property::Email => add_given(out, &person.email),
        Property::Roles => {
            let roles = Tree::List(texts(alloc, person.roles.as_slice())?);
            add_value(out, alloc, &roles)
        }
        Property::Metadata(path) => match value_at(path.as_slice(), &person.metadata) {
            Some(value) => add_value(out, alloc, value),
            None => Ok(()),
        },
    }
}

fn add_piece(out: &mut Str, alloc: Global, person: &Person, piece: &Piece) -> Result<(), NoMemory>
    ensures { OnOk result (out.new ≡ out.old ++ filled_piece person.now piece.now) }
{
    match piece {
        Piece::Text(text) => out.push_str(text.text()),
        Piece::Tag(property) => add_property(out, alloc, person, property),
    }
}

fn filled_text(
    room: &mut usize,
    alloc: Global,
    person: &Person,
    pieces: &[Piece],
) -> Result<Str, NoMemory>
    ensures { IfOk result (λ text. text ≡ flat_map (filled_piece person.now) pieces.now) }
{
    let mut text = Str::empty(alloc);
    for piece in pieces {
        add_piece(&mut text, alloc, person, piece)?;
        if text.text().len() > *room {
            return Err(NoMemory);
        }
    }
    spend(room, text.text().len())?;
    Ok(text)
}

fn filled_hole(
    room: &mut usize,
    alloc: Global,
    person: &Person,
    property: &Property,
) -> Result<Tree, NoMemory>
    ensures { IfOk result (λ value. value ≡ value_of person.now property.now) }
{
    let value = value(alloc, person, property)?;
    spend_tree(room, &value)?;
    Ok(value)
}

#[cycle(filling)]
#[tactic(auto, using(crate::proofs::Trees::filled_trees))]
fn filled_tree(
    room: &mut usize,
    alloc: Global,
    person: &Person,
    template: &Template,
) -> Result<Tree, NoMemory>
    ensures { IfOk result (λ tree. tree ≡ filled person.now template.now) }
{
    match template {
        Template::Null => Ok(Tree::Null),
        Template::Bool(truth) => Ok(Tree::Bool(*truth)),
        Template::Int(number) => Ok(Tree::Int(*number)),
        Template::Text(pieces) => {
            let text = filled_text(room, alloc, person, pieces.as_slice())?;
            Ok(Tree::Text(text))
        }
        Template::Hole(property) => filled_hole(room, alloc, person, property),
        Template::List(items) => {
            let trees = filled_trees(room, alloc, person, items.as_slice())?;
            Ok(Tree::List(trees))
        }
        Template::Object(members) => {
            let members = filled_members(room, alloc, person, members)?;
            Ok(Tree::Object(members))
        }
    }
}

#[cycle(filling)]
fn filled_trees(
    room: &mut usize,
    alloc: Global,
    person: &Person,
    templates: &[Template],
) -> Result<Trees, NoMemory>
    ensures { IfOk result (λ trees. trees ≡ map (filled person.now) templates.now) }
{
    let mut trees = room_for(alloc, templates.len())?;
    for template in templates {
        trees.push(filled_tree(room, alloc, person, template)?)?;
    }
    Ok(trees)
}

#[cycle(filling)]
fn filled_members(
    room: &mut usize,
    alloc: Global,
    person: &Person,
    members: &TemplateMembers,
) -> Result<Members, NoMemory>
    ensures { IfOk result (λ found. found ≡ map (named_tree (filled person.now)) members.now) }
{
    let mut found = room_for(alloc, members.len())?;
    for member in members.as_slice() {
        let name = member.name.copy(alloc)?;
        let value = filled_tree(room, alloc, person, &member.value)?;
        found.push(Member { name, value })?;
    }
    Ok(Members::of(found))
}
