//! From trees to templates.
ghost use Rattle.std.specs.Prelude.{◌≡◌, map, true};
ghost use Rattle.es_grammar.specs.Reading.{Gives, below, placed};
ghost use Rattle.es_grammar.specs.Values.{items_of};
ghost use Rattle.es_template.specs.Sources.{text_template, name_form, members_form, member_reading, template_form, text_source, source_form};

use crate::kinds::{Template, TemplateMembers, Templates};
use crate::marks::cut;
use crate::sources::source_object;
use crate::tags::{OPENING, hole, pieces};
use es_base::Str;
use es_grammar::{Form, at, here, needed, placed, under, under_item};
use es_tree::{BodyFault, Members, Named, Tree, room_for};
use std::alloc::Global;

/// Sources of templates: objects, and texts that are read as objects once each toJson tag outside of their strings is
/// in quotes.
pub struct SourceForm;

impl Form for SourceForm {
    type Out = Template;

    ghost form = { source_form };

    ghost sound = { λ _. true };

    #[tactic(auto, unfolding(crate::specs::Sources::source_form))]
    fn read(alloc: Global, tree: &Tree) -> Result<Template, BodyFault> {
        match tree {
            Tree::Object(_) => template(alloc, tree),
            Tree::Text(text) => of_text(alloc, text.text()),
            _ => Err(here(alloc)),
        }
    }
}

impl Template {
    /// The template of a source: of an object, or of the object that a text is. `place` is the source's own place in
    /// what was read: names and numbers from the outermost value on, joined by dots. `Bad` has the place of the first
    /// fault, in the order of the members' names; a text that can't be read, or is no object, is a fault at the source.
    pub fn read(alloc: Global, source: &Tree, place: &str) -> Result<Template, BodyFault>
        ensures { Gives result (placed place.now (source_form source.now)) }
    {
        placed(alloc, place, SourceForm::read(alloc, source))
    }
}

fn of_text(alloc: Global, text: &str) -> Result<Template, BodyFault>
    ensures { Gives result (text_source text.now) }
{
    let object = source_object(alloc, text)?;
    template(alloc, &object)
}

#[cycle(reading)]
#[tactic(auto, using(crate::proofs::Forms::template_forms))]
fn template(alloc: Global, tree: &Tree) -> Result<Template, BodyFault>
    ensures { Gives result (template_form tree.now) }
{
    match tree {
        Tree::Null => Ok(Template::Null),
        Tree::Bool(truth) => Ok(Template::Bool(*truth)),
        Tree::Int(number) => Ok(Template::Int(*number)),
        Tree::Text(text) => text_template(alloc, text.text()),
        Tree::List(items) => Ok(Template::List(templates(alloc, items.as_slice())?)),
        Tree::Object(members) => Ok(Template::Object(template_members(alloc, members)?)),
    }
}

#[cycle(reading)]
fn templates(alloc: Global, trees: &[Tree]) -> Result<Templates, BodyFault>
    ensures { Gives result (items_of template_form 0 trees.now) }
{
    let mut found = room_for(alloc, trees.len())?;
    for (number, tree) in trees.iter().enumerate() {
        found.push(under_item(alloc, number, template(alloc, tree))?)?;
    }
    Ok(found)
}

#[cycle(reading)]
fn template_members(alloc: Global, members: &Members) -> Result<TemplateMembers, BodyFault>
    ensures { Gives result (members_form (map member_reading members.now)) }
{
    let mut found = room_for(alloc, members.len())?;
    for member in members.as_slice() {
        let name = name_without_tags(alloc, &member.name)?;
        let value = under(alloc, name.text(), template(alloc, &member.value))?;
        found.push(Named { name, value })?;
    }
    Ok(TemplateMembers::of(found))
}

fn name_without_tags(alloc: Global, name: &Str) -> Result<Str, BodyFault>
    ensures { Gives result (below name.now (name_form name.now)) }
{
    match cut(OPENING, name.text()) {
        Some(_) => Err(at(alloc, name.text())),
        None => Ok(name.copy(alloc)?),
    }
}

// A hole, or the pieces of a text.
#[tactic(auto, unfolding(crate::specs::Sources::text_template))]
fn text_template(alloc: Global, text: &str) -> Result<Template, BodyFault>
    ensures { Gives result (text_template text.now) }
{
    match hole(alloc, text)? {
        Some(property) => Ok(Template::Hole(property)),
        None => Ok(Template::Text(needed(alloc, pieces(alloc, text)?)?)),
    }
}
