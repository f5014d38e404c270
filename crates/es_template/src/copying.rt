//! Equal templates.
ghost use Rattle.std.specs.Prelude.{◌≡◌, IfOk};

use crate::kinds::{Piece, Property, Template, TemplateMembers, Templates};
use es_base::{Copied, NoMemory};
use es_tree::{Named, room_for};
use std::alloc::Global;

impl Template {
    /// An equal template.
    pub fn copy(&self, alloc: Global) -> Result<Template, NoMemory>
        ensures { IfOk result (λ copy. copy ≡ self.now) }
    {
        copy_template(alloc, self)
    }
}

impl Copied for Template {
    fn copied(&self, alloc: Global) -> Result<Template, NoMemory> {
        self.copy(alloc)
    }
}

fn copy_property(alloc: Global, property: &Property) -> Result<Property, NoMemory>
    ensures { IfOk result (λ copy. copy ≡ property.now) }
{
    match property {
        Property::Username => Ok(Property::Username),
        Property::FullName => Ok(Property::FullName),
        Property::Email => Ok(Property::Email),
        Property::Roles => Ok(Property::Roles),
        Property::Metadata(path) => Ok(Property::Metadata(path.copy(alloc)?)),
    }
}

impl Copied for Piece {
    fn copied(&self, alloc: Global) -> Result<Piece, NoMemory> {
        match self {
            Piece::Text(text) => Ok(Piece::Text(text.copy(alloc)?)),
            Piece::Tag(property) => Ok(Piece::Tag(copy_property(alloc, property)?)),
        }
    }
}

#[cycle(copying)]
fn copy_template(alloc: Global, template: &Template) -> Result<Template, NoMemory>
    ensures { IfOk result (λ copy. copy ≡ template.now) }
{
    match template {
        Template::Null => Ok(Template::Null),
        Template::Bool(truth) => Ok(Template::Bool(*truth)),
        Template::Int(number) => Ok(Template::Int(*number)),
        Template::Text(pieces) => Ok(Template::Text(pieces.copy(alloc)?)),
        Template::Hole(property) => Ok(Template::Hole(copy_property(alloc, property)?)),
        Template::List(items) => Ok(Template::List(copy_templates(alloc, items.as_slice())?)),
        Template::Object(members) => Ok(Template::Object(copy_members(alloc, members)?)),
    }
}

#[cycle(copying)]
fn copy_templates(alloc: Global, templates: &[Template]) -> Result<Templates, NoMemory>
    ensures { IfOk result (λ copies. copies ≡ templates.now) }
{
    let mut copies = room_for(alloc, templates.len())?;
    for template in templates {
        copies.push(copy_template(alloc, template)?)?;
    }
    Ok(copies)
}

#[cycle(copying)]
fn copy_members(alloc: Global, members: &TemplateMembers) -> Result<TemplateMembers, NoMemory>
    ensures { IfOk result (λ copies. copies ≡ members.now) }
{
    let mut copies = room_for(alloc, members.len())?;
    for member in members.as_slice() {
        let name = member.name.copy(alloc)?;
        let value = copy_template(alloc, &member.value)?;
        copies.push(Named { name, value })?;
    }
    Ok(TemplateMembers::of(copies))
}
