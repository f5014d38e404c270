//! What answers print.
use es_base::{Seq, Str};
use es_compose::{DocClause, Permission};
use es_glob::FieldClause;
use es_keys::NamedDescriptors;
use es_tree::{Person, Tree, print};
use esec_cells::{Fault, alone, both};
use std::alloc::Global;

/// One member more of an object that isn't closed yet.
pub fn add_member(text: &mut Str, name: &str, value: &str) -> Result<(), Fault> {
    let front = if text.is_empty() { "{\"" } else { ",\"" };
    text.push_str(front)?;
    text.push_str(name)?;
    text.push_str("\":")?;
    text.push_str(value)?;
    Ok(())
}

/// One member more that is a text.
pub fn add_text(text: &mut Str, alloc: Global, name: &str, value: &str) -> Result<(), Fault> {
    add_member(text, name, quoted(alloc, value)?.text())
}

/// A text as JSON.
pub fn quoted(alloc: Global, text: &str) -> Result<Str, Fault> {
    Ok(print(alloc, &Tree::Text(Str::of(alloc, text)?))?)
}

/// The names and the descriptors, in their order.
pub fn descriptors_text(alloc: Global, named: &NamedDescriptors) -> Result<Str, Fault> {
    let mut text = Str::of(alloc, "{")?;
    let mut separator = "";
    for member in named.as_slice() {
        text.push_str(separator)?;
        text.push_str(quoted(alloc, member.name.text())?.text())?;
        text.push(':')?;
        let tree = member.part.get().descriptor().print(alloc)?;
        text.push_str(print(alloc, &tree)?.text())?;
        separator = ",";
    }
    text.push('}')?;
    Ok(text)
}

/// A person as an object.
pub fn person_text(alloc: Global, person: &Person) -> Result<Str, Fault> {
    let mut text = Str::empty(alloc);
    add_if_given(&mut text, alloc, "email", &person.email)?;
    add_if_given(&mut text, alloc, "full_name", &person.full_name)?;
    add_member(
        &mut text,
        "metadata",
        print(alloc, &person.metadata)?.text(),
    )?;
    let mut roles = Seq::empty(alloc);
    for role in person.roles.as_slice() {
        roles.push(Tree::Text(role.copy(alloc)?))?;
    }
    add_member(&mut text, "roles", print(alloc, &Tree::List(roles))?.text())?;
    add_text(&mut text, alloc, "username", person.username.text())?;
    text.push('}')?;
    Ok(text)
}

fn add_if_given(
    text: &mut Str,
    alloc: Global,
    name: &str,
    value: &Option<Str>,
) -> Result<(), Fault> {
    match value {
        Some(value) => add_text(text, alloc, name, value.text()),
        None => add_member(text, name, "null"),
    }
}

/// What a permission says: the first clauses alone where both second ones are `all`, else both clauses of each rule.
pub fn permitted(alloc: Global, permission: &Permission) -> Result<Str, Fault> {
    match (&permission.docs.second, &permission.fields.second) {
        (DocClause::All, FieldClause::All) => alone(alloc, permission),
        _ => both(alloc, permission),
    }
}
