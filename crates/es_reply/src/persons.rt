//! Replies that show roles and users, and who asks.
ghost use Rattle.std.specs.Prelude.{◌≡◌, IfOk};
ghost use Rattle.es_reply.specs.Bodies.{member_shown, role_shown, noted_members, person_members, person_text, person_shown, nothing_shown, gone, authenticated, key_authenticated};

use crate::texts::{quoted, text_list, text_or_null};
use es_base::{NoMemory, Str};
use es_response::Reply;
use es_tree::{Person, Tree, print};
use std::alloc::Global;

/// The reply to a get of a role, with its descriptor's tree: 200.
pub fn role_shown(alloc: Global, name: &str, descriptor: &Tree) -> Result<Reply, NoMemory>
    ensures { IfOk result (λ reply. reply ≡ role_shown name.now descriptor.now) }
{
    member_shown(alloc, name, print(alloc, descriptor)?.text())
}

/// The reply to a get of a user: 200.
pub fn person_shown(alloc: Global, person: &Person) -> Result<Reply, NoMemory>
    ensures { IfOk result (λ reply. reply ≡ person_shown person.now) }
{
    let text = person_text(alloc, person)?;
    member_shown(alloc, person.username.text(), text.text())
}

/// The reply to a get of what doesn't stand: 404, without an error.
pub fn nothing_shown(alloc: Global) -> Result<Reply, NoMemory>
    ensures { IfOk result (λ reply. reply ≡ nothing_shown) }
{
    Ok(Reply::new(404, "", Str::of(alloc, "{}")?))
}

/// The reply to a delete: 200 where something stood, else 404, without an error.
pub fn gone(alloc: Global, found: bool) -> Result<Reply, NoMemory>
    ensures { IfOk result (λ reply. reply ≡ gone found) }
{
    if found {
        Ok(Reply::new(200, "", Str::of(alloc, "{\"found\":true}")?))
    } else {
        Ok(Reply::new(404, "", Str::of(alloc, "{\"found\":false}")?))
    }
}

/// The reply to a user who asks who it is: 200.
pub fn authenticated(alloc: Global, person: &Person) -> Result<Reply, NoMemory>
    ensures { IfOk result (λ reply. reply ≡ authenticated person.now) }
{
    let mut body = Str::of(alloc, "{\"authentication_type\":\"token\",")?;
    body.push_str(person_members(alloc, person, person.roles.as_slice())?.text())?;
    body.push_str("}")?;
    Ok(Reply::new(200, "", body))
}

/// The reply to the key of this id and name that asks who it is: 200, with its owner, and without roles.
pub fn key_authenticated(
    alloc: Global,
    owner: &Person,
    id: &str,
    name: &str,
) -> Result<Reply, NoMemory>
    ensures { IfOk result (λ reply. reply ≡ key_authenticated owner.now id.now name.now) }
{
    let mut body = Str::of(alloc, "{\"api_key\":{\"id\":")?;
    body.push_str(quoted(alloc, id)?.text())?;
    body.push_str(",\"name\":")?;
    body.push_str(quoted(alloc, name)?.text())?;
    body.push_str("},\"authentication_type\":\"api_key\",")?;
    body.push_str(person_members(alloc, owner, &[])?.text())?;
    body.push_str("}")?;
    Ok(Reply::new(200, "", body))
}

// An object of one member, whose value has this text: 200.
fn member_shown(alloc: Global, name: &str, text: &str) -> Result<Reply, NoMemory>
    ensures { IfOk result (λ reply. reply ≡ member_shown name.now text.now) }
{
    let mut body = Str::of(alloc, "{")?;
    body.push_str(quoted(alloc, name)?.text())?;
    body.push_str(":")?;
    body.push_str(text)?;
    body.push_str("}")?;
    Ok(Reply::new(200, "", body))
}

// The person as a JSON object.
fn person_text(alloc: Global, person: &Person) -> Result<Str, NoMemory>
    ensures { IfOk result (λ text. text ≡ person_text person.now) }
{
    let mut text = Str::of(alloc, "{")?;
    text.push_str(person_members(alloc, person, person.roles.as_slice())?.text())?;
    text.push_str("}")?;
    Ok(text)
}

// The members of an object that tell of the person, with these roles.
#[tactic(auto, unfolding(crate::specs::Bodies::person_members))]
fn person_members(alloc: Global, person: &Person, roles: &[Str]) -> Result<Str, NoMemory>
    ensures { IfOk result (λ members. members ≡ person_members person.now roles.now) }
{
    let mut members = noted_members(alloc, person)?;
    members.push_str(",\"roles\":")?;
    members.push_str(text_list(alloc, roles)?.text())?;
    members.push_str(",\"username\":")?;
    members.push_str(quoted(alloc, person.username.text())?.text())?;
    Ok(members)
}

// The members that tell what is noted of the person.
#[tactic(auto, unfolding(crate::specs::Bodies::noted_members))]
fn noted_members(alloc: Global, person: &Person) -> Result<Str, NoMemory>
    ensures { IfOk result (λ members. members ≡ noted_members person.now) }
{
    let mut members = Str::of(alloc, "\"email\":")?;
    members.push_str(text_or_null(alloc, &person.email)?.text())?;
    members.push_str(",\"full_name\":")?;
    members.push_str(text_or_null(alloc, &person.full_name)?.text())?;
    members.push_str(",\"metadata\":")?;
    members.push_str(print(alloc, &person.metadata)?.text())?;
    Ok(members)
}
