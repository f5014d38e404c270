//! The text of a key, as lists of keys show it.
ghost use Rattle.std.specs.Prelude.{◌≡◌, map, IfOk};
ghost use Rattle.es_tree.specs.Text.{with_commas};
ghost use Rattle.es_keys.specs.Printed.{expiration_member, truth_text, part_text, times_text, rest_text, key_text};

use crate::kinds::{KeyRecord, NamedPart};
use crate::texts::quoted;
use es_base::{NoMemory, Str};
use es_tree::print;
use itoa::Buffer;
use std::alloc::Global;

/// The key as compact JSON, members in the order of their names' bytes: of its secret nothing, of its owner the name, and
/// of its descriptors those that it was given. Times are in milliseconds since 1970, and a key that doesn't expire has no
/// expiration.
#[tactic(auto, unfolding(crate::specs::Printed::key_text))]
pub fn key_text(alloc: Global, kept: &KeyRecord) -> Result<Str, NoMemory>
    ensures { IfOk result (λ text. text ≡ key_text kept.now) }
{
    let mut text = times_text(alloc, kept)?;
    text.push_str(",\"id\":")?;
    text.push_str(quoted(alloc, kept.id.text())?.text())?;
    text.push_str(",\"invalidated\":")?;
    text.push_str(truth_text(kept.invalidated))?;
    text.push_str(",\"metadata\":")?;
    text.push_str(print(alloc, &kept.metadata)?.text())?;
    text.push_str(rest_text(alloc, kept)?.text())?;
    Ok(text)
}

// The members in front of the id: when the key was made, and when it expires.
#[tactic(auto, unfolding(crate::specs::Printed::times_text))]
fn times_text(alloc: Global, kept: &KeyRecord) -> Result<Str, NoMemory>
    ensures { IfOk result (λ text. text ≡ times_text kept.now) }
{
    let mut text = Str::of(alloc, "{\"creation\":")?;
    let mut buffer = Buffer::new();
    text.push_str(buffer.format(kept.made))?;
    text.push_str(expiration_member(alloc, kept.expires)?.text())?;
    Ok(text)
}

// The members behind the metadata.
#[tactic(auto, unfolding(crate::specs::Printed::rest_text))]
fn rest_text(alloc: Global, kept: &KeyRecord) -> Result<Str, NoMemory>
    ensures { IfOk result (λ text. text ≡ rest_text kept.now) }
{
    let mut text = Str::of(alloc, ",\"name\":")?;
    text.push_str(quoted(alloc, kept.name.text())?.text())?;
    text.push_str(",\"role_descriptors\":{")?;
    text.push_str(parts_text(alloc, kept.assigned.as_slice())?.text())?;
    text.push_str("},\"username\":")?;
    text.push_str(quoted(alloc, kept.owner.username.text())?.text())?;
    text.push_str("}")?;
    Ok(text)
}

fn expiration_member(alloc: Global, expires: Option<u64>) -> Result<Str, NoMemory>
    ensures { IfOk result (λ member. member ≡ expiration_member expires) }
{
    match expires {
        None => Ok(Str::empty(alloc)),
        Some(moment) => {
            let mut member = Str::of(alloc, ",\"expiration\":")?;
            let mut buffer = Buffer::new();
            member.push_str(buffer.format(moment))?;
            Ok(member)
        }
    }
}

#[tactic(auto, unfolding(crate::specs::Printed::truth_text))]
fn truth_text(truth: bool) -> &'static str
    ensures { result.now ≡ truth_text truth }
{
    if truth { "true" } else { "false" }
}

// The descriptors as members of an object, each by its name.
fn parts_text(alloc: Global, parts: &[NamedPart]) -> Result<Str, NoMemory>
    ensures { IfOk result (λ text. text ≡ with_commas (map part_text parts.now)) }
{
    let [first, others @ ..] = parts else {
        return Ok(Str::empty(alloc));
    };
    let mut text = part_text(alloc, first)?;
    for part in others {
        text.push(',')?;
        text.push_str(part_text(alloc, part)?.text())?;
    }
    Ok(text)
}

#[tactic(auto, unfolding(crate::specs::Printed::part_text))]
fn part_text(alloc: Global, part: &NamedPart) -> Result<Str, NoMemory>
    ensures { IfOk result (λ text. text ≡ part_text part.now) }
{
    let tree = part.part.get().descriptor().print(alloc)?;
    let mut text = quoted(alloc, part.name.text())?;
    text.push_str(":")?;
    text.push_str(print(alloc, &tree)?.text())?;
    Ok(text)
}
