//! What is asked of keys.
ghost use Rattle.std.specs.Prelude.{◌≡◌, ◌||◌, map, true, IfOk, is_some};
ghost use Rattle.es_tree.specs.declared.tree.Tree.{Tree};
ghost use Rattle.es_compose.specs.Checked.{checked_form};
ghost use Rattle.es_grammar.specs.Reading.{Gives};
ghost use Rattle.es_request.specs.Keys.{is_key_name, name_in, duration_in, named_part, parts_in, new_key_form, some_texts_form, invalidate_form};

use crate::durations::duration_in;
use es_base::{NoMemory, Seq, Shared, Str, Strs};
use es_compose::{CheckedForm, RolePart};
use es_grammar::{
    Form, ListOf, MapOf, Name, Object, Spelling, Text, TextOf, Truth, ends, if_holds, members_of,
    needed, optional, or_no_members,
};
use es_keys::{NamedDescriptors, NamedPart, NewKey};
use es_tree::{BodyFault, Named, Ordered, Tree};
use std::alloc::Global;

/// Which keys are to be invalidated: those of these ids, or all, and of these those of the acting user alone where `owner` says so.
#[derive(Drop)]
pub struct Asked {
    pub ids: Option<Strs>,
    pub owner: bool,
}

/// Descriptors, checked and made ready. Contracts see the descriptor.
pub(crate) struct PartForm;

impl Form for PartForm {
    type Out = Shared<RolePart>;

    ghost form = { checked_form };

    ghost sound = { λ _. true };

    fn read(alloc: Global, tree: &Tree) -> Result<Shared<RolePart>, BodyFault> {
        let descriptor = CheckedForm::read(alloc, tree)?;
        let part = RolePart::of(alloc, descriptor)?;
        Ok(Shared::new(alloc, part)?)
    }
}

/// Whether the text has 1 to 255 bytes, as names of keys and of the descriptors inside them have.
fn is_key_name(text: &str) -> bool
    ensures { result ≡ is_key_name text.now }
{
    1 <= text.len() && text.len() <= 255
}

// The names of a key's descriptors.
struct KeyName;

impl Name for KeyName {
    ghost permits = { is_key_name };

    fn permits(name: &str) -> bool {
        is_key_name(name)
    }
}

// The texts that are names of keys.
struct NameText;

impl Spelling for NameText {
    type Out = Str;

    ghost named = { name_in };

    fn parse(alloc: Global, text: &str) -> Result<Option<Str>, NoMemory> {
        if !is_key_name(text) {
            return Ok(None);
        }
        Ok(Some(Str::of(alloc, text)?))
    }
}

// The texts that are durations.
struct DurationText;

impl Spelling for DurationText {
    type Out = u64;

    ghost named = { duration_in };

    fn parse(_alloc: Global, text: &str) -> Result<Option<u64>, NoMemory> {
        Ok(duration_in(text))
    }
}

/// The key that a tree asks for.
#[tactic(auto, unfolding(crate::specs::Keys::new_key_form))]
pub(crate) fn new_key_from(alloc: Global, tree: &Tree) -> Result<NewKey, BodyFault>
    ensures { Gives result (new_key_form tree.now) }
{
    let members = members_of(alloc, tree)?;
    let (expiration, members) = optional::<TextOf<DurationText>>(alloc, "expiration", members)?;
    let (metadata, members) = optional::<Object>(alloc, "metadata", members)?;
    let (name, members) = optional::<TextOf<NameText>>(alloc, "name", members)?;
    let (descriptors, members) = optional::<MapOf<KeyName, PartForm>>(
        alloc,
        "role_descriptors",
        members,
    )?;
    ends(alloc, members)?;
    let name = needed(alloc, name)?;
    Ok(NewKey {
        name,
        expiration,
        assigned: parts_in(alloc, descriptors)?,
        metadata: or_no_members(alloc, metadata),
    })
}

/// Descriptors with their names, in the byte order of these.
fn parts_in(
    alloc: Global,
    found: Option<Ordered<Shared<RolePart>>>,
) -> Result<NamedDescriptors, NoMemory>
    ensures { IfOk result (λ parts. parts ≡ parts_in found) }
{
    match found {
        Some(named) => named_parts(alloc, named.as_slice()),
        None => Ok(Seq::empty(alloc)),
    }
}

fn named_parts(
    alloc: Global,
    named: &[Named<Shared<RolePart>>],
) -> Result<NamedDescriptors, NoMemory>
    ensures { IfOk result (λ parts. parts ≡ map named_part named.now) }
{
    let mut parts = Seq::empty(alloc);
    for member in named {
        parts.push(named_part(alloc, member)?)?;
    }
    Ok(parts)
}

fn named_part(alloc: Global, member: &Named<Shared<RolePart>>) -> Result<NamedPart, NoMemory>
    ensures { IfOk result (λ part. part ≡ named_part member.now) }
{
    Ok(NamedPart {
        name: member.name.copy(alloc)?,
        part: member.value.share()?,
    })
}

// Lists of at least one text.
struct SomeTexts;

impl Form for SomeTexts {
    type Out = Strs;

    ghost form = { some_texts_form };

    ghost sound = { λ _. true };

    fn read(alloc: Global, tree: &Tree) -> Result<Strs, BodyFault> {
        let texts = ListOf::<Text>::read(alloc, tree)?;
        if_holds(alloc, !texts.is_empty(), texts)
    }
}

/// Which keys a tree asks to invalidate.
#[tactic(auto, unfolding(crate::specs::Keys::invalidate_form))]
pub(crate) fn invalidation_from(alloc: Global, tree: &Tree) -> Result<Asked, BodyFault>
    ensures { Gives result (invalidate_form tree.now) }
{
    let members = members_of(alloc, tree)?;
    let (ids, members) = optional::<SomeTexts>(alloc, "ids", members)?;
    let (owner, members) = optional::<Truth>(alloc, "owner", members)?;
    ends(alloc, members)?;
    let owner = owner.unwrap_or(false);
    let bounded = ids.is_some() || owner;
    if_holds(alloc, bounded, Asked { ids, owner })
}
