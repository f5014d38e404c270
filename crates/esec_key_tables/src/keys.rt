//! API keys: made, sent, verified and expired.
ghost use Rattle.std.specs.Prelude.{◌≤◌, IfOk};
ghost use Rattle.std.specs.Option.{IfSome};

use crate::printing::{add_member, add_text, descriptors_text, person_text};
use crate::subjects::person_named;
use crate::texts::{bad, drawn_of, number_of};
use es_base::{Seq, Shared, Str};
use es_compose::RolePart;
use es_keys::{KeyRecord, NamedDescriptors, NamedPart, NewKey, encoded, expired, make, verify};
use es_tree::{BodyFault, Members, Person, Tree, print};
use esec_cells::{
    Cells, Fault, checked, fault, hexadecimal, metadata_of, person_of, text_named, truth,
};
use std::alloc::Global;

/// Above all places that have an id.
pub const PLACES: u64 = 1000000000000;

/// The greatest moment, in milliseconds since 1970.
pub const LAST_MOMENT: u64 = 4000000000000000;

/// The longest duration, in milliseconds.
pub const LONGEST: u64 = 1000000000000000;

/// What a key is made of.
#[derive(Drop)]
pub struct Making {
    owner: Person,
    limits: NamedDescriptors,
    name: Str,
    duration: Option<u64>,
    assigned: NamedDescriptors,
    metadata: Tree,
    place: u64,
    moment: u64,
    drawn: [u8; 16],
}

impl Making {
    /// A key without limits that its owner of this name made at the moment 0, and that lasts for ever.
    pub fn plain(
        alloc: Global,
        owner: &str,
        assigned: NamedDescriptors,
        place: u64,
        drawn: [u8; 16],
    ) -> Result<Making, Fault> {
        Ok(Making {
            owner: person_named(alloc, owner, "")?,
            limits: Seq::empty(alloc),
            name: Str::of(alloc, "k")?,
            duration: None,
            assigned,
            metadata: Tree::Object(Members::empty(alloc)),
            place,
            moment: 0,
            drawn,
        })
    }

    /// The key and its secret, or as the place of a fault what keeps it from being made.
    pub fn key(self, alloc: Global) -> Result<(KeyRecord, Str), BodyFault> {
        let Making {
            owner,
            limits,
            name,
            duration,
            assigned,
            metadata,
            place,
            moment,
            drawn,
        } = self;
        let expiration = lasting(alloc, duration)?;
        let asked = NewKey {
            name,
            expiration,
            assigned,
            metadata,
        };
        if place >= PLACES {
            return Err(bad(alloc, "a place without an id"));
        }
        if moment > LAST_MOMENT {
            return Err(bad(alloc, "a moment past the last"));
        }
        Ok(make(alloc, &owner, &limits, &asked, place, moment, &drawn)?)
    }
}

/// The duration, where a key may last so long.
fn lasting(alloc: Global, duration: Option<u64>) -> Result<Option<u64>, BodyFault>
    ensures { IfOk result (λ found. IfSome found (λ duration. duration ≤ 1000000000000000)) }
{
    match duration {
        Some(duration) => {
            if duration > LONGEST {
                return Err(bad(alloc, "a duration above the longest"));
            }
            Ok(Some(duration))
        }
        None => Ok(None),
    }
}

/// OWNER => LIMITS => ASKED => PLACE => MOMENT => DRAWN: the key and its secret, or the place of a descriptor's first
/// fault, or what keeps the key from being made. OWNER is a person; LIMITS are an object of descriptors; ASKED has
/// `name` and may have `expiration` in milliseconds, `role_descriptors` and `metadata`.
pub fn made(alloc: Global, cells: &Cells) -> Result<Str, Fault> {
    let limits = match named_of(alloc, &cells.tree(alloc, 1)?) {
        Ok(limits) => limits,
        Err(found) => return fault(alloc, &found),
    };
    let asked = cells.tree(alloc, 2)?;
    let assigned = match assigned_of(alloc, &asked) {
        Ok(assigned) => assigned,
        Err(found) => return fault(alloc, &found),
    };
    let making = Making {
        owner: person_of(alloc, &cells.tree(alloc, 0)?)?,
        limits,
        name: name_of(alloc, &asked)?,
        duration: duration_of(alloc, &asked)?,
        assigned,
        metadata: metadata_of(alloc, &asked)?,
        place: number_of(cells.text(3)?)?,
        moment: number_of(cells.text(4)?)?,
        drawn: drawn_of(cells.text(5)?)?,
    };
    match making.key(alloc) {
        Ok((kept, secret)) => said(alloc, &kept, &secret),
        Err(found) => fault(alloc, &found),
    }
}

/// The descriptors of an object, each checked, with their names.
pub fn named_of(alloc: Global, tree: &Tree) -> Result<NamedDescriptors, BodyFault> {
    let mut named = Seq::empty(alloc);
    match tree {
        Tree::Object(members) => {
            for member in members.as_slice() {
                let descriptor = checked(alloc, &member.value, member.name.text())?;
                let part = RolePart::of(alloc, descriptor)?;
                named.push(NamedPart {
                    name: member.name.copy(alloc)?,
                    part: Shared::new(alloc, part)?,
                })?;
            }
        }
        _ => return Err(bad(alloc, "no object of descriptors")),
    }
    Ok(named)
}

/// The descriptors that are asked for, and none where they are absent.
fn assigned_of(alloc: Global, asked: &Tree) -> Result<NamedDescriptors, BodyFault> {
    match asked.member("role_descriptors") {
        Some(descriptors) => named_of(alloc, descriptors),
        None => Ok(Seq::empty(alloc)),
    }
}

fn name_of(alloc: Global, asked: &Tree) -> Result<Str, Fault> {
    match text_named(alloc, asked, "name")? {
        Some(name) => Ok(name),
        None => Err(Fault::Line),
    }
}

fn duration_of(alloc: Global, asked: &Tree) -> Result<Option<u64>, Fault> {
    match asked.member("expiration") {
        Some(duration) => {
            let digits = print(alloc, duration)?;
            Ok(Some(number_of(digits.text())?))
        }
        None => Ok(None),
    }
}

/// What is kept of a key, what is sent of it, and its secret, as an object.
fn said(alloc: Global, kept: &KeyRecord, secret: &Str) -> Result<Str, Fault> {
    let mut text = Str::empty(alloc);
    let moment = kept.made;
    add_member(
        &mut text,
        "creation",
        format!(in alloc; "{moment}")?.as_str(),
    )?;
    let digits = hexadecimal(alloc, &kept.digest)?;
    add_text(&mut text, alloc, "digest", digits.text())?;
    let sent = encoded(alloc, kept.id.text(), secret.text())?;
    add_text(&mut text, alloc, "encoded", sent.text())?;
    match kept.expires {
        Some(moment) => {
            add_member(
                &mut text,
                "expiration",
                format!(in alloc; "{moment}")?.as_str(),
            )?;
        }
        None => add_member(&mut text, "expiration", "null")?,
    }
    add_text(&mut text, alloc, "id", kept.id.text())?;
    let is_invalidated = truth(alloc, kept.invalidated)?;
    add_member(&mut text, "invalidated", is_invalidated.text())?;
    add_rest(&mut text, alloc, kept)?;
    add_text(&mut text, alloc, "secret", secret.text())?;
    text.push('}')?;
    Ok(text)
}

fn add_rest(text: &mut Str, alloc: Global, kept: &KeyRecord) -> Result<(), Fault> {
    add_member(
        text,
        "limits",
        descriptors_text(alloc, &kept.limits)?.text(),
    )?;
    add_member(text, "metadata", print(alloc, &kept.metadata)?.text())?;
    add_text(text, alloc, "name", kept.name.text())?;
    add_member(text, "owner", person_text(alloc, &kept.owner)?.text())?;
    let assigned = descriptors_text(alloc, &kept.assigned)?;
    add_member(text, "role_descriptors", assigned.text())
}

/// PLACE => DRAWN => SECRET: whether the key that is made at the place with these bytes takes the secret.
pub fn takes_secret(alloc: Global, cells: &Cells) -> Result<Str, Fault> {
    let place = number_of(cells.text(0)?)?;
    let drawn = drawn_of(cells.text(1)?)?;
    let making = Making::plain(alloc, "cy", Seq::empty(alloc), place, drawn)?;
    match making.key(alloc) {
        Ok((kept, _secret)) => truth(alloc, verify(&kept, cells.text(2)?)),
        Err(found) => fault(alloc, &found),
    }
}

/// MADE => DURATION => MOMENT: whether the key that was made at the one moment has expired at the other. DURATION is
/// in milliseconds, or `never`.
pub fn is_expired(alloc: Global, cells: &Cells) -> Result<Str, Fault> {
    let mut making = Making::plain(alloc, "cy", Seq::empty(alloc), 12, [0u8; 16])?;
    making.moment = number_of(cells.text(0)?)?;
    making.duration = match cells.text(1)? {
        "never" => None,
        _ => Some(number_of(cells.text(1)?)?),
    };
    let moment = number_of(cells.text(2)?)?;
    match making.key(alloc) {
        Ok((kept, _secret)) => truth(alloc, expired(&kept, moment)),
        Err(found) => fault(alloc, &found),
    }
}
