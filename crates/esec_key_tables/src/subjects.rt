//! Who a request comes from, and the halves of its decisions.
use crate::keys::{Making, named_of};
use crate::texts::{cut_at_bar, cut_at_blank, names_of, number_of, of_line};
use es_base::{Seq, Shared, Str};
use es_cred::{UserRecord, digest};
use es_keys::{
    Caller, KeyRecord, NamedDescriptors, RoleKey, Subject, Target, halves, subject_text,
};
use es_tree::{Members, Person, Tree};
use esec_cells::{Cells, Fault, tree_of};
use std::alloc::Global;

/// CALLER => TARGET: how denials name the subject. They are written as `caller_of` and `target_of` read them.
pub fn subject_told(alloc: Global, cells: &Cells) -> Result<Str, Fault> {
    let subject = subject_of(alloc, cells.text(0)?, cells.text(1)?)?;
    Ok(subject_text(alloc, &subject)?)
}

/// CALLER => TARGET: the names of the halves of the subject's decisions, with a semicolon and a blank between each two.
pub fn half_names(alloc: Global, cells: &Cells) -> Result<Str, Fault> {
    let subject = subject_of(alloc, cells.text(0)?, cells.text(1)?)?;
    halves_text(alloc, &subject)
}

/// The names of the halves of a subject's decisions.
pub fn halves_text(alloc: Global, subject: &Subject) -> Result<Str, Fault> {
    let mut text = Str::empty(alloc);
    for half in halves(alloc, subject)?.as_slice() {
        if !text.is_empty() {
            text.push_str("; ")?;
        }
        add_half(&mut text, half)?;
    }
    Ok(text)
}

/// The name of a half.
pub fn add_half(text: &mut Str, half: &RoleKey) -> Result<(), Fault> {
    match half {
        RoleKey::Names(names) => {
            let mut separator = "names ";
            for name in names.get().as_slice() {
                text.push_str(separator)?;
                text.push_str(name.text())?;
                separator = ",";
            }
            if names.get().is_empty() {
                text.push_str("names")?;
            }
        }
        RoleKey::Assigned(id) => {
            text.push_str("assigned ")?;
            text.push_str(id.get().text())?;
        }
        RoleKey::Limits(id) => {
            text.push_str("limits ")?;
            text.push_str(id.get().text())?;
        }
    }
    Ok(())
}

/// The subject of this caller and this target.
pub fn subject_of(alloc: Global, caller: &str, target: &str) -> Result<Subject, Fault> {
    Ok(Subject {
        caller: caller_of(alloc, caller)?,
        target: target_of(alloc, target)?,
    })
}

/// `user NAME|ROLES`, or `key PLACE OWNER|ASSIGNED`: ROLES have a comma between each two, and ASSIGNED is an object of
/// descriptors. The bar and what stands behind it may be left out.
fn caller_of(alloc: Global, text: &str) -> Result<Caller, Fault> {
    let (kind, rest) = cut_at_blank(text);
    match kind {
        "user" => Ok(Caller::User(user_of(alloc, rest)?)),
        "key" => Ok(Caller::Key(key_of(alloc, rest)?)),
        _ => Err(Fault::Line),
    }
}

/// `own`, `unknown`, or `as NAME|ROLES`.
fn target_of(alloc: Global, text: &str) -> Result<Target, Fault> {
    match text {
        "own" => Ok(Target::Own),
        "unknown" => Ok(Target::Unknown),
        _ => match text.strip_prefix("as ") {
            Some(rest) => Ok(Target::As(user_of(alloc, rest)?)),
            None => Err(Fault::Line),
        },
    }
}

fn user_of(alloc: Global, text: &str) -> Result<Shared<UserRecord>, Fault> {
    let (name, roles) = cut_at_bar(text);
    let user = UserRecord {
        person: person_named(alloc, name, roles)?,
        digest: digest(name, "s3cret"),
    };
    Ok(Shared::new(alloc, user)?)
}

fn key_of(alloc: Global, text: &str) -> Result<Shared<KeyRecord>, Fault> {
    let (place, rest) = cut_at_blank(text);
    let (owner, assigned) = cut_at_bar(rest);
    let assigned = assigned_in(alloc, assigned)?;
    let making = Making::plain(alloc, owner, assigned, number_of(place)?, [0u8; 16])?;
    match making.key(alloc) {
        Ok((kept, _secret)) => Ok(Shared::new(alloc, kept)?),
        Err(found) => Err(of_line(&found)),
    }
}

/// The descriptors of an object in a text, and none in the empty text.
fn assigned_in(alloc: Global, text: &str) -> Result<NamedDescriptors, Fault> {
    if text.is_empty() {
        return Ok(Seq::empty(alloc));
    }
    match named_of(alloc, &tree_of(alloc, text.as_bytes())?) {
        Ok(assigned) => Ok(assigned),
        Err(found) => Err(of_line(&found)),
    }
}

/// A person of this name with these roles, and nothing else.
pub fn person_named(alloc: Global, name: &str, roles: &str) -> Result<Person, Fault> {
    Ok(Person {
        username: Str::of(alloc, name)?,
        full_name: None,
        email: None,
        roles: names_of(alloc, roles)?,
        metadata: Tree::Object(Members::empty(alloc)),
    })
}
