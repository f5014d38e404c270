//! What stands in records.
use crate::changes::records_in;
use crate::dropping::half_of;
use crate::printing::{descriptors_text, person_text};
use crate::texts::{cut_at_blank, names_of};
use es_base::{Str, Strs};
use es_compose::Role;
use es_keys::{KeyRecord, key_text};
use es_priv::{action_name, cluster_action_name};
use es_records::Records;
use es_tree::print;
use esec_cells::{ACTIONS, CLUSTER_ACTIONS, Cells, Fault, add};
use std::alloc::Global;

/// STEPS => STEPS => ASKED: what stands after the steps. ASKED is `keys`, or what `one_of` or `several_of` answers.
pub fn standing(alloc: Global, cells: &Cells) -> Result<Str, Fault> {
    let records = records_in(alloc, cells)?;
    let (asked, rest) = cut_at_blank(cells.text(2)?);
    match asked {
        "keys" => ids_text(alloc, &records),
        "key" | "limits" | "assigned" | "owner" => match records.key(rest) {
            Some(kept) => part_of_key(alloc, kept, asked),
            None => none(alloc),
        },
        "user" | "role" => one_of(alloc, &records, asked, rest),
        _ => several_of(alloc, &records, asked, rest),
    }
}

fn none(alloc: Global) -> Result<Str, Fault> {
    Ok(Str::of(alloc, "none")?)
}

/// The ids of all keys, with `-` behind each that is invalidated.
fn ids_text(alloc: Global, records: &Records) -> Result<Str, Fault> {
    let mut text = Str::empty(alloc);
    for at in 0..records.key_count() {
        let kept = records.key_at(at);
        add(&mut text, kept.id.text())?;
        if kept.invalidated {
            text.push('-')?;
        }
    }
    Ok(text)
}

/// `key ID`, `limits ID`, `assigned ID` or `owner ID`.
fn part_of_key(alloc: Global, kept: &KeyRecord, asked: &str) -> Result<Str, Fault> {
    match asked {
        "key" => Ok(key_text(alloc, kept)?),
        "limits" => descriptors_text(alloc, &kept.limits),
        "assigned" => descriptors_text(alloc, &kept.assigned),
        _ => person_text(alloc, &kept.owner),
    }
}

/// `user NAME` or `role NAME`.
fn one_of(alloc: Global, records: &Records, asked: &str, name: &str) -> Result<Str, Fault> {
    if asked == "user" {
        return match records.user(name) {
            Some(user) => person_text(alloc, &user.person),
            None => none(alloc),
        };
    }
    match records.role(name) {
        Some(role) => Ok(print(alloc, &role.descriptor().print(alloc)?)?),
        None => none(alloc),
    }
}

/// `named NAMES`, `grants INDEX HALF`, or `invalidation IDS OWNER`, where IDS and OWNER may be `*` for any.
fn several_of(alloc: Global, records: &Records, asked: &str, rest: &str) -> Result<Str, Fault> {
    match asked {
        "named" => {
            let names = names_of(alloc, rest)?;
            descriptors_text(alloc, &records.named(alloc, &names)?)
        }
        "grants" => {
            let (index, half) = cut_at_blank(rest);
            let role = records.role_of(alloc, &half_of(alloc, half)?)?;
            granted(alloc, &role, index)
        }
        "invalidation" => {
            let (ids, owner) = cut_at_blank(rest);
            invalidation(alloc, records, ids, owner)
        }
        _ => Err(Fault::Line),
    }
}

/// The actions that the role grants on the index, and those on the cluster.
fn granted(alloc: Global, role: &Role, index: &str) -> Result<Str, Fault> {
    let mut text = Str::empty(alloc);
    for action in ACTIONS {
        if role.grants(action, index) {
            add(&mut text, action_name(action))?;
        }
    }
    add_on_cluster(&mut text, role)?;
    Ok(text)
}

fn add_on_cluster(text: &mut Str, role: &Role) -> Result<(), Fault> {
    for action in CLUSTER_ACTIONS {
        if role.grants_cluster(action) {
            add(text, cluster_action_name(action))?;
        }
    }
    Ok(())
}

fn invalidation(alloc: Global, records: &Records, ids: &str, owner: &str) -> Result<Str, Fault> {
    let named = match ids {
        "*" => None,
        _ => Some(names_of(alloc, ids)?),
    };
    let owner = match owner {
        "*" => None,
        _ => Some(owner),
    };
    let found = records.invalidation(alloc, named.as_ref(), owner)?;
    let mut text = Str::of(alloc, "newly")?;
    add_all(&mut text, &found.newly)?;
    text.push_str("; previously")?;
    add_all(&mut text, &found.previously)?;
    Ok(text)
}

fn add_all(text: &mut Str, words: &Strs) -> Result<(), Fault> {
    for word in words.as_slice() {
        add(text, word.text())?;
    }
    Ok(())
}
