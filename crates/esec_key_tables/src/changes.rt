//! Steps that change records.
use crate::asking::{asking_of, made_by, subject_in};
use crate::texts::{cut_at_blank, names_of, of_line};
use es_base::{Seq, Shared, Str};
use es_compose::RolePart;
use es_cred::UserRecord;
use es_records::{Records, SecurityChange};
use esec_cells::{Cells, Fault, checked, tree_of};
use std::alloc::Global;

/// The records of the opening with the secret `s3cret` after the steps of the first two cells.
pub fn records_in(alloc: Global, cells: &Cells) -> Result<Records, Fault> {
    let before = records_after(alloc, cells.text(0)?)?;
    with_steps(alloc, before, cells.text(1)?)
}

/// The records of the opening after steps.
pub fn records_after(alloc: Global, steps: &str) -> Result<Records, Fault> {
    with_steps(alloc, Records::opening(alloc, "s3cret")?, steps)
}

/// The records after steps with ` ; ` between each two.
fn with_steps(alloc: Global, before: Records, steps: &str) -> Result<Records, Fault> {
    let mut records = before;
    if !steps.is_empty() {
        for step in steps.split(" ; ") {
            let change = change_of(alloc, &records, step)?;
            records = records.with(alloc, &change)?;
        }
    }
    Ok(records)
}

/// `put role NAME DESCRIPTOR`, `put user NAME USER`, `delete role NAME`, `delete user NAME`, `create ASKING place N NEWKEY`,
/// `invalidate IDS`, or `clear NAMES`, where IDS and NAMES have a comma between each two, and NAMES may be `*`.
pub fn change_of(alloc: Global, records: &Records, step: &str) -> Result<SecurityChange, Fault> {
    let (verb, rest) = cut_at_blank(step);
    match verb {
        "put" => put_of(alloc, rest),
        "delete" => deletion_of(alloc, rest),
        "create" => creation_of(alloc, records, rest),
        "invalidate" => Ok(SecurityChange::Invalidate {
            ids: names_of(alloc, rest)?,
        }),
        "clear" => clearing_of(alloc, rest),
        _ => Err(Fault::Line),
    }
}

fn put_of(alloc: Global, text: &str) -> Result<SecurityChange, Fault> {
    let (kind, rest) = cut_at_blank(text);
    let (name, body) = cut_at_blank(rest);
    match kind {
        "role" => put_role(alloc, name, body),
        "user" => put_user(alloc, name, body),
        _ => Err(Fault::Line),
    }
}

fn put_role(alloc: Global, name: &str, body: &str) -> Result<SecurityChange, Fault> {
    match checked(alloc, &tree_of(alloc, body.as_bytes())?, "") {
        Ok(descriptor) => {
            let part = RolePart::of(alloc, descriptor)?;
            Ok(SecurityChange::PutRole {
                name: Str::of(alloc, name)?,
                role: Shared::new(alloc, part)?,
            })
        }
        Err(found) => Err(of_line(&found)),
    }
}

fn put_user(alloc: Global, name: &str, body: &str) -> Result<SecurityChange, Fault> {
    match UserRecord::read(alloc, name, &tree_of(alloc, body.as_bytes())?, "") {
        Ok(user) => Ok(SecurityChange::PutUser(Shared::new(alloc, user)?)),
        Err(found) => Err(of_line(&found)),
    }
}

fn deletion_of(alloc: Global, text: &str) -> Result<SecurityChange, Fault> {
    let (kind, name) = cut_at_blank(text);
    let name = Str::of(alloc, name)?;
    match kind {
        "role" => Ok(SecurityChange::DeleteRole { name }),
        "user" => Ok(SecurityChange::DeleteUser { name }),
        _ => Err(Fault::Line),
    }
}

fn creation_of(alloc: Global, records: &Records, text: &str) -> Result<SecurityChange, Fault> {
    let asking = asking_of(text)?;
    let Some(subject) = subject_in(alloc, records, &asking)? else {
        return Err(Fault::Line);
    };
    match made_by(alloc, records, &subject, asking.moment, asking.rest)? {
        Some(kept) => Ok(SecurityChange::AddKey(Shared::new(alloc, kept)?)),
        None => Err(Fault::Line),
    }
}

fn clearing_of(alloc: Global, text: &str) -> Result<SecurityChange, Fault> {
    match text {
        "*" => Ok(SecurityChange::ClearCache {
            names: Seq::empty(alloc),
            every: true,
        }),
        _ => Ok(SecurityChange::ClearCache {
            names: names_of(alloc, text)?,
            every: false,
        }),
    }
}
