//! Credentials, digests, names and users.
use es_base::{Copied, Str};
use es_cred::{Credentials, UserRecord, digest, is_name, is_secret, same};
use es_tree::print;
use esec_cells::{Cells, Fault, fault, hexadecimal, truth};
use std::alloc::Global;

/// FIELD: the name and the secret that it says with a bar between them, behind `key ` those of an API key, or `malformed`;
/// of no cell `absent`.
pub fn credentials(alloc: Global, cells: &Cells) -> Result<Str, Fault> {
    match Credentials::read(alloc, cells.bytes(0).ok())? {
        Credentials::User { name, secret } => pair(alloc, "", name.text(), secret.text()),
        Credentials::Key { id, secret } => pair(alloc, "key ", id.text(), secret.text()),
        Credentials::Absent => Ok(Str::of(alloc, "absent")?),
        Credentials::Malformed => Ok(Str::of(alloc, "malformed")?),
    }
}

fn pair(alloc: Global, front: &str, name: &str, secret: &str) -> Result<Str, Fault> {
    let mut text = Str::of(alloc, front)?;
    text.push_str(name)?;
    text.push('|')?;
    text.push_str(secret)?;
    Ok(text)
}

/// NAME => SECRET: their digest in hexadecimal digits.
pub fn digest_of(alloc: Global, cells: &Cells) -> Result<Str, Fault> {
    hexadecimal(alloc, &digest(cells.text(0)?, cells.text(1)?))
}

/// TEXT: whether it is a name.
pub fn name(alloc: Global, cells: &Cells) -> Result<Str, Fault> {
    truth(alloc, is_name(cells.text(0)?))
}

/// TEXT: whether it is a secret.
pub fn secret(alloc: Global, cells: &Cells) -> Result<Str, Fault> {
    truth(alloc, is_secret(cells.text(0)?))
}

/// PLACE => NAME => TREE: the user's name, full name, email address, roles and metadata, or the place of the first fault.
pub fn user(alloc: Global, cells: &Cells) -> Result<Str, Fault> {
    match UserRecord::read(
        alloc,
        cells.text(1)?,
        &cells.tree(alloc, 2)?,
        cells.text(0)?,
    ) {
        Ok(user) => said(alloc, &user.copied(alloc)?),
        Err(found) => fault(alloc, &found),
    }
}

fn said(alloc: Global, user: &UserRecord) -> Result<Str, Fault> {
    let person = &user.person;
    let mut text = person.username.copy(alloc)?;
    text.push('|')?;
    for part in [&person.full_name, &person.email] {
        match part {
            Some(part) => text.push_str(part.text())?,
            None => text.push('-')?,
        }
        text.push('|')?;
    }
    for role in person.roles.as_slice() {
        text.push_str(role.text())?;
        text.push(',')?;
    }
    text.push('|')?;
    text.push_str(print(alloc, &person.metadata)?.text())?;
    Ok(text)
}

fn user_in(alloc: Global, cells: &Cells) -> Result<UserRecord, Fault> {
    match UserRecord::read(alloc, cells.text(0)?, &cells.tree(alloc, 1)?, "") {
        Ok(user) => Ok(user.copied(alloc)?),
        Err(_) => Err(Fault::Line),
    }
}

/// NAME => TREE: the user's digest in hexadecimal digits.
pub fn user_digest(alloc: Global, cells: &Cells) -> Result<Str, Fault> {
    hexadecimal(alloc, &user_in(alloc, cells)?.digest)
}

/// NAME => TREE => SECRET: whether the user knows the secret.
pub fn knows(alloc: Global, cells: &Cells) -> Result<Str, Fault> {
    let user = user_in(alloc, cells)?;
    truth(
        alloc,
        same(&digest(cells.text(0)?, cells.text(2)?), &user.digest),
    )
}
