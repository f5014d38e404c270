//! Records of users.
ghost use Rattle.std.specs.Prelude.{◌≡◌, IfOk};
ghost use Rattle.es_grammar.specs.Reading.{Gives, placed};
ghost use Rattle.es_cred.specs.Users.{name_in, secret_in, user_form};

use crate::hashing::{Hash32, digest};
use crate::naming::{in_order, is_name, is_secret};
use es_base::{Copied, NoMemory, Str};
use es_grammar::{
    ListOf, Nullable, Object, Spelling, Text, TextOf, ends, members_of, needed, optional,
    or_no_members, placed,
};
use es_tree::{BodyFault, Person, Tree};
use std::alloc::Global;

/// What is kept of a user: of its secret only the digest.
#[derive(Debug, Drop)]
pub struct UserRecord {
    pub person: Person,
    /// The digest of the user's name and secret.
    pub digest: Hash32,
}

impl UserRecord {
    /// The user of this name that the tree says. `place` is the tree's own place in what was read: names and numbers
    /// from the outermost value on, joined by dots. `Bad` has the place of the first fault, in the order of the
    /// members' names; a member that is wanted and absent is a fault at the object, behind those of all members.
    pub fn read(
        alloc: Global,
        name: &str,
        tree: &Tree,
        place: &str,
    ) -> Result<UserRecord, BodyFault>
        ensures { Gives result (placed place.now (user_form name.now tree.now)) }
    {
        placed(alloc, place, user_from(alloc, name, tree))
    }

    /// An equal record.
    pub fn copy(&self, alloc: Global) -> Result<UserRecord, NoMemory>
        ensures { IfOk result (λ copy. copy ≡ self.now) }
    {
        Ok(UserRecord {
            person: self.person.copy(alloc)?,
            digest: self.digest,
        })
    }
}

impl Copied for UserRecord {
    fn copied(&self, alloc: Global) -> Result<UserRecord, NoMemory> {
        self.copy(alloc)
    }
}

// The texts that are names.
struct NameText;

impl Spelling for NameText {
    type Out = Str;

    ghost named = { name_in };

    fn parse(alloc: Global, text: &str) -> Result<Option<Str>, NoMemory> {
        if !is_name(text) {
            return Ok(None);
        }
        Ok(Some(Str::of(alloc, text)?))
    }
}

// The texts that are secrets.
struct SecretText;

impl Spelling for SecretText {
    type Out = Str;

    ghost named = { secret_in };

    fn parse(alloc: Global, text: &str) -> Result<Option<Str>, NoMemory> {
        if !is_secret(text) {
            return Ok(None);
        }
        Ok(Some(Str::of(alloc, text)?))
    }
}

#[tactic(auto, unfolding(crate::specs::Users::user_form))]
fn user_from(alloc: Global, name: &str, tree: &Tree) -> Result<UserRecord, BodyFault>
    ensures { Gives result (user_form name.now tree.now) }
{
    let members = members_of(alloc, tree)?;
    let (email, members) = optional::<Nullable<Text>>(alloc, "email", members)?;
    let (full_name, members) = optional::<Nullable<Text>>(alloc, "full_name", members)?;
    let (metadata, members) = optional::<Object>(alloc, "metadata", members)?;
    let (roles, members) = optional::<ListOf<TextOf<NameText>>>(alloc, "roles", members)?;
    let (secret, members) = optional::<TextOf<SecretText>>(alloc, "secret", members)?;
    ends(alloc, members)?;
    let roles = needed(alloc, roles)?;
    let secret = needed(alloc, secret)?;
    Ok(UserRecord {
        person: Person {
            username: Str::of(alloc, name)?,
            full_name: full_name.flatten(),
            email: email.flatten(),
            roles: in_order(roles)?,
            metadata: or_no_members(alloc, metadata),
        },
        digest: digest(name, secret.text()),
    })
}
