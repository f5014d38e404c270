//! Who a user is, as templates and keys see it.
ghost use Rattle.std.specs.Prelude.{◌≡◌, IfOk};

use crate::tree::Tree;
use es_base::{NoMemory, Str, Strs};
use std::alloc::Global;

/// A user without credentials.
#[derive(Debug, Drop)]
pub struct Person {
    pub username: Str,
    pub full_name: Option<Str>,
    pub email: Option<Str>,
    /// Names of roles.
    pub roles: Strs,
    /// What an administrator noted of the user.
    pub metadata: Tree,
}

impl Person {
    /// An equal person.
    pub fn copy(&self, alloc: Global) -> Result<Person, NoMemory>
        ensures { IfOk result (λ copy. copy ≡ self.now) }
    {
        Ok(Person {
            username: self.username.copy(alloc)?,
            full_name: copy_if_given(alloc, &self.full_name)?,
            email: copy_if_given(alloc, &self.email)?,
            roles: self.roles.copy(alloc)?,
            metadata: self.metadata.copy(alloc)?,
        })
    }
}

fn copy_if_given(alloc: Global, text: &Option<Str>) -> Result<Option<Str>, NoMemory>
    ensures { IfOk result (λ copy. copy ≡ text.now) }
{
    match text {
        Some(text) => Ok(Some(text.copy(alloc)?)),
        None => Ok(None),
    }
}
