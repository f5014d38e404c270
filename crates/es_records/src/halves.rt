//! The halves by which the requests of a subject are decided.
ghost use Rattle.std.specs.Prelude.{◌≡◌, IfOk};
ghost use Rattle.es_records.specs.Records.{parts_of, descriptors_of};
ghost use Rattle.es_records.specs.Halves.{roles_of, halves_in, first_half, limit_half, target_half, key_first, key_limit};

use crate::records::Records;
use es_base::{NoMemory, Seq, Shared, Strs};
use es_compose::Role;
use es_decide::Halves;
use es_keys::{Caller, KeyRecord, NamedPart, RoleKey, Subject, Target};
use std::alloc::Global;

impl Records {
    /// The composed role of the descriptors that the name of a half stands for.
    #[tactic(auto, unfolding(crate::specs::Halves::roles_of))]
    pub fn role_of(&self, alloc: Global, key: &RoleKey) -> Result<Role, NoMemory>
        ensures { IfOk result (λ role. role ≡ roles_of self.now key.now) }
    {
        match key {
            RoleKey::Names(names) => self.role_of_names(alloc, names.get()),
            RoleKey::Assigned(id) => match self.key(id.get().text()) {
                Some(kept) => role_of_parts(alloc, kept.assigned.as_slice()),
                None => Ok(Role::of(Seq::empty(alloc))),
            },
            RoleKey::Limits(id) => match self.key(id.get().text()) {
                Some(kept) => role_of_parts(alloc, kept.limits.as_slice()),
                None => Ok(Role::of(Seq::empty(alloc))),
            },
        }
    }

    // The role of the descriptors of these names.
    fn role_of_names(&self, alloc: Global, names: &Strs) -> Result<Role, NoMemory>
        ensures { IfOk result (λ role. role ≡ descriptors_of self.now names.now) }
    {
        let named = self.named(alloc, names)?;
        role_of_parts(alloc, named.as_slice())
    }

    /// The composed halves of a subject.
    #[tactic(auto, unfolding(crate::specs::Halves::halves_in))]
    pub fn halves(&self, alloc: Global, subject: &Subject) -> Result<Halves, NoMemory>
        ensures { IfOk result (λ halves. halves ≡ halves_in self.now subject.now) }
    {
        let first = self.first_half(alloc, &subject.caller)?;
        Ok(Halves {
            first: Shared::new(alloc, first)?,
            limit: limit_half(alloc, &subject.caller)?,
            target: self.target_half(alloc, &subject.target)?,
        })
    }

    fn first_half(&self, alloc: Global, caller: &Caller) -> Result<Role, NoMemory>
        ensures { IfOk result (λ role. role ≡ first_half self.now caller.now) }
    {
        match caller {
            Caller::User(user) => self.role_of_names(alloc, &user.get().person.roles),
            Caller::Key(kept) => key_first(alloc, kept.get()),
        }
    }

    fn target_half(&self, alloc: Global, target: &Target) -> Result<Option<Shared<Role>>, NoMemory>
        ensures { IfOk result (λ half. half ≡ target_half self.now target.now) }
    {
        match target {
            Target::As(user) => {
                let role = self.role_of_names(alloc, &user.get().person.roles)?;
                Ok(Some(Shared::new(alloc, role)?))
            }
            Target::Own | Target::Unknown => Ok(None),
        }
    }
}

fn key_first(alloc: Global, kept: &KeyRecord) -> Result<Role, NoMemory>
    ensures { IfOk result (λ role. role ≡ key_first kept.now.assigned kept.now.limits) }
{
    if kept.assigned.is_empty() {
        role_of_parts(alloc, kept.limits.as_slice())
    } else {
        role_of_parts(alloc, kept.assigned.as_slice())
    }
}

fn limit_half(alloc: Global, caller: &Caller) -> Result<Option<Shared<Role>>, NoMemory>
    ensures { IfOk result (λ half. half ≡ limit_half caller.now) }
{
    match caller {
        Caller::User(_) => Ok(None),
        Caller::Key(kept) => key_limit(alloc, kept.get()),
    }
}

fn key_limit(alloc: Global, kept: &KeyRecord) -> Result<Option<Shared<Role>>, NoMemory>
    ensures { IfOk result (λ half. half ≡ key_limit kept.now.assigned kept.now.limits) }
{
    if kept.assigned.is_empty() {
        return Ok(None);
    }
    let role = role_of_parts(alloc, kept.limits.as_slice())?;
    Ok(Some(Shared::new(alloc, role)?))
}

// The role of these descriptors, which it shares with their holder.
fn role_of_parts(alloc: Global, named: &[NamedPart]) -> Result<Role, NoMemory>
    ensures { IfOk result (λ role. role ≡ parts_of named.now) }
{
    let mut parts = Seq::empty(alloc);
    for one in named {
        parts.push(one.part.share()?)?;
    }
    Ok(Role::of(parts))
}
