//! The names of a subject's halves.
ghost use Rattle.std.specs.Prelude.{◌≡◌, IfOk};
ghost use Rattle.es_keys.specs.declared.kinds.RoleKey.TheVariants.{Names};
ghost use Rattle.es_records.specs.Halves.{first_name, limit_name, target_name, key_first_name, key_limit_name};
ghost use Rattle.es_vault.specs.Names.{keys_for};

use crate::half::Half;
use es_base::{NoMemory, Shared, Str, Strs};
use es_cred::UserRecord;
use es_keys::{Caller, KeyRecord, RoleKey, Subject, Target};
use std::alloc::Global;

/// The names of a subject's halves: the caller's first, its limiting one if it has one, and that of the user as whom it
/// runs.
#[derive(Drop)]
pub struct HalfKeys {
    pub first: Half,
    pub limit: Option<Half>,
    pub target: Option<Half>,
}

impl HalfKeys {
    /// The names of the halves of the subject.
    pub fn of(alloc: Global, subject: &Subject) -> Result<HalfKeys, NoMemory>
        ensures { IfOk result (λ keys. keys ≡ keys_for subject.now) }
    {
        Ok(HalfKeys {
            first: first_of(alloc, &subject.caller)?,
            limit: limit_of(alloc, &subject.caller)?,
            target: target_of(alloc, &subject.target)?,
        })
    }
}

// The name of a user's half.
fn named(alloc: Global, user: &UserRecord) -> Result<Half, NoMemory>
    ensures { IfOk result (λ half. half ≡ Names user.now.person.roles) }
{
    let names: Strs = user.person.roles.copy(alloc)?;
    Ok(Half::of(RoleKey::Names(Shared::new(alloc, names)?)))
}

fn first_of(alloc: Global, caller: &Caller) -> Result<Half, NoMemory>
    ensures { IfOk result (λ half. half ≡ first_name caller.now) }
{
    match caller {
        Caller::User(user) => named(alloc, user.get()),
        Caller::Key(kept) => first_of_key(alloc, kept.get()),
    }
}

fn first_of_key(alloc: Global, kept: &KeyRecord) -> Result<Half, NoMemory>
    ensures { IfOk result (λ half. half ≡ key_first_name kept.now.id kept.now.assigned) }
{
    let id: Shared<Str> = Shared::new(alloc, kept.id.copy(alloc)?)?;
    if kept.assigned.is_empty() {
        Ok(Half::of(RoleKey::Limits(id)))
    } else {
        Ok(Half::of(RoleKey::Assigned(id)))
    }
}

fn limit_of(alloc: Global, caller: &Caller) -> Result<Option<Half>, NoMemory>
    ensures { IfOk result (λ half. half ≡ limit_name caller.now) }
{
    match caller {
        Caller::User(_) => Ok(None),
        Caller::Key(kept) => limit_of_key(alloc, kept.get()),
    }
}

fn limit_of_key(alloc: Global, kept: &KeyRecord) -> Result<Option<Half>, NoMemory>
    ensures { IfOk result (λ half. half ≡ key_limit_name kept.now.id kept.now.assigned) }
{
    if kept.assigned.is_empty() {
        return Ok(None);
    }
    let id: Shared<Str> = Shared::new(alloc, kept.id.copy(alloc)?)?;
    Ok(Some(Half::of(RoleKey::Limits(id))))
}

fn target_of(alloc: Global, target: &Target) -> Result<Option<Half>, NoMemory>
    ensures { IfOk result (λ half. half ≡ target_name target.now) }
{
    match target {
        Target::As(user) => Ok(Some(named(alloc, user.get())?)),
        Target::Own | Target::Unknown => Ok(None),
    }
}
