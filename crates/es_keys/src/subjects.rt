//! What the decisions on a subject are made of, and as whom it acts.
ghost use Rattle.std.specs.Prelude.{◌≡◌, [], ◌∷◌, IfOk};
ghost use Rattle.es_keys.specs.Halves.{key_halves, halves_of, caller_person, acting_of};
ghost use Rattle.es_keys.specs.declared.kinds.RoleKey.TheVariants.{Names};

use crate::kinds::{Caller, KeyRecord, RoleKey, Subject, Target};
use es_base::{NoMemory, Seq, Shared};
use es_cred::UserRecord;
use es_tree::Person;
use std::alloc::Global;

/// The halves of the decisions on a subject: of a user its roles; of a key its assigned descriptors, where it has some,
/// and then its limits; and behind them the roles of the user that the caller runs as.
#[tactic(auto, unfolding(crate::specs::Halves::halves_of))]
pub fn halves(alloc: Global, subject: &Subject) -> Result<Seq<RoleKey>, NoMemory>
    ensures { IfOk result (λ halves. halves ≡ halves_of subject.now) }
{
    let mut found = match &subject.caller {
        Caller::User(user) => of_user(alloc, user.get())?,
        Caller::Key(kept) => of_key(alloc, kept.get())?,
    };
    if let Target::As(user) = &subject.target {
        found.push(roles_of(alloc, user.get())?)?;
    }
    Ok(found)
}

// The names of a user's roles.
fn roles_of(alloc: Global, user: &UserRecord) -> Result<RoleKey, NoMemory>
    ensures { IfOk result (λ key. key ≡ Names user.now.person.roles) }
{
    let roles = user.person.roles.copy(alloc)?;
    Ok(RoleKey::Names(Shared::new(alloc, roles)?))
}

fn of_user(alloc: Global, user: &UserRecord) -> Result<Seq<RoleKey>, NoMemory>
    ensures { IfOk result (λ halves. halves ≡ Names user.now.person.roles ∷ []) }
{
    let mut found = Seq::empty(alloc);
    found.push(roles_of(alloc, user)?)?;
    Ok(found)
}

fn of_key(alloc: Global, kept: &KeyRecord) -> Result<Seq<RoleKey>, NoMemory>
    ensures { IfOk result (λ halves. halves ≡ key_halves kept.now.id kept.now.assigned) }
{
    let id = Shared::new(alloc, kept.id.copy(alloc)?)?;
    let mut found = Seq::empty(alloc);
    if !kept.assigned.is_empty() {
        found.push(RoleKey::Assigned(id.share()?))?;
    }
    found.push(RoleKey::Limits(id))?;
    Ok(found)
}

/// As whom the subject acts: as the target where it is a user, else as the calling user or the key's owner, as it was when
/// the key was made. It takes no memory.
#[tactic(auto, unfolding(crate::specs::Halves::acting_of))]
pub fn acting(subject: &Subject) -> &Person
    ensures { result.now ≡ acting_of subject.now }
{
    match &subject.target {
        Target::As(user) => &user.get().person,
        Target::Own | Target::Unknown => calling(&subject.caller),
    }
}

// The calling user, or the key's owner.
fn calling(caller: &Caller) -> &Person
    ensures { result.now ≡ caller_person caller.now }
{
    match caller {
        Caller::User(user) => &user.get().person,
        Caller::Key(kept) => &kept.get().owner,
    }
}
