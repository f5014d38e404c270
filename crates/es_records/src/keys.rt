//! Keys that a subject makes.
ghost use Rattle.std.specs.Prelude.{◌≡◌, [], ◌++◌, IfOk, OnOk};
ghost use Rattle.std.specs.List.{list_all};
ghost use Rattle.std.specs.FinMap as map;
ghost use Rattle.es_role.specs.Descriptors.{grants_nothing};
ghost use Rattle.es_keys.specs.Halves.{acts_as_key};
ghost use Rattle.es_records.specs.Records.{named, before_others};
ghost use Rattle.es_records.specs.Keys.{may_make, caller_limits, limits_for};

use crate::records::Records;
use es_base::{NoMemory, Seq, Str, Strs};
use es_keys::{Caller, NamedDescriptors, NamedPart, Subject, Target};
use std::alloc::Global;

impl Records {
    /// The descriptors of the names that have one, with their names, in the order of the names. They are shared, not copied.
    pub fn named(&self, alloc: Global, names: &Strs) -> Result<NamedDescriptors, NoMemory>
        ensures { IfOk result (λ found. found ≡ named self.now names.now) }
    {
        let mut found = Seq::empty(alloc);
        for name in names.as_slice() {
            self.add_named(alloc, &mut found, name)?;
        }
        Ok(found)
    }

    // Adds the descriptor of the name, if it has one.
    fn add_named(
        &self,
        alloc: Global,
        found: &mut NamedDescriptors,
        name: &Str,
    ) -> Result<(), NoMemory>
        ensures { OnOk result (found.new ≡ found.old ++ before_others name.now (map.get self.now.roles name.now) []) }
    {
        match self.roles.get(name.text()) {
            Some(part) => found.push(NamedPart {
                name: name.copy(alloc)?,
                part: part.share()?,
            }),
            None => Ok(()),
        }
    }

    /// The limits of a key that the subject makes: the descriptors of the roles of the user that acts, as they are; of a key
    /// that acts itself, its own limits.
    #[tactic(auto, unfolding(crate::specs::Keys::limits_for))]
    pub fn limits_for(&self, alloc: Global, subject: &Subject) -> Result<NamedDescriptors, NoMemory>
        ensures { IfOk result (λ limits. limits ≡ limits_for self.now subject.now) }
    {
        match &subject.target {
            Target::Own => self.caller_limits(alloc, &subject.caller),
            Target::As(user) => self.named(alloc, &user.get().person.roles),
            Target::Unknown => Ok(Seq::empty(alloc)),
        }
    }

    // The limits of a key that the caller makes as itself.
    fn caller_limits(&self, alloc: Global, caller: &Caller) -> Result<NamedDescriptors, NoMemory>
        ensures { IfOk result (λ limits. limits ≡ caller_limits self.now caller.now) }
    {
        match caller {
            Caller::User(user) => self.named(alloc, &user.get().person.roles),
            Caller::Key(kept) => kept.get().limits.copy(alloc),
        }
    }
}

/// Whether the subject may make a key with these descriptors: a key that acts itself makes only keys to which descriptors
/// are assigned, each of which grants nothing. It takes no memory.
#[tactic(auto, unfolding(crate::specs::Keys::may_make))]
pub fn may_make(subject: &Subject, assigned: &NamedDescriptors) -> bool
    ensures { result ≡ may_make subject.now assigned.now }
{
    if acts_as_key(subject) {
        !assigned.is_empty() && grant_nothing(assigned.as_slice())
    } else {
        true
    }
}

// Whether it is an API key that acts itself.
#[tactic(auto, unfolding(es_keys::specs::Halves::acts_as_key))]
fn acts_as_key(subject: &Subject) -> bool
    ensures { result ≡ acts_as_key subject.now }
{
    match &subject.caller {
        Caller::User(_) => false,
        Caller::Key(_) => match &subject.target {
            Target::Own => true,
            Target::As(_) | Target::Unknown => false,
        },
    }
}

fn grant_nothing(assigned: &[NamedPart]) -> bool
    ensures { result ≡ list_all (λ named. grants_nothing named.part) assigned.now }
{
    assigned
        .iter()
        .all(|named| named.part.get().descriptor().grants_nothing())
}
