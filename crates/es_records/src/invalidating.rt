//! What an invalidation of keys finds.
ghost use Rattle.std.specs.Prelude.{◌≡◌, [], ◌∷◌, Some, None, IfOk, OnOk};
ghost use Rattle.std.specs.Option.{option_copied};
ghost use Rattle.std.specs.FinMap as map;
ghost use Rattle.es_records.specs.Keys.{invalidation, is_owned, asked_keys};
ghost use Rattle.es_records.specs.Found.{found_of, joined};

use crate::records::Records;
use es_base::{NoMemory, Seq, Strs};
use es_cred::in_order;
use es_keys::KeyRecord;
use std::alloc::Global;

/// Ids of keys, in the order of their bytes.
#[derive(Drop)]
pub struct Invalidation {
    /// Of those that are invalidated now.
    pub newly: Strs,
    /// Of those that were invalidated before.
    pub previously: Strs,
}

impl Invalidation {
    fn none(alloc: Global) -> Invalidation
        ensures { result ≡ found_of None [] }
    {
        Invalidation {
            newly: Seq::empty(alloc),
            previously: Seq::empty(alloc),
        }
    }

    // Adds the key, if it is the owner's.
    fn add(&mut self, alloc: Global, kept: &KeyRecord, owner: Option<&str>) -> Result<(), NoMemory>
        ensures { OnOk result (self.new ≡ joined self.old (found_of (option_copied owner.entry) (kept.now ∷ []))) }
    {
        if !is_owned(owner, kept) {
            return Ok(());
        }
        let id = kept.id.copy(alloc)?;
        if kept.invalidated {
            self.previously.push(id)
        } else {
            self.newly.push(id)
        }
    }
}

// Whether the key's owner has the name, where one is named.
fn is_owned(owner: Option<&str>, kept: &KeyRecord) -> bool
    ensures { result ≡ is_owned (option_copied owner.entry) kept.now }
{
    match owner {
        Some(name) => kept.owner.username.text() == name,
        None => true,
    }
}

impl Records {
    /// What an invalidation finds: the ids of the keys that it invalidates now, and of those that were invalidated before,
    /// each once and in the order of ids. `ids` names keys, all where it is absent, and ids that no key has are passed over.
    /// Where `owner` is given, only the keys of the owner of this name are found.
    #[tactic(auto, unfolding(crate::specs::Keys::invalidation))]
    pub fn invalidation(
        &self,
        alloc: Global,
        ids: Option<&Strs>,
        owner: Option<&str>,
    ) -> Result<Invalidation, NoMemory>
        ensures newly { IfOk result (λ found. found.newly ≡ (invalidation self.now (option_copied ids.entry) (option_copied owner.entry)).newly) }
        ensures previously { IfOk result (λ found. found.previously ≡ (invalidation self.now (option_copied ids.entry) (option_copied owner.entry)).previously) }
    {
        match ids {
            Some(ids) => self.found_among(alloc, ids, owner),
            None => self.found_in_all(alloc, owner),
        }
    }

    fn found_among(
        &self,
        alloc: Global,
        ids: &Strs,
        owner: Option<&str>,
    ) -> Result<Invalidation, NoMemory>
        ensures { IfOk result (λ found. found ≡ found_of (option_copied owner.entry) (asked_keys self.now (Some ids.now))) }
    {
        let ordered = in_order(ids.copy(alloc)?)?;
        let mut found = Invalidation::none(alloc);
        for id in ordered.as_slice() {
            if let Some(kept) = self.key(id.text()) {
                found.add(alloc, kept, owner)?;
            }
        }
        Ok(found)
    }

    fn found_in_all(&self, alloc: Global, owner: Option<&str>) -> Result<Invalidation, NoMemory>
        ensures { IfOk result (λ found. found ≡ found_of (option_copied owner.entry) (map.values self.now.keys)) }
    {
        let mut found = Invalidation::none(alloc);
        for place in 0..self.key_count() {
            found.add(alloc, self.key_at(place), owner)?;
        }
        Ok(found)
    }
}
