//! Who asks, and by which composed roles it is decided.
ghost use Rattle.std.specs.Prelude.{◌≡◌, IfOk, OnErr};
ghost use Rattle.std.specs.Option.{option_copied};
ghost use Rattle.std.specs.Map.{lookup};
ghost use Rattle.es_cache.specs.Entries.{brought_first};
ghost use Rattle.es_records.specs.Records.{who};
ghost use Rattle.es_records.specs.Laws.{listed};
ghost use Rattle.es_vault.specs.Keys.{same_key};
ghost use Rattle.es_vault.specs.Names.{key_list};
ghost use Rattle.es_vault.specs.Vault.{brought_all, with_roles};
ghost use Rattle.es_vault.specs.Steps.{Looks, IsOfFound, snapshot_for};
ghost use Rattle.es_vault.specs.Found.{found_by, IsFound};

use crate::half::Half;
use crate::names::HalfKeys;
use crate::vault::Vault;
use es_base::{NoMemory, Shared};
use es_catalog::Catalog;
use es_compose::Role;
use es_cred::Credentials;
use es_decide::Halves;
use es_keys::Subject;
use es_records::Records;
use std::alloc::Global;

/// What a look found: who asks, and the world at the place at which it looked. It shares the world with the vault, and is
/// left as it was by any later change.
#[derive(Drop)]
pub struct Snapshot {
    pub subject: Subject,
    pub records: Records,
    pub catalog: Catalog,
    pub place: u64,
    /// How often users, roles or keys had been changed, or the cache cleared.
    pub count: u64,
}

impl Snapshot {
    /// The same once more. Nothing is copied.
    pub fn share(&self) -> Result<Snapshot, NoMemory>
        ensures { IfOk result (λ share. share ≡ self.now) }
    {
        Ok(Snapshot {
            subject: self.subject.share()?,
            records: self.records.share()?,
            catalog: self.catalog.share()?,
            place: self.place,
            count: self.count,
        })
    }
}

/// What a look answers.
#[derive(Drop)]
pub enum Look {
    /// Each half of the subject is cached.
    Hit(Snapshot, Halves),
    /// One isn't, or several: these are the names of all.
    Miss(Snapshot, HalfKeys),
    /// The credentials are nobody's.
    Unknown(u64),
}

impl Vault {
    /// Who sends a request with these credentials at the moment (milliseconds since 1970), and as whom. Where each half of the
    /// subject is cached they come to the front one after the other, so that the last of them is first.
    pub fn look(
        &mut self,
        credentials: &Credentials,
        run_as: Option<&str>,
        moment: u64,
    ) -> Result<Look, NoMemory>
        ensures ok { IfOk result (λ look. Looks self.old self.new (who self.old.at.world.records credentials.now (option_copied run_as.entry) moment) look) }
        ensures is_of { IfOk result (λ look. IsOfFound look) }
        ensures err { OnErr result (self.new ≡ self.old) }
    {
        let Some(subject) = self.records.who(credentials, run_as, moment)? else {
            return Ok(Look::Unknown(self.place));
        };
        let keys = HalfKeys::of(self.alloc, &subject)?;
        let halves = self.cached_halves(&keys)?;
        let snapshot = self.snapshot(subject)?;
        match halves {
            Some(halves) => {
                self.bring_all(&keys);
                Ok(Look::Hit(snapshot, halves))
            }
            None => Ok(Look::Miss(snapshot, keys)),
        }
    }

    // The world as it stands, for the subject.
    fn snapshot(&self, subject: Subject) -> Result<Snapshot, NoMemory>
        ensures { IfOk result (λ snapshot. snapshot ≡ snapshot_for self.now subject) }
    {
        Ok(Snapshot {
            subject,
            records: self.records.share()?,
            catalog: self.catalog.share()?,
            place: self.place,
            count: self.roles.count(),
        })
    }

    // The composed roles of these halves, if each is cached. The order stays.
    fn cached_halves(&self, keys: &HalfKeys) -> Result<Option<Halves>, NoMemory>
        ensures { IfOk result (λ found. IsFound self.now.roles.entries keys.now found) }
    {
        let Some(first) = self.cached(&keys.first)? else {
            return Ok(None);
        };
        let Some(limit) = self.cached_where(&keys.limit)? else {
            return Ok(None);
        };
        let Some(target) = self.cached_where(&keys.target)? else {
            return Ok(None);
        };
        Ok(Some(Halves {
            first,
            limit,
            target,
        }))
    }

    // The composed role of a half, if it is cached.
    fn cached(&self, key: &Half) -> Result<Option<Shared<Role>>, NoMemory>
        ensures { IfOk result (λ found. found ≡ lookup (same_key key.now) self.now.roles.entries) }
    {
        match self.roles.peek(key) {
            Some(role) => Ok(Some(role.share()?)),
            None => Ok(None),
        }
    }

    // The composed role of a half, if there is one, and if it is cached.
    fn cached_where(&self, key: &Option<Half>) -> Result<Option<Option<Shared<Role>>>, NoMemory>
        ensures { IfOk result (λ found. found ≡ found_by self.now.roles.entries key.now) }
    {
        match key {
            None => Ok(Some(None)),
            Some(key) => match self.cached(key)? {
                Some(role) => Ok(Some(Some(role))),
                None => Ok(None),
            },
        }
    }

    // Brings each of these to the front, one after the other. It takes no memory.
    fn bring_all(&mut self, keys: &HalfKeys)
        ensures { self.new ≡ with_roles self.old (brought_all (key_list keys.now) self.old.roles.entries) }
    {
        self.bring(&keys.first);
        self.bring_where(&keys.limit);
        self.bring_where(&keys.target);
    }

    // Brings a half to the front, if there is one.
    fn bring_where(&mut self, key: &Option<Half>)
        ensures { self.new ≡ with_roles self.old (brought_all (listed key.now) self.old.roles.entries) }
    {
        if let Some(key) = key {
            self.bring(key);
        }
    }

    // Brings a half to the front.
    fn bring(&mut self, key: &Half)
        ensures { self.new ≡ with_roles self.old (brought_first (same_key key.now) self.old.roles.entries) }
    {
        self.roles.find(key);
    }
}
