//! The vault: the world at its place, and the cache of composed roles.
ghost use Rattle.std.specs.Prelude.{◌≡◌, ◌≢◌, ◌≤◌, ◌<◌, IfOk, OnOk, OnErr};
ghost use Rattle.es_cache.specs.Cache.{no_entries};
ghost use Rattle.es_cache.specs.Publishing.{answer_at};
ghost use Rattle.es_vault.specs.World.{opening_world};
ghost use Rattle.es_vault.specs.Vault.{IsRight, with_role};

use crate::half::Half;
use es_base::{NoMemory, Shared};
use es_cache::{Counted, Published};
use es_catalog::Catalog;
use es_compose::Role;
use es_records::Records;
use std::alloc::Global;
use std::marker::Model;

/// How much a vault may hold.
#[derive(Clone, Copy, Debug)]
pub struct Limits {
    /// Entries of the journal, the opening included: 1 to 200,000.
    pub journal: u64,
    /// Composed roles in the cache: 1 to 512.
    pub role_cache: usize,
}

/// The one list of accepted changes, by the world for which it stands, its length and its weight; and the cache of composed
/// roles.
#[derive(Drop)]
pub struct Vault {
    pub(crate) alloc: Global,
    pub(crate) records: Records,
    pub(crate) catalog: Catalog,
    pub(crate) place: u64,
    pub(crate) weight: u64,
    pub(crate) limit: u64,
    pub(crate) roles: Counted<Half, Shared<Role>>,
}

impl Model for Vault {
    ghost use Rattle.es_vault.specs.Vault.{VaultValue, IsSound, vault_of};
    ghost use Rattle.es_vault.specs.Codes.{vault_code};

    ghost Value = { VaultValue };

    ghost coded = { vault_code };

    ghost view = { λ vault. vault_of vault.records vault.catalog vault.place vault.weight vault.limit vault.roles };

    ghost invariant = { λ vault. IsSound (vault_of vault.records vault.catalog vault.place vault.weight vault.limit vault.roles) };
}

impl Vault {
    /// The vault of a new node, whose one user has this secret, with nothing in its cache.
    pub fn open(alloc: Global, secret: &str, limits: Limits) -> Result<Vault, NoMemory>
        requires journal { 1 ≤ limits.journal }
        requires most { limits.journal ≤ 200000 }
        requires roles { 1 ≤ limits.role_cache }
        ensures world { IfOk result (λ vault. vault.at ≡ record { world = opening_world secret.now; place = 1; weight = 0 }) }
        ensures limit { IfOk result (λ vault. vault.limit ≡ limits.journal) }
        ensures roles { IfOk result (λ vault. vault.roles ≡ no_entries limits.role_cache) }
    {
        Ok(Vault {
            alloc,
            records: Records::opening(alloc, secret)?,
            catalog: Catalog::opening(),
            place: 1,
            weight: 0,
            limit: limits.journal,
            roles: Counted::new(alloc, limits.role_cache)?,
        })
    }

    /// How many changes were accepted, the opening included. It takes no memory.
    pub fn seen(&self) -> u64
        ensures place { result ≡ self.now.at.place }
        ensures positive { 0 < result }
    {
        self.place
    }

    /// Puts a composed role first in the cache, if no user, role or key was changed, and nothing cleared, since its loader
    /// looked, which was at this count. An equal half's role is replaced; only where there is none, and the cache is full, its
    /// last one goes.
    pub fn publish_role(
        &mut self,
        began: u64,
        key: Half,
        role: Shared<Role>,
    ) -> Result<Published, NoMemory>
        requires { began ≡ self.old.roles.count → IsRight self.old.at.world.records (key, role) }
        ensures answer { IfOk result (λ answer. answer ≡ answer_at began self.old.roles.count) }
        ensures put { began ≡ self.old.roles.count → OnOk result (self.new ≡ with_role self.old key role) }
        ensures stale { began ≢ self.old.roles.count → self.new ≡ self.old }
        ensures err { OnErr result (self.new ≡ self.old) }
        ensures asks { OnErr result (began ≡ self.old.roles.count) }
    {
        self.roles.publish(self.alloc, began, key, role)
    }
}
