//! Users, roles and keys.
ghost use Rattle.std.specs.Prelude.{◌≡◌, ◌<◌, IfOk, slice_get, Some};
ghost use Rattle.std.specs.Option.{option_copied};
ghost use Rattle.std.specs.FinMap as map;
ghost use Rattle.es_records.specs.Records.{opening_records};

use crate::opening::{opening_role, opening_user};
use es_base::{NoMemory, Shared, Str};
use es_compose::RolePart;
use es_cred::{ROLE, USER, UserRecord};
use es_keys::KeyRecord;
use es_map::Map;
use std::alloc::Global;
use std::marker::Model;

/// Users and descriptors by their names, and keys by their ids. A change makes new records, which share with the old ones
/// all that they have in common.
#[derive(Drop)]
pub struct Records {
    pub(crate) users: Map<Shared<UserRecord>>,
    pub(crate) roles: Map<Shared<RolePart>>,
    pub(crate) keys: Map<Shared<KeyRecord>>,
}

impl Model for Records {
    ghost use Rattle.es_records.specs.Records.{RecordsValue};
    ghost use Rattle.es_records.specs.Codes.{records_code};
    ghost use Rattle.es_records.specs.Views.{records_of, IsKept};

    ghost Value = { RecordsValue };

    ghost coded = { records_code };

    ghost view = { λ records. records_of records.users records.roles records.keys };

    ghost invariant = { λ records. IsKept records.users records.roles records.keys };
}

impl Records {
    /// The records before any change: one user with this secret, and its role.
    pub fn opening(alloc: Global, secret: &str) -> Result<Records, NoMemory>
        ensures { IfOk result (λ records. records ≡ opening_records secret.now) }
    {
        let user = Shared::new(alloc, opening_user(alloc, secret)?)?;
        let role = Shared::new(alloc, RolePart::of(alloc, opening_role(alloc)?)?)?;
        Ok(Records {
            users: Map::empty().with(alloc, Str::of(alloc, USER)?, user)?,
            roles: Map::empty().with(alloc, Str::of(alloc, ROLE)?, role)?,
            keys: Map::empty(),
        })
    }

    /// The same records once more, whatever their size.
    pub fn share(&self) -> Result<Records, NoMemory>
        ensures { IfOk result (λ share. share ≡ self.now) }
    {
        Ok(Records {
            users: self.users.share()?,
            roles: self.roles.share()?,
            keys: self.keys.share()?,
        })
    }

    /// The user of this name.
    pub fn user(&self, name: &str) -> Option<&UserRecord>
        ensures { option_copied result ≡ map.get self.now.users name.now }
    {
        match self.users.get(name) {
            Some(user) => Some(user.get()),
            None => None,
        }
    }

    /// The role of this name.
    pub fn role(&self, name: &str) -> Option<&RolePart>
        ensures { option_copied result ≡ map.get self.now.roles name.now }
    {
        match self.roles.get(name) {
            Some(role) => Some(role.get()),
            None => None,
        }
    }

    /// The key of this id.
    pub fn key(&self, id: &str) -> Option<&KeyRecord>
        ensures { option_copied result ≡ map.get self.now.keys id.now }
    {
        match self.keys.get(id) {
            Some(kept) => Some(kept.get()),
            None => None,
        }
    }

    /// How many keys there are.
    pub fn key_count(&self) -> usize
        ensures { result ≡ map.len self.now.keys }
    {
        self.keys.len()
    }

    /// The key at a place, counted from 0 in the order of ids.
    pub fn key_at(&self, at: usize) -> &KeyRecord
        requires { at < map.len self.now.keys }
        ensures { slice_get (map.values self.now.keys) at ≡ Some result.now }
    {
        match self.keys.at(at) {
            Some((_id, kept)) => kept.get(),
            None => unreachable!(),
        }
    }
}
