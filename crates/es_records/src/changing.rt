//! Records after a change.
ghost use Rattle.std.specs.Prelude.{◌≡◌, [], ◌∷◌, IfOk};
ghost use Rattle.es_records.specs.declared.change.SecurityChange.TheVariants.{PutRole, DeleteRole, PutUser, DeleteUser, AddKey, Invalidate};
ghost use Rattle.es_records.specs.Changes.{with_security};

use crate::change::SecurityChange;
use crate::records::Records;
use es_base::{NoMemory, Shared, Str};
use es_compose::RolePart;
use es_cred::UserRecord;
use es_keys::KeyRecord;
use std::alloc::Global;

impl Records {
    /// The records after a change. What they had is as it was, and nothing is copied but the ways to what changes, and each
    /// key that is invalidated.
    pub fn with(&self, alloc: Global, change: &SecurityChange) -> Result<Records, NoMemory>
        ensures { IfOk result (λ records. records ≡ with_security self.now change.now) }
    {
        match change {
            SecurityChange::PutRole { name, role } => self.with_role(alloc, name, role),
            SecurityChange::DeleteRole { name } => self.without_role(alloc, name),
            SecurityChange::PutUser(user) => self.with_user(alloc, user),
            SecurityChange::DeleteUser { name } => self.without_user(alloc, name),
            SecurityChange::AddKey(key) => self.with_key(alloc, key.share()?),
            SecurityChange::Invalidate { ids } => self.with_invalidated(alloc, ids.as_slice()),
            SecurityChange::ClearCache { .. } => self.share(),
        }
    }

    fn with_role(
        &self,
        alloc: Global,
        name: &Str,
        role: &Shared<RolePart>,
    ) -> Result<Records, NoMemory>
        ensures { IfOk result (λ records. records ≡ with_security self.now (PutRole name.now role.now)) }
    {
        Ok(Records {
            users: self.users.share()?,
            roles: self.roles.with(alloc, name.copy(alloc)?, role.share()?)?,
            keys: self.keys.share()?,
        })
    }

    fn without_role(&self, alloc: Global, name: &Str) -> Result<Records, NoMemory>
        ensures { IfOk result (λ records. records ≡ with_security self.now (DeleteRole name.now)) }
    {
        Ok(Records {
            users: self.users.share()?,
            roles: self.roles.without(alloc, name.text())?,
            keys: self.keys.share()?,
        })
    }

    fn with_user(&self, alloc: Global, user: &Shared<UserRecord>) -> Result<Records, NoMemory>
        ensures { IfOk result (λ records. records ≡ with_security self.now (PutUser user.now)) }
    {
        let name = user.get().person.username.copy(alloc)?;
        Ok(Records {
            users: self.users.with(alloc, name, user.share()?)?,
            roles: self.roles.share()?,
            keys: self.keys.share()?,
        })
    }

    fn without_user(&self, alloc: Global, name: &Str) -> Result<Records, NoMemory>
        ensures { IfOk result (λ records. records ≡ with_security self.now (DeleteUser name.now)) }
    {
        Ok(Records {
            users: self.users.without(alloc, name.text())?,
            roles: self.roles.share()?,
            keys: self.keys.share()?,
        })
    }

    // The records with the key at its id.
    fn with_key(&self, alloc: Global, key: Shared<KeyRecord>) -> Result<Records, NoMemory>
        ensures { IfOk result (λ records. records ≡ with_security self.now (AddKey key)) }
    {
        let id = key.get().id.copy(alloc)?;
        Ok(Records {
            users: self.users.share()?,
            roles: self.roles.share()?,
            keys: self.keys.with(alloc, id, key)?,
        })
    }

    // The records with the keys of the ids invalidated, one after the other.
    fn with_invalidated(&self, alloc: Global, ids: &[Str]) -> Result<Records, NoMemory>
        ensures { IfOk result (λ records. records ≡ with_security self.now (Invalidate ids.now)) }
    {
        let mut records = self.share()?;
        for id in ids {
            records = records.with_one_invalidated(alloc, id.text())?;
        }
        Ok(records)
    }

    // The records with the key of the id invalidated, if it stands.
    fn with_one_invalidated(&self, alloc: Global, id: &str) -> Result<Records, NoMemory>
        ensures { IfOk result (λ records. records ≡ with_security self.now (Invalidate (id.now ∷ []))) }
    {
        match self.keys.get(id) {
            Some(kept) => {
                let kept = kept.get().invalidated(alloc)?;
                self.with_key(alloc, Shared::new(alloc, kept)?)
            }
            None => self.share(),
        }
    }
}
