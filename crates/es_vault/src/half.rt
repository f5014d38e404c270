//! The names of halves, as the keys of a cache.
ghost use Rattle.std.specs.Prelude.{◌≡◌};
ghost use Rattle.std.specs.Cmp.{partial_equiv_from_equiv};
ghost use Rattle.es_vault.specs.Keys.{same_key, fed_key};
ghost use Rattle.es_vault.specs.Same.{same_key_equiv, fed_alike};

use es_base::NoMemory;
use es_cache::Share;
use es_keys::RoleKey;
use std::alloc::Global;
use std::hash::{Hash, Hasher};
use std::marker::Model;

/// The name of a half. Contracts see the name.
#[derive(Drop)]
pub struct Half {
    key: RoleKey,
}

impl Model for Half {
    ghost use Rattle.es_keys.specs.declared.kinds.RoleKey.{RoleKey};
    ghost use Rattle.es_keys.specs.contracts.kinds.RoleKey.{the_row};

    ghost Value = { RoleKey };

    ghost coded = { the_row.coded };

    ghost view = { λ half. half.key };
}

impl PartialEq for Half {
    ghost eq = { same_key };

    ghost laws = { partial_equiv_from_equiv same_key_equiv };

    fn eq(&self, other: &Half) -> bool {
        self.key.equals(&other.key)
    }
}

impl Eq for Half {
    ghost laws = { same_key_equiv };
}

impl Hash for Half {
    ghost hash_input = { fed_key };

    ghost respects_eq = { fed_alike };

    fn hash<H: Hasher>(&self, state: &mut H) {
        match &self.key {
            RoleKey::Names(names) => {
                for name in names.get().as_slice() {
                    name.text().hash(state);
                }
            }
            RoleKey::Assigned(id) | RoleKey::Limits(id) => id.get().text().hash(state),
        }
    }
}

impl Share for Half {
    fn share(&self, _alloc: Global) -> Result<Half, NoMemory> {
        Ok(Half {
            key: self.key.share()?,
        })
    }
}

impl Half {
    /// The half of this name.
    pub fn of(key: RoleKey) -> Half
        ensures { result ≡ key }
    {
        Half { key }
    }

    /// The name.
    pub fn key(&self) -> &RoleKey
        ensures { result.now ≡ self.now }
    {
        &self.key
    }
}
