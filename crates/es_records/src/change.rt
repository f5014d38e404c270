//! Changes of users, roles and keys.
ghost use Rattle.std.specs.Prelude.{◌≡◌, bytes_eq};
ghost use Rattle.std.specs.List.{list_any};
ghost use Rattle.es_records.specs.Changes.{drops, has_role, is_names};

use es_base::{Shared, Str, Strs};
use es_compose::RolePart;
use es_cred::UserRecord;
use es_keys::{KeyRecord, RoleKey};

/// One change of users, roles or keys, or of the cache of composed roles.
#[derive(Drop)]
pub enum SecurityChange {
    /// A role of this name with this descriptor, in place of the one that it had.
    PutRole { name: Str, role: Shared<RolePart> },
    /// The role of this name goes.
    DeleteRole { name: Str },
    /// A user, in place of the one of its name.
    PutUser(Shared<UserRecord>),
    /// The user of this name goes.
    DeleteUser { name: Str },
    /// A key that was made.
    AddKey(Shared<KeyRecord>),
    /// The keys of these ids are invalidated.
    Invalidate { ids: Strs },
    /// The composed roles of all users whose roles have one of these names are dropped from caches, or those of every user.
    ClearCache { names: Strs, every: bool },
}

/// Whether the change drops the composed role of this half from a cache. It takes no memory.
#[tactic(auto, unfolding(crate::specs::Changes::drops))]
pub fn drops(change: &SecurityChange, key: &RoleKey) -> bool
    ensures { result ≡ drops change.now key.now }
{
    match change {
        SecurityChange::PutRole { name, .. } | SecurityChange::DeleteRole { name } => {
            has_role(key, name.text())
        }
        SecurityChange::PutUser(_)
        | SecurityChange::DeleteUser { .. }
        | SecurityChange::AddKey(_)
        | SecurityChange::Invalidate { .. } => false,
        SecurityChange::ClearCache { names, every } => {
            if *every {
                is_names(key)
            } else {
                has_one_of(key, names.as_slice())
            }
        }
    }
}

// Whether the half is that of a user one of whose roles has the name.
fn has_role(key: &RoleKey, role: &str) -> bool
    ensures { result ≡ has_role key.now role.now }
{
    match key {
        RoleKey::Names(names) => is_among(names.get().as_slice(), role),
        RoleKey::Assigned(_) | RoleKey::Limits(_) => false,
    }
}

fn is_among(names: &[Str], role: &str) -> bool
    ensures { result ≡ list_any (λ name. bytes_eq name role.now) names.now }
{
    names.iter().any(|name| name.text() == role)
}

// Whether the half is that of a user.
fn is_names(key: &RoleKey) -> bool
    ensures { result ≡ is_names key.now }
{
    match key {
        RoleKey::Names(_) => true,
        RoleKey::Assigned(_) | RoleKey::Limits(_) => false,
    }
}

// Whether the half is that of a user one of whose roles has one of the names.
fn has_one_of(key: &RoleKey, names: &[Str]) -> bool
    ensures { result ≡ list_any (has_role key.now) names.now }
{
    names.iter().any(|name| has_role(key, name.text()))
}
