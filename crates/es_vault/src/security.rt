//! What the state says of a change of roles, users and keys.
ghost use Rattle.std.specs.Prelude.{◌≡◌, IfOk};
ghost use Rattle.std.specs.FinMap as map;
ghost use Rattle.std.specs.Option.{option_copied};
ghost use Rattle.es_records.specs.Keys.{invalidation};
ghost use Rattle.es_vault.specs.Changes.{role_put_over, role_deletion, user_put_over, user_deletion, invalidation_of, clearing};
ghost use Rattle.es_vault.specs.Lent.{verdict_as};

use crate::verdict::{Change, Verdict, accepts, refuses};
use es_base::{NoMemory, Shared, Str, Strs};
use es_compose::RolePart;
use es_cred::UserRecord;
use es_records::{Records, SecurityChange};
use es_reply::{acknowledged, gone, keys_invalidated, role_put, user_put};
use std::alloc::Global;

/// The put of a role, which says whether it is new.
pub fn put_role(
    alloc: Global,
    records: &Records,
    name: &Str,
    role: &Shared<RolePart>,
) -> Result<Verdict, NoMemory>
    ensures { IfOk result (λ verdict. verdict_as verdict ≡ role_put_over name.now role.now (map.get records.now.roles name.now)) }
{
    let reply = role_put(alloc, records.role(name.text()).is_none())?;
    let change = SecurityChange::PutRole {
        name: name.copy(alloc)?,
        role: role.share()?,
    };
    Ok(accepts(reply, Change::Security(change)))
}

/// The deletion of a role: 404 where none of the name stands.
pub fn delete_role(alloc: Global, records: &Records, name: &Str) -> Result<Verdict, NoMemory>
    ensures { IfOk result (λ verdict. verdict_as verdict ≡ role_deletion name.now (map.get records.now.roles name.now)) }
{
    match records.role(name.text()) {
        None => Ok(refuses(gone(alloc, false)?)),
        Some(_) => {
            let reply = gone(alloc, true)?;
            let change = SecurityChange::DeleteRole {
                name: name.copy(alloc)?,
            };
            Ok(accepts(reply, Change::Security(change)))
        }
    }
}

/// The put of a user, which says whether it is new.
pub fn put_user(
    alloc: Global,
    records: &Records,
    user: &Shared<UserRecord>,
) -> Result<Verdict, NoMemory>
    ensures { IfOk result (λ verdict. verdict_as verdict ≡ user_put_over user.now (map.get records.now.users user.now.person.username)) }
{
    let name = user.get().person.username.text();
    let reply = user_put(alloc, records.user(name).is_none())?;
    let change = SecurityChange::PutUser(user.share()?);
    Ok(accepts(reply, Change::Security(change)))
}

/// The deletion of a user: 404 where none of the name stands.
pub fn delete_user(alloc: Global, records: &Records, name: &Str) -> Result<Verdict, NoMemory>
    ensures { IfOk result (λ verdict. verdict_as verdict ≡ user_deletion name.now (map.get records.now.users name.now)) }
{
    match records.user(name.text()) {
        None => Ok(refuses(gone(alloc, false)?)),
        Some(_) => {
            let reply = gone(alloc, true)?;
            let change = SecurityChange::DeleteUser {
                name: name.copy(alloc)?,
            };
            Ok(accepts(reply, Change::Security(change)))
        }
    }
}

/// The invalidation of those of these keys, or of all, that belong to the owner, if one is named. It is accepted also
/// where it finds nothing.
pub fn invalidate(
    alloc: Global,
    records: &Records,
    ids: Option<&Strs>,
    owner: Option<&str>,
) -> Result<Verdict, NoMemory>
    ensures { IfOk result (λ verdict. verdict_as verdict ≡ invalidation_of (invalidation records.now (option_copied ids.entry) (option_copied owner.entry))) }
{
    let found = records.invalidation(alloc, ids, owner)?;
    let reply = keys_invalidated(alloc, found.newly.as_slice(), found.previously.as_slice())?;
    let change = SecurityChange::Invalidate { ids: found.newly };
    Ok(accepts(reply, Change::Security(change)))
}

/// The clearing of the cache of composed roles, which changes no role.
pub fn clear_cache(alloc: Global, names: &Strs, every: bool) -> Result<Verdict, NoMemory>
    ensures { IfOk result (λ verdict. verdict_as verdict ≡ clearing names.now every) }
{
    let reply = acknowledged(alloc)?;
    let change = SecurityChange::ClearCache {
        names: names.copy(alloc)?,
        every,
    };
    Ok(accepts(reply, Change::Security(change)))
}
