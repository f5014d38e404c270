//! What the state says of the creation of a key.
ghost use Rattle.std.specs.Prelude.{◌≡◌, ◌<◌, ◌≤◌, IfOk, IfSome};
ghost use Rattle.std.specs.Option.{option_copied};
ghost use Rattle.es_keys.specs.Keys.{key_record, secret_of};
ghost use Rattle.es_vault.specs.Changes.{key_creation, key_drawn, key_accepted, owner_of};
ghost use Rattle.es_vault.specs.Replayable.{last_moment};
ghost use Rattle.es_vault.specs.Lent.{verdict_as};

use crate::verdict::{Change, Verdict, accepts, refuses};
use es_base::{NoMemory, Shared};
use es_edge::Draw;
use es_keys::{KeyRecord, NamedDescriptors, NewKey, Subject, acting, encoded, make};
use es_records::{Records, SecurityChange, may_make};
use es_reply::{derived_key, key_created};
use es_tree::Person;
use std::alloc::Global;

/// The creation of a key by a subject at a moment (milliseconds since 1970), which would be the accepted change with this
/// number: 400 where a key that acts itself asks for more than nothing.
pub fn create_key(
    alloc: Global,
    records: &Records,
    subject: &Subject,
    asked: &NewKey,
    number: u64,
    moment: u64,
    draw: &Draw,
) -> Result<Verdict, NoMemory>
    requires moment { moment ≤ last_moment }
    requires duration { IfSome asked.now.expiration (λ duration. duration ≤ 1000000000000000) }
    requires number { number < 1000000000000 }
    ensures { IfOk result (λ verdict. verdict_as verdict ≡ key_creation records.now subject.now asked.now number moment draw.now) }
{
    if !may_make(subject, &asked.assigned) {
        return Ok(refuses(derived_key(alloc)?));
    }
    let limits = records.limits_for(alloc, subject)?;
    key_drawn(alloc, acting(subject), &limits, asked, number, moment, draw)
}

// The creation of a key for its owner with these limits, by what was drawn for it.
fn key_drawn(
    alloc: Global,
    owner: &Person,
    limits: &NamedDescriptors,
    asked: &NewKey,
    number: u64,
    moment: u64,
    draw: &Draw,
) -> Result<Verdict, NoMemory>
    requires moment { moment ≤ last_moment }
    requires duration { IfSome asked.now.expiration (λ duration. duration ≤ 1000000000000000) }
    requires number { number < 1000000000000 }
    ensures { IfOk result (λ verdict. verdict_as verdict ≡ key_drawn owner.now limits.now asked.now number moment draw.now) }
{
    match draw {
        Draw::NotDrawn | Draw::Failed => Ok(Verdict::Undrawn),
        Draw::Bytes(drawn) => {
            let (kept, secret) = make(alloc, owner, limits, asked, number, moment, drawn)?;
            key_accepted(alloc, kept, secret.text())
        }
    }
}

// A key that was made, and the reply that shows its secret.
fn key_accepted(alloc: Global, kept: KeyRecord, secret: &str) -> Result<Verdict, NoMemory>
    ensures { IfOk result (λ verdict. verdict_as verdict ≡ key_accepted kept secret.now) }
{
    let token = encoded(alloc, kept.id.text(), secret)?;
    let reply = key_created(
        alloc,
        kept.id.text(),
        kept.name.text(),
        secret,
        token.text(),
        kept.expires,
    )?;
    let change = SecurityChange::AddKey(Shared::new(alloc, kept)?);
    Ok(accepts(reply, Change::Security(change)))
}

/// The owner whose keys alone are meant, where the caller's own are.
pub fn owner_of(owner: bool, subject: &Subject) -> Option<&str>
    ensures { option_copied result ≡ owner_of owner subject.now }
{
    if owner {
        Some(acting(subject).username.text())
    } else {
        None
    }
}
