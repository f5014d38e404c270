//! Who calls.
ghost use Rattle.std.specs.Prelude.{◌≡◌, ◌&&◌, not, bytes_eq, IfOk, IfSome, None, if◌then◌else◌};
ghost use Rattle.std.specs.Option.{option_copied};
ghost use Rattle.std.specs.FinMap as map;
ghost use Rattle.es_cred.specs.Digest.{digest_of};
ghost use Rattle.es_cred.specs.Names.{is_secret};
ghost use Rattle.es_keys.specs.Keys.{is_expired};
ghost use Rattle.es_records.specs.Records.{who, caller_of, known_user, known_key, target_of};
ghost use Rattle.es_records.specs.Halves.{IsOf};
ghost use Rattle.es_records.specs.Found.{key_by};

use crate::records::Records;
use es_base::{NoMemory, Shared};
use es_cred::{Credentials, Hash32, UserRecord, digest, is_secret, same};
use es_keys::{Caller, KeyRecord, Subject, Target, expired};

impl Records {
    /// Who sends a request with these credentials at the moment (milliseconds since 1970), and as whom. Users and keys are
    /// shared and not copied. A secret that can't be one has no digest made of it; for any other one digest is made, whether
    /// or not a user of the name or a key of the id stands.
    #[tactic(auto, unfolding(crate::specs::Records::who))]
    pub fn who(
        &self,
        credentials: &Credentials,
        run_as: Option<&str>,
        moment: u64,
    ) -> Result<Option<Subject>, NoMemory>
        ensures who { IfOk result (λ found. found ≡ who self.now credentials.now (option_copied run_as.entry) moment) }
        ensures is_of { IfOk result (λ found. IfSome found (λ subject. IsOf self.now subject.caller)) }
    {
        // Each key stands at its own id.
        let _keys = &self.keys;
        match self.caller_of(credentials, moment)? {
            Some(caller) => Ok(Some(Subject {
                caller,
                target: self.target_of(run_as)?,
            })),
            None => Ok(None),
        }
    }

    // The caller, whoever it acts as.
    #[tactic(auto, unfolding(crate::specs::Records::caller_of))]
    fn caller_of(&self, credentials: &Credentials, moment: u64) -> Result<Option<Caller>, NoMemory>
        ensures { IfOk result (λ found. found ≡ caller_of self.now credentials.now moment) }
    {
        match credentials {
            Credentials::User { name, secret } => self.user_of(name.text(), secret.text()),
            Credentials::Key { id, secret } => self.key_of(id.text(), secret.text(), moment),
            Credentials::Absent | Credentials::Malformed => Ok(None),
        }
    }

    // The user of this name and secret.
    fn user_of(&self, name: &str, secret: &str) -> Result<Option<Caller>, NoMemory>
        ensures { IfOk result (λ found. found ≡ (if is_secret secret.now then known_user (digest_of name.now secret.now) (map.get self.now.users name.now) else None)) }
    {
        if !is_secret(secret) {
            return Ok(None);
        }
        let digest = digest(name, secret);
        known_user(&digest, self.users.get(name))
    }

    // The key of this id and secret, if it may be used at the moment. It stands at its own id, so that the digest that is
    // made before the look-up is the one that it would have.
    fn key_of(&self, id: &str, secret: &str, moment: u64) -> Result<Option<Caller>, NoMemory>
        ensures { IfOk result (λ found. found ≡ (if is_secret secret.now then known_key secret.now moment (map.get self.now.keys id.now) else None)) }
    {
        if !is_secret(secret) {
            return Ok(None);
        }
        let digest = digest(id, secret);
        known_key(&digest, moment, self.keys.get(id))
    }

    // As whom a caller acts that names this target, or none.
    fn target_of(&self, run_as: Option<&str>) -> Result<Target, NoMemory>
        ensures { IfOk result (λ target. target ≡ target_of self.now (option_copied run_as.entry)) }
    {
        let Some(name) = run_as else {
            return Ok(Target::Own);
        };
        match self.users.get(name) {
            Some(user) => Ok(Target::As(user.share()?)),
            None => Ok(Target::Unknown),
        }
    }
}

// The user, if the digest is the user's.
fn known_user(
    digest: &Hash32,
    user: Option<&Shared<UserRecord>>,
) -> Result<Option<Caller>, NoMemory>
    ensures { IfOk result (λ found. found ≡ known_user digest.now (option_copied user.entry)) }
{
    match user {
        Some(user) if same(digest, &user.get().digest) => Ok(Some(Caller::User(user.share()?))),
        _ => Ok(None),
    }
}

// The key, if the digest is the key's, it isn't invalidated, and the moment isn't at or past its expiry.
fn known_key(
    digest: &Hash32,
    moment: u64,
    key: Option<&Shared<KeyRecord>>,
) -> Result<Option<Caller>, NoMemory>
    ensures { IfOk result (λ found. found ≡ key_by digest.now moment (option_copied key.entry)) }
{
    match key {
        Some(key) if is_good(digest, key.get(), moment) => Ok(Some(Caller::Key(key.share()?))),
        _ => Ok(None),
    }
}

fn is_good(digest: &Hash32, kept: &KeyRecord, moment: u64) -> bool
    ensures { result ≡ (bytes_eq digest.now kept.now.digest && (not kept.now.invalidated && not (is_expired kept.now moment))) }
{
    same(digest, &kept.digest) && !kept.invalidated && !expired(kept, moment)
}
