//! API keys, and who a request comes from.
ghost use Rattle.std.specs.Prelude.{◌≡◌, ◌↔◌, IfOk, IsTrue};
ghost use Rattle.es_keys.specs.Keys.{invalidated};

use es_base::{Copied, NoMemory, Seq, Shared, Str, Strs};
use es_compose::RolePart;
use es_cred::{Hash32, UserRecord};
use es_tree::{Person, Tree};
use std::alloc::Global;

/// A descriptor that was made ready, and its name. Contracts see the name and the descriptor.
#[derive(Drop)]
pub struct NamedPart {
    pub name: Str,
    pub part: Shared<RolePart>,
}

impl NamedPart {
    /// The same descriptor under an equal name. The descriptor is shared and not copied.
    pub fn share(&self, alloc: Global) -> Result<NamedPart, NoMemory>
        ensures { IfOk result (λ share. share ≡ self.now) }
    {
        Ok(NamedPart {
            name: self.name.copy(alloc)?,
            part: self.part.share()?,
        })
    }
}

impl Copied for NamedPart {
    fn copied(&self, alloc: Global) -> Result<NamedPart, NoMemory> {
        self.share(alloc)
    }
}

/// Descriptors with their names, in order.
pub type NamedDescriptors = Seq<NamedPart>;

/// What is kept of an API key: of its secret only the digest.
#[derive(Drop)]
pub struct KeyRecord {
    pub id: Str,
    pub name: Str,
    /// The digest of the key's id and secret.
    pub digest: Hash32,
    /// Who acted when the key was made, as it was then: a user, or the owner of the key that made it.
    pub owner: Person,
    /// When it was made, in milliseconds since 1970.
    pub made: u64,
    /// When it expires, in milliseconds since 1970; never, where it is absent.
    pub expires: Option<u64>,
    pub invalidated: bool,
    /// The descriptors that it was given; none, where it does what its owner could when it was made.
    pub assigned: NamedDescriptors,
    /// What limits the key: the descriptors that the roles of the user who acted had when the key was made; of a key made
    /// by a key, that key's own limits.
    pub limits: NamedDescriptors,
    /// What its owner noted of it.
    pub metadata: Tree,
}

impl KeyRecord {
    /// The same key, from now on invalidated. Its descriptors are shared and not copied.
    pub fn invalidated(&self, alloc: Global) -> Result<KeyRecord, NoMemory>
        ensures { IfOk result (λ kept. kept ≡ invalidated self.now) }
    {
        Ok(KeyRecord {
            id: self.id.copy(alloc)?,
            name: self.name.copy(alloc)?,
            digest: self.digest,
            owner: self.owner.copy(alloc)?,
            made: self.made,
            expires: self.expires,
            invalidated: true,
            assigned: self.assigned.copy(alloc)?,
            limits: self.limits.copy(alloc)?,
            metadata: self.metadata.copy(alloc)?,
        })
    }
}

/// What a person asks for who wants a key.
#[derive(Drop)]
pub struct NewKey {
    pub name: Str,
    /// How long the key lasts, in milliseconds; for ever, where it is absent.
    pub expiration: Option<u64>,
    pub assigned: NamedDescriptors,
    pub metadata: Tree,
}

/// Who sent a request.
#[derive(Drop)]
pub enum Caller {
    /// A user.
    User(Shared<UserRecord>),
    /// The holder of an API key.
    Key(Shared<KeyRecord>),
}

/// As whom a caller acts.
#[derive(Drop)]
pub enum Target {
    /// As itself.
    Own,
    /// As this user.
    As(Shared<UserRecord>),
    /// As a user that there isn't.
    Unknown,
}

/// Who sent a request, and as whom.
#[derive(Drop)]
pub struct Subject {
    pub caller: Caller,
    pub target: Target,
}

impl Caller {
    /// The same caller. Its record is shared and not copied.
    pub fn share(&self) -> Result<Caller, NoMemory>
        ensures { IfOk result (λ share. share ≡ self.now) }
    {
        Ok(match self {
            Caller::User(user) => Caller::User(user.share()?),
            Caller::Key(kept) => Caller::Key(kept.share()?),
        })
    }
}

impl Target {
    /// The same target. A user's record is shared and not copied.
    pub fn share(&self) -> Result<Target, NoMemory>
        ensures { IfOk result (λ share. share ≡ self.now) }
    {
        Ok(match self {
            Target::Own => Target::Own,
            Target::As(user) => Target::As(user.share()?),
            Target::Unknown => Target::Unknown,
        })
    }
}

impl Subject {
    /// The same subject. Records are shared and not copied.
    pub fn share(&self) -> Result<Subject, NoMemory>
        ensures { IfOk result (λ share. share ≡ self.now) }
    {
        Ok(Subject {
            caller: self.caller.share()?,
            target: self.target.share()?,
        })
    }
}

/// The name of a half of a decision.
#[derive(Drop)]
pub enum RoleKey {
    /// The roles of these names, in the order of their bytes.
    Names(Shared<Strs>),
    /// The assigned descriptors of the key of this id.
    Assigned(Shared<Str>),
    /// The limits of the key of this id.
    Limits(Shared<Str>),
}

impl RoleKey {
    /// The same name of a half. Its texts are shared and not copied.
    pub fn share(&self) -> Result<RoleKey, NoMemory>
        ensures { IfOk result (λ share. share ≡ self.now) }
    {
        Ok(match self {
            RoleKey::Names(names) => RoleKey::Names(names.share()?),
            RoleKey::Assigned(id) => RoleKey::Assigned(id.share()?),
            RoleKey::Limits(id) => RoleKey::Limits(id.share()?),
        })
    }

    /// Whether both name the same half: they are of the same kind and have the same texts. It takes no memory.
    pub fn equals(&self, other: &RoleKey) -> bool
        ensures { IsTrue result ↔ (self.now ≡ other.now) }
    {
        match self {
            RoleKey::Names(names) => match other {
                RoleKey::Names(others) => {
                    are_same(names.get().as_slice(), others.get().as_slice())
                }
                _ => false,
            },
            RoleKey::Assigned(id) => match other {
                RoleKey::Assigned(other) => id.get().text() == other.get().text(),
                _ => false,
            },
            RoleKey::Limits(id) => match other {
                RoleKey::Limits(other) => id.get().text() == other.get().text(),
                _ => false,
            },
        }
    }
}

fn are_same(names: &[Str], others: &[Str]) -> bool
    ensures { IsTrue result ↔ (names.now ≡ others.now) }
{
    if names.len() != others.len() {
        return false;
    }
    for (at, name) in names.iter().enumerate() {
        let other = &others[at];
        if name.text() != other.text() {
            return false;
        }
    }
    true
}
