//! What the steps of a job do, and what they note.

/// What the next step of a job does.
#[derive(Clone, Copy, Debug, PartialEq, Eq)]
pub enum NextStep {
    /// It sees the place.
    Seen,
    /// It looks who asks, and which of the halves are cached.
    Look,
    /// It publishes a composed role.
    PublishRole,
    /// It makes the change.
    Change,
    /// None is due.
    Done,
}

/// What a step noted.
#[derive(Clone, Copy, Debug, PartialEq, Eq)]
pub enum Note {
    /// The place.
    Seen(u64),
    /// The place and the count of changes of users, roles and keys and of clearings: each half is cached.
    Hit(u64, u64),
    /// The same, where one isn't.
    Miss(u64, u64),
    /// The place: nobody known asks.
    Unknown(u64),
    /// A composed role was published.
    Published,
    /// It wasn't: the count at the look, and the count that stands.
    Stale(u64, u64),
    /// The place of an accepted change.
    Changed(u64),
    /// The place of a refusal.
    Refused(u64),
    /// The place of a journal that has no room.
    Full(u64),
}
