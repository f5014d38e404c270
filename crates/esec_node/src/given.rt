//! What a node is given by the command line.
ghost use Rattle.std.specs.Prelude.{◌≤◌};
ghost use Rattle.std.specs.Option.{ForSome};

use es_vault::Limits;

/// What the options say, each where it was given.
#[derive(Clone, Copy)]
pub struct Options<'a> {
    /// The secret of the user `elastic`: 1 to 128 characters from `!` to `~`.
    pub admin: Option<&'a str>,
    /// Versions of documents in a block: 1 to 1,024. It has no effect yet.
    pub block: Option<u64>,
    /// Entries of the journal, the opening included: 1 to 200,000.
    pub journal: Option<u64>,
    /// Composed roles in the cache: 1 to 512.
    pub role_cache: Option<u64>,
    /// Bits of role queries in the cache: 1 to 4,096. It has no effect yet.
    pub bit_cache: Option<u64>,
    ghost journal_within: { ForSome journal (λ n. (1 ≤ n) × (n ≤ 200000)) },
    ghost role_cache_within: { ForSome role_cache (λ n. (1 ≤ n) × (n ≤ 512)) },
}

/// What a node is given: the secret of its one user, and how much it may hold.
#[derive(Drop)]
pub struct Running<'a> {
    pub secret: &'a str,
    pub limits: Limits,
    ghost journal: { 1 ≤ limits.journal },
    ghost most: { limits.journal ≤ 200000 },
    ghost roles: { 1 ≤ limits.role_cache },
}

/// What the words of a command line ask for.
#[derive(Drop)]
pub enum Asked<'a> {
    /// The requests of the source are answered.
    Run(Running<'a>),
    /// The lines of the source are taken, a schedule.
    Drill(Running<'a>),
}
