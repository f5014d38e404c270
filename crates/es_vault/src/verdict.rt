//! What the state says of a change.
ghost use Rattle.std.specs.Prelude.{◌≡◌};
ghost use Rattle.es_vault.specs.Changes as verdict;
ghost use Rattle.es_vault.specs.Lent.{verdict_as, change_as};

use es_catalog::DocChange;
use es_records::SecurityChange;
use es_reply::Reply;

/// A change that is accepted.
#[derive(Drop)]
pub enum Change {
    Security(SecurityChange),
    Doc(DocChange),
}

/// What the state says of a change.
#[derive(Drop)]
pub enum Verdict {
    /// It is refused with this reply.
    Refuses(Reply),
    /// It is accepted, and this is the reply.
    Accepts(Reply, Change),
    /// It would be accepted, but nothing was drawn for it.
    Undrawn,
}

/// What is refused.
pub fn refuses(reply: Reply) -> Verdict
    ensures { verdict_as result ≡ verdict.refuses reply }
{
    Verdict::Refuses(reply)
}

/// What is accepted.
pub fn accepts(reply: Reply, change: Change) -> Verdict
    ensures { verdict_as result ≡ verdict.accepts reply (change_as change) }
{
    Verdict::Accepts(reply, change)
}
