//! What gives links, one after another.
ghost use Rattle.std.specs.Prelude.{◌≡◌, true, false};

use crate::Link;

/// What a binding came to.
#[derive(Clone, Copy, Debug, PartialEq, Eq)]
pub enum Bound {
    Ok,
    /// The listener failed, and counted a fault.
    Failed,
}

/// What accepting came to.
#[derive(Drop)]
pub enum Accepted<L> {
    Link(L),
    /// No more links come.
    End,
    /// The listener failed, and counted a fault.
    Failed,
}

/// Links that come in.
pub trait Listener {
    ghost use Rattle.es_link.specs.Links.{IsFresh};
    ghost use Rattle.es_link.specs.Listens.{Listening, Binds, Accepts, IfLink};

    type L: Link;

    /// The listener as contracts see it.
    ghost listening: { Self → Listening };

    /// Whether the links that it will give are open and unused.
    ghost has_fresh: { Self → Type 0 };

    /// Binds it to an address: an IP address or the name of a host, a colon, and a port.
    fn bind(&mut self, address: &str) -> Bound
        requires { (listening self.old).is_bound ≡ false }
        ensures binds { Binds (listening self.old) (listening self.new) address.now result }
        ensures fresh { has_fresh self.old → has_fresh self.new };

    /// The next link.
    fn accept(&mut self) -> Accepted<Self::L>
        requires { (listening self.old).is_bound ≡ true }
        ensures accepts { Accepts (listening self.old) (listening self.new) result }
        ensures fresh { has_fresh self.old → has_fresh self.new }
        ensures link { has_fresh self.old → IfLink result (λ link. IsFresh (Self.L.input link) (Self.L.output link)) };
}
