//! Why the reading of a request stops.
ghost use Rattle.std.specs.Prelude.{◌≡◌};
ghost use Rattle.es_route.specs.declared.stop.Stop.TheVariants.{NoMemory as OutOfMemory};

use es_base::NoMemory;
use es_reply::Reply;

/// Why the reading of a request stops.
#[derive(Drop)]
pub enum Stop {
    /// The request is refused with this reply.
    Refused(Reply),
    /// Memory was refused.
    NoMemory,
}

impl From<NoMemory> for Stop {
    ghost from_gives = { λ _ stop. stop ≡ OutOfMemory };

    fn from(_refused: NoMemory) -> Stop {
        Stop::NoMemory
    }
}
