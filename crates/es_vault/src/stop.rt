//! What stops a call before it is done.
ghost use Rattle.std.specs.Prelude.{◌≡◌};
ghost use Rattle.es_vault.specs.declared.stop.Stop.TheVariants.{NoMemory as RefusedMemory};

use es_base::NoMemory;
use es_reply::Reply;

/// Why a call isn't done.
#[derive(Drop)]
pub enum Stop {
    /// It is refused with this reply.
    Reply(Reply),
    /// Memory was refused.
    NoMemory,
}

impl From<NoMemory> for Stop {
    ghost from_gives = { λ _ stop. stop ≡ RefusedMemory };

    fn from(_refused: NoMemory) -> Stop {
        Stop::NoMemory
    }
}
