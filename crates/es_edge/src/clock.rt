//! A clock in memory.
ghost use Rattle.std.specs.Prelude.{Some};

use crate::Clock;

/// A clock that stands.
#[derive(Clone, Copy, Debug, PartialEq, Eq)]
pub struct FixedClock {
    /// Milliseconds since 1970.
    pub moment: u64,
}

impl Clock for FixedClock {
    ghost moment = { λ clock. Some clock.moment };

    fn now(&self) -> u64 {
        self.moment
    }
}
