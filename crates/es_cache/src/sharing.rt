//! Keys of which a cache gives equal ones out.
ghost use Rattle.std.specs.Prelude.{◌≡◌, IfOk};

use es_base::NoMemory;
use std::alloc::Global;

/// A key of which an equal one can be had, where memory lasts.
pub trait Share {
    /// An equal key.
    fn share(&self, alloc: Global) -> Result<Self, NoMemory>
    where
        Self: Sized,
        ensures { IfOk result (λ key. key ≡ self.now) };
}
