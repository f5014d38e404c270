//! Lists whose length is known before their items are.
ghost use Rattle.std.specs.Prelude.{◌≡◌, [], IfOk};

use es_base::{NoMemory, Seq};
use std::alloc::Global;

/// No items, with room for exactly so many.
pub fn room_for<T: Drop>(alloc: Global, count: usize) -> Result<Seq<T>, NoMemory>
    ensures { IfOk result (λ seq. seq ≡ []) }
{
    Ok(Seq::from_vec(Vec::with_capacity(alloc, count)?))
}
