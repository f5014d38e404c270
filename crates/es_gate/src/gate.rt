//! The gate and its passes.
ghost use Rattle.std.specs.Prelude.{◌≡◌};

use crate::stands::Stands;
use crate::tickets::{GateSeat, GateTable};
use std::sync::ledger::{Ledger, Share};

mod lending;
mod passes;
mod taking;
mod turn;
mod waiting;

pub use passes::Unmade;
pub use turn::Turn;

/// A lock with tickets round a value that stands for a list of entries. Its counted list is the list for which the value
/// stood at first, followed by the entries that turns have added. Threads take turns at the value, each with a pass.
#[derive(Drop)]
pub struct Gate<V: Stands, G: Ledger> {
    table: GateTable<V, G>,
    ghost sized: { (table.shared.table_id.words ≡ 20) × (table.shared.table_id.slots ≡ 1) },
}

/// The right to take turns at one gate, and what its holder knows of it: the list that it has seen, with which the
/// counted list begins; how many entries it has added; for each of its turns the length of the counted list as the turn
/// began; and how many parts of the gate's ledger it has. It has no bytes.
#[derive(Drop)]
pub struct Pass<V: Stands, G: Ledger> {
    seat: GateSeat<V, G>,
    share: Share<G>,
}
