//! The parts of a turn, on a seat: its beginning, an entry, and its end.
ghost use Rattle.std.specs.Prelude.{◌≡◌, ◌+◌, ◌<◌};
ghost use Rattle.es_gate.specs.Passes.{HasTurn, StandsFor, BooksMore, HasGrown, Appends, IsIdle, BeginsTurn, Leaves};

use super::waiting::{await_ticket, draw_ticket, serve_next};
use super::{Gate, Pass};
use crate::stands::Stands;
use crate::steps::Add;
use crate::tickets::{GateSeat, GateTable, Held};
use std::sync::Wait;
use std::sync::ledger::Ledger;

// Waits for a turn, and takes what lies in the slot.
pub(crate) fn begin_turn<V: Stands, G: Ledger, R: Wait>(
    rt: &R,
    table: &GateTable<V, G>,
    seat: &mut GateSeat<V, G>,
) -> Option<Held<V, G>>
    requires { IsIdle table.now.shared.table_id seat.old }
    ensures { BeginsTurn V.entries table.now.shared.table_id seat.old seat.new result }
{
    let ticket = draw_ticket(rt, table, seat);
    await_ticket(rt, table, seat, ticket);
    table.shared.exchange(seat, 0, None)
}

// Counts the last entry for which the value in hand stands.
pub(crate) fn count_entry<V: Stands, G: Ledger>(
    gate: &Gate<V, G>,
    pass: &mut Pass<V, G>,
    held: &mut Option<Held<V, G>>,
)
    requires turn { HasTurn V.entries gate.now.table.shared.table_id pass.old.seat held.old }
    requires part { 0 < pass.old.share.parts }
    requires grown { HasGrown V.entries pass.old.seat held.old }
    ensures turn { HasTurn V.entries gate.now.table.shared.table_id pass.new.seat held.new }
    ensures books { BooksMore V.entries 1 held.old held.new }
    ensures seen { Appends V.entries pass.old.seat pass.new.seat held.new }
    ensures added { pass.new.share.amount ≡ pass.old.share.amount + 1 }
    ensures parts { pass.new.share.parts ≡ pass.old.share.parts }
{
    let Some(inside) = held else { unreachable!() };
    let before = inside.value.length() - 1;
    inside.book.add(&mut pass.share, 1);
    gate.table
        .shared
        .compare_exchange_with::<Add>(&mut pass.seat, 2, before, before + 1, held);
}

// Puts back what is in hand, and ends the turn.
pub(crate) fn end_turn<V: Stands, G: Ledger>(
    table: &GateTable<V, G>,
    seat: &mut GateSeat<V, G>,
    held: Option<Held<V, G>>,
)
    requires turn { HasTurn V.entries table.now.shared.table_id seat.old held }
    requires stands { StandsFor V.entries held seat.old.me.0.seen }
    ensures { Leaves table.now.shared.table_id seat.old seat.new }
{
    let empty = table.shared.exchange(seat, 0, held);
    let None = empty else { unreachable!() };
    serve_next(table, seat);
}
