//! What makes a gate, splits and joins its passes, and closes it.
ghost use Rattle.std.specs.Prelude.{◌≡◌, ◌+◌, ◌<◌, ◌≤◌, [], length, IfOk, IfErr};
ghost use mathlib.Core.List.{IsPrefix};
ghost use Rattle.es_gate.specs.Gates.{IsPassOf, opening_of, seen, found, added, parts};
ghost use Rattle.es_gate.specs.Passes.{IsSeated, Learns};
ghost use Rattle.es_gate.specs.Turns.{longer};
ghost use Rattle.es_gate.specs.declared.gate.passes.Unmade.TheVariants.{NoMemory};
ghost use Rattle.es_gate.specs.declared.tickets.Stage.TheVariants.{Idle};

use super::taking::begin_turn;
use super::{Gate, Pass};
use crate::stands::Stands;
use crate::steps::{JoinViews, Learn, SplitView};
use crate::tickets::{GateSeat, GateTable, Held};
use atomic_table::Refused;
use std::alloc::{AllocFailed, Global};
use std::snapshot::Snapshot;
use std::sync::Wait;
use std::sync::ledger::{Book, Ledger, Share};

/// Why no gate was made. The value comes back.
#[derive(Drop)]
pub enum Unmade<V> {
    /// Memory was refused.
    NoMemory(V),
}

fn value_of<V, G: Ledger>(held: Held<V, G>) -> V
    ensures { result ≡ held.value }
{
    let Held { value, book: _ } = held;
    value
}

// Sees the longer of what the seat has seen and what one had seen that was joined to it.
fn learn<V: Stands, G: Ledger>(table: &GateTable<V, G>, seat: &mut GateSeat<V, G>)
    requires { IsSeated table.now.shared.table_id seat.old × (seat.old.me.0.stage ≡ Idle) }
    ensures { Learns seat.old seat.new }
{
    table.shared.load::<Learn>(seat, 0);
}

impl<V: Stands, G: Ledger> Gate<V, G> {
    /// Makes a gate, and a pass with every part of its ledger, which has seen the list for which the value stands. It
    /// takes what `Blank::open` gives. Of a gate's calls this one alone takes memory.
    pub fn new(
        alloc: Global,
        value: V,
        book: Book<G>,
        share: Share<G>,
    ) -> Result<(Gate<V, G>, Pass<V, G>), Unmade<V>>
        requires book { book.total ≡ 0 }
        requires share { (share.parts ≡ G.parts) × (0 < share.parts) × (share.amount ≡ 0) }
        ensures pass { IfOk result (λ r. IsPassOf V.entries r.0 r.1) }
        ensures opening { IfOk result (λ r. opening_of V.entries r.0 ≡ V.entries value) }
        ensures seen { IfOk result (λ r. (seen r.1 ≡ V.entries value) × (found r.1 ≡ [])) }
        ensures share { IfOk result (λ r. (added r.1 ≡ 0) × (parts r.1 ≡ G.parts)) }
        ensures unmade { IfErr result (λ u. u ≡ NoMemory value) }
    {
        let count = value.length();
        let key = Snapshot::of(&value);
        let mut slots = Vec::new(alloc);
        if let Err(failed) = slots.push(Some(Held { value, book })) {
            let AllocFailed { value: held } = failed;
            slots.destroy_empty();
            return Err(Unmade::NoMemory(value_of(held.unwrap())));
        }
        let words = &[
            0, 0, count, 0, 0, 0, 0, 0, 0, 0, 0, 0, 0, 0, 0, 0, 0, 0, 0, 0,
        ];
        match GateTable::<V, G>::new(alloc, words, slots, &key) {
            Ok((table, seat)) => Ok((Gate { table }, Pass { seat, share })),
            Err(Refused { mut slots }) => {
                let held = slots.pop().unwrap();
                slots.destroy_empty();
                Err(Unmade::NoMemory(value_of(held.unwrap())))
            }
        }
    }

    /// Splits one part off a pass of two or more. The new pass has seen the same list, and has added and found nothing;
    /// the first keeps all else.
    pub fn split(&self, pass: &mut Pass<V, G>) -> Pass<V, G>
        requires pass { IsPassOf V.entries self.now pass.old }
        requires parts { 2 ≤ parts pass.old }
        ensures pass { IsPassOf V.entries self.now pass.new }
        ensures new { IsPassOf V.entries self.now result }
        ensures cut { (seen result ≡ seen pass.old) × (added result ≡ 0) × (found result ≡ []) × (parts result ≡ 1) }
        ensures rest { (seen pass.new ≡ seen pass.old) × (added pass.new ≡ added pass.old) × (found pass.new ≡ found pass.old) × (parts pass.new + 1 ≡ parts pass.old) }
    {
        let seat = self.table.shared.split_seat::<SplitView>(&mut pass.seat);
        let share = pass.share.split_off(1, 0);
        Pass { seat, share }
    }

    /// Takes the second pass into the first, which has then seen the longer of the two lists, with which both began, and
    /// has added what either had. What the second has found is lost.
    pub fn join(&self, pass: &mut Pass<V, G>, other: Pass<V, G>)
        requires pass { IsPassOf V.entries self.now pass.old }
        requires other { IsPassOf V.entries self.now other }
        ensures pass { IsPassOf V.entries self.now pass.new }
        ensures seen { seen pass.new ≡ longer (seen pass.old) (seen other) }
        ensures begins { IsPrefix (seen pass.old) (seen pass.new) × IsPrefix (seen other) (seen pass.new) }
        ensures rest { (added pass.new ≡ added pass.old + added other) × (parts pass.new ≡ parts pass.old + parts other) × (found pass.new ≡ found pass.old) }
    {
        let Pass { seat, share } = other;
        let shared = &self.table.shared;
        shared.join_seat::<JoinViews>(&mut pass.seat, seat);
        learn(&self.table, &mut pass.seat);
        pass.share.merge(share);
    }
}

impl<V: Stands + Drop, G: Ledger> Gate<V, G> {
    /// Takes a last turn, with the pass that has every part of the gate's ledger, and keeps the value. Its list is longer
    /// than the opening one by as many entries as the pass has added.
    pub fn close<R: Wait>(self, rt: &R, pass: Pass<V, G>) -> V
        requires pass { IsPassOf V.entries self pass }
        requires whole { parts pass ≡ G.parts }
        ensures begins { IsPrefix (seen pass) (V.entries result) }
        ensures longer { length (V.entries result) ≡ length (opening_of V.entries self) + added pass }
    {
        let Pass {
            mut seat,
            mut share,
        } = pass;
        let Gate { table } = self;
        let held = begin_turn(rt, &table, &mut seat).unwrap();
        drop(table);
        let Held { value, mut book } = held;
        book.audit(&mut share);
        value
    }
}
