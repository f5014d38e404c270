//! A counter behind a gate. It stands for a list of as many zeros.
ghost use Rattle.std.specs.Prelude.{◌≡◌, replicate};
ghost use Rattle.es_gate.specs.Gates.{IsPassOf, parts};

use es_gate::{Gate, Pass, Stands};
use std::sync::Wait;
use std::sync::ledger::Ledger;

#[derive(Drop)]
pub struct Counter {
    pub count: u64,
}

impl Stands for Counter {
    type Entry = u64;

    ghost entries = { λ c. replicate c.count 0 };

    fn length(&self) -> u64 {
        self.count
    }
}

/// Counts one more in a turn of its own, unless the greatest number was reached.
pub fn count_one<G: Ledger, R: Wait>(rt: &R, gate: &Gate<Counter, G>, pass: &mut Pass<Counter, G>)
    requires pass { IsPassOf (λ c. replicate c.count 0) gate.now pass.old }
    ensures pass { IsPassOf (λ c. replicate c.count 0) gate.now pass.new }
    ensures parts { parts pass.new ≡ parts pass.old }
{
    let mut turn = gate.take_turn(rt, pass);
    let counter = turn.value();
    if counter.count < u64::MAX {
        counter.count += 1;
        turn.append();
        turn.leave();
    } else {
        turn.leave();
    }
}
