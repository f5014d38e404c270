//! A turn at the gate.
ghost use Rattle.std.specs.Prelude.{◌≡◌};
ghost use Rattle.es_gate.specs.Gates.{IsPassOf, IsTurnOf, Begins, Adds, Ends, seen};
ghost use Rattle.es_gate.specs.Passes.{StandsFor, HasGrown, IsSameValue};

use super::taking::{begin_turn, count_entry, end_turn};
use super::{Gate, Pass};
use crate::stands::Stands;
use crate::tickets::Held;
use std::sync::Wait;
use std::sync::ledger::Ledger;

/// The value, while it is a pass's turn. It can't be dropped: [`Turn::leave`] ends it.
pub struct Turn<'a, V: Stands, G: Ledger> {
    pub(crate) pass: &'a mut Pass<V, G>,
    pub(crate) gate: &'a Gate<V, G>,
    pub(crate) held: Option<Held<V, G>>,
}

impl<V: Stands, G: Ledger> Gate<V, G> {
    /// Waits until it is the pass's turn, behind all who asked before. The value then stands for the counted list, which
    /// begins with what the pass had seen and is what it has seen from now on. It takes no memory.
    pub fn take_turn<'a, R: Wait>(&'a self, rt: &R, pass: &'a mut Pass<V, G>) -> Turn<'a, V, G>
        requires pass { IsPassOf V.entries self.now pass.old }
        ensures same_pass { result.pass.ghost_name ≡ pass.entry.ghost_name }
        ensures gate { result.gate.now ≡ self.now }
        ensures turn { IsTurnOf V.entries self.now result.pass.now result.held }
        ensures begins { Begins V.entries pass.old result.pass.now result.held }
    {
        let held = begin_turn(rt, &self.table, &mut pass.seat);
        Turn {
            pass,
            gate: self,
            held,
        }
    }
}

impl<'a, V: Stands, G: Ledger> Turn<'a, V, G> {
    /// Counts one more entry, for which the value stands already. The counted list ends with it.
    pub fn append(&mut self)
        requires turn { IsTurnOf V.entries self.old.gate.now self.old.pass.now self.old.held }
        requires grown { HasGrown V.entries self.old.pass.now.seat self.old.held }
        ensures same_pass { self.new.pass.ghost_name ≡ self.old.pass.ghost_name }
        ensures gate { self.new.gate.now ≡ self.old.gate.now }
        ensures turn { IsTurnOf V.entries self.old.gate.now self.new.pass.now self.new.held }
        ensures value { IsSameValue V.entries self.old.held self.new.held }
        ensures adds { Adds V.entries self.old.pass.now self.new.pass.now self.new.held }
    {
        count_entry(self.gate, self.pass, &mut self.held);
    }

    /// Ends the turn, and serves the next. The value must stand for the counted list. The pass has then found one more
    /// length, that of the counted list as the turn began.
    pub fn leave(self)
        requires turn { IsTurnOf V.entries self.gate.now self.pass.now self.held }
        requires stands { StandsFor V.entries self.held (seen self.pass.now) }
        ensures pass { IsPassOf V.entries self.entry.gate.now self.exit.0.now }
        ensures ends { Ends V.entries self.entry.pass.now self.exit.0.now }
    {
        let Turn { pass, gate, held } = self;
        end_turn(&gate.table, &mut pass.seat, held);
    }
}
