//! The table behind a gate. Word 0 is the next ticket, word 1 the ticket that is served, word 2 the number of entries.
//! Word 3 is the number of sleepers, and words 4 to 19 count the wakes of the queues in which they sleep.
//! Slot 0 has the value, beside the book that counts the entries added.
use crate::stands::Stands;
use atomic_table::{Seat, Table, TableRule};
use std::alloc::Global;
use std::collections::LinkedList;
use std::snapshot::Snapshot;
use std::sync::ledger::{Book, Ledger};

/// How far a seat is on its way through a turn.
pub enum Stage {
    /// It has no ticket.
    Idle,
    /// It has this ticket.
    Waiting(u64),
    /// It has this ticket and the slot, and found this many entries.
    Served(u64, u64),
    /// It was joined to another seat.
    Spent,
}

/// What a seat at the table knows. No value of it is made.
pub struct View<E> {
    pub stage: Stage,
    /// The list that it has seen, with which the counted list begins.
    pub seen: LinkedList<E>,
    /// The length of the counted list at the start of each of its turns.
    pub found: LinkedList<u64>,
    /// What a seat had seen that was joined to this one.
    pub heard: LinkedList<E>,
    /// How many entries the gate began with.
    pub opening: u64,
}

/// What lies in the slot: the value, and the book that counts the entries added.
#[derive(Drop)]
pub struct Held<V, G: Ledger> {
    pub value: V,
    pub book: Book<G>,
}

/// The rule of the table: who has a ticket, who has the slot, and which list is counted.
pub struct TicketRule;

impl<V: Stands, G: Ledger> TableRule<Option<Held<V, G>>, View<V::Entry>, Snapshot<V>>
    for TicketRule {
    ghost use Rattle.es_gate.specs.Turns.{Kept, LiesBeside, starting};

    ghost holds = { λ key. Kept (LiesBeside V.entries) (V.entries key.value) };

    ghost first = { λ key. starting (V.entries key.value) };
}

/// A table under the rule of tickets.
pub type GateTable<V, G> = Table<
    Option<Held<V, G>>,
    View<<V as Stands>::Entry>,
    Snapshot<V>,
    TicketRule,
    Global,
>;

/// A seat at such a table.
pub type GateSeat<V, G> = Seat<Option<Held<V, G>>, View<<V as Stands>::Entry>>;
