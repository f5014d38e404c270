//! How a seat waits until its ticket is served, and how the next ticket is served.
//!
//! A thread whose ticket isn't served looks again a few times, then yields its processor a few times, then sleeps in the
//! queue of its ticket. Whoever serves a ticket wakes that queue alone, and no queue where nobody sleeps.
//!
//! No wake-up is lost. All steps on the words have one order. A thread that is about to sleep reads its queue's number of
//! wakes, counts itself among the sleepers, and looks at the ticket that is served, in this order. Whoever serves its
//! ticket writes that, reads the number of sleepers, and where there are any counts a wake of the queue and wakes it.
//! If the thread looks behind that writing, it sees its ticket and doesn't sleep. Else it was counted before the sleepers
//! were read, so the wake is counted, behind the thread's read: it falls asleep before that and is woken, or it finds
//! another number of wakes and doesn't fall asleep. The number can't have come round to the same 32 bits, since until its
//! own ticket is done with each wake is for a ticket up to its own, and of those there are no more than seats.
ghost use Rattle.std.specs.Prelude.{◌≡◌, ◌<◌, ◌≤◌};
ghost use Rattle.es_gate.specs.Turns.{LiesBeside};
ghost use Rattle.es_gate.specs.Passes.{IsSeated, IsSameSeat, Draws, Enters, IsDone, Leaves};
ghost use Rattle.es_gate.specs.declared.tickets.Stage.TheVariants.{Idle, Waiting};

use crate::stands::Stands;
use crate::steps::{Draw, Leave, Look, Signal};
use crate::tickets::{GateSeat, GateTable};
use std::sync::Wait;
use std::sync::ledger::Ledger;
use std::{hint, thread};

// How often a thread looks again at once.
const SPINS: u64 = 30;

// How often it yields its processor after that.
const YIELDS: u64 = 30;

// How many queues of sleepers there are.
const QUEUES: u64 = 16;

// The word that counts the wakes of the ticket's queue.
fn queue_of(ticket: u64) -> usize
    ensures { (4 ≤ result) × (result < 20) }
{
    (ticket % QUEUES + 4) as usize
}

// Draws the next ticket. Where no number is left for it, it tries for ever.
pub(crate) fn draw_ticket<V: Stands, G: Ledger, R: Wait>(
    rt: &R,
    table: &GateTable<V, G>,
    seat: &mut GateSeat<V, G>,
) -> u64
    requires seated { IsSeated table.now.shared.table_id seat.old }
    requires idle { seat.old.me.0.stage ≡ Idle }
    ensures { Draws seat.old result seat.new }
{
    let shared = &table.shared;
    let mut next = shared.peek(0);
    for _ in rt.forever() {
        if next == u64::MAX {
            thread::yield_now();
            next = shared.peek(0);
        } else {
            let found = shared.compare_exchange::<Draw>(seat, 0, next, next + 1);
            if found == next {
                return found;
            }
            next = found;
        }
    }
    unreachable!()
}

// Waits until the seat's ticket is served.
pub(crate) fn await_ticket<V: Stands, G: Ledger, R: Wait>(
    rt: &R,
    table: &GateTable<V, G>,
    seat: &mut GateSeat<V, G>,
    ticket: u64,
)
    requires seated { IsSeated table.now.shared.table_id seat.old }
    requires waits { seat.old.me.0.stage ≡ Waiting ticket }
    ensures { Enters (LiesBeside V.entries) seat.old ticket seat.new }
{
    let mut round = 0;
    for _ in rt.forever() {
        if table.shared.load::<Look>(seat, 1) == ticket {
            return;
        }
        if round < SPINS {
            hint::spin_loop();
            round += 1;
        } else if round < SPINS + YIELDS {
            thread::yield_now();
            round += 1;
        } else {
            sleep(rt, table, seat, ticket);
        }
    }
    unreachable!()
}

// Sleeps until the ticket's queue is woken, or returns for no reason. It returns at once where the ticket is served.
fn sleep<V: Stands, G: Ledger, R: Wait>(
    rt: &R,
    table: &GateTable<V, G>,
    seat: &mut GateSeat<V, G>,
    ticket: u64,
)
    requires { IsSeated table.now.shared.table_id seat.old }
    ensures { IsSameSeat seat.old seat.new × (seat.new.me ≡ seat.old.me) }
{
    let shared = &table.shared;
    let queue = queue_of(ticket);
    let wakes = shared.peek(queue);
    shared.fetch_add::<Signal>(seat, 3, 1);
    if shared.peek(1) != ticket {
        shared.park(rt, queue, (wakes & 0xffff_ffff) as u32);
    }
    shared.fetch_sub::<Signal>(seat, 3, 1);
}

// Gives the slot back and serves the next ticket. It wakes that ticket's queue, unless nobody sleeps in any.
pub(crate) fn serve_next<V: Stands, G: Ledger>(table: &GateTable<V, G>, seat: &mut GateSeat<V, G>)
    requires { IsDone V.entries table.now.shared.table_id seat.old }
    ensures { Leaves table.now.shared.table_id seat.old seat.new }
{
    let shared = &table.shared;
    let served = shared.fetch_add::<Leave>(seat, 1, 1);
    if shared.peek(3) != 0 {
        let queue = queue_of(served.wrapping_add(1));
        shared.fetch_add::<Signal>(seat, queue, 1);
        shared.wake_all(queue);
    }
}
