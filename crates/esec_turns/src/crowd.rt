//! Threads that count at one gate.
ghost use Rattle.std.specs.Prelude.{◌≡◌, ◌+◌, ◌<◌, replicate};
ghost use Rattle.std.specs.Thread.{IsSync};
ghost use Rattle.es_gate.specs.Gates.{IsPassOf, parts};

use crate::counter::{Counter, count_one};
use es_gate::{Gate, Pass};
use std::alloc::Global;
use std::sync::Wait;
use std::sync::ledger::{Blank, Ledger};
use std::thread::{Threads, join};

/// Takes so many turns, and counts one more in each.
fn count_all<G: Ledger, R: Wait>(
    rt: &R,
    gate: &Gate<Counter, G>,
    mut pass: Pass<Counter, G>,
    turns: u64,
) -> Pass<Counter, G>
    requires pass { IsPassOf (λ c. replicate c.count 0) gate.now pass }
    ensures pass { IsPassOf (λ c. replicate c.count 0) gate.now result }
    ensures parts { parts result ≡ parts pass }
{
    for _ in 0..turns {
        count_one(rt, gate, &mut pass);
    }
    pass
}

/// The same in so many threads, each with a part of the pass.
fn count_beside<G: Ledger + Send + Sync, R: Threads + Wait + Sync>(
    rt: &R,
    gate: &Gate<Counter, G>,
    mut pass: Pass<Counter, G>,
    threads: u64,
    turns: u64,
) -> Pass<Counter, G>
    requires pass { IsPassOf (λ c. replicate c.count 0) gate.now pass }
    requires parts { parts pass ≡ threads }
    ensures pass { IsPassOf (λ c. replicate c.count 0) gate.now result }
    ensures parts { parts result ≡ threads }
{
    if threads <= 1 {
        return count_all(rt, gate, pass, turns);
    }
    let other = gate.split(&mut pass);
    let (mut one, rest) = join(
        rt,
        || -> Pass<Counter, G>
            requires { IsPassOf (λ c. replicate c.count 0) gate.now other × (parts other ≡ 1) }
            ensures { IsPassOf (λ c. replicate c.count 0) gate.entry.now result × (parts result ≡ 1) }
        { count_all(rt, gate, other, turns) },
        || -> Pass<Counter, G>
            requires { IsSync R.row × IsPassOf (λ c. replicate c.count 0) gate.now pass × (parts pass + 1 ≡ threads) × (0 < parts pass) }
            ensures { IsPassOf (λ c. replicate c.count 0) gate.entry.now result × (parts result + 1 ≡ threads) }
        { count_beside(rt, gate, pass, threads - 1, turns) },
    );
    gate.join(&mut one, rest);
    one
}

/// What the counter is at, once so many threads have taken so many turns each.
pub(crate) fn counted_by<G: Ledger + Send + Sync, R: Threads + Wait + Sync>(
    rt: &R,
    alloc: Global,
    blank: Blank,
    threads: u64,
    turns: u64,
) -> Option<u64>
    requires name { blank.name ≡ G.name }
    requires parts { (blank.parts ≡ G.parts) × (G.parts ≡ threads) × (0 < threads) }
{
    let (book, share) = blank.open::<G>();
    let Ok((gate, pass)) = Gate::new(alloc, Counter { count: 0 }, book, share) else {
        return None;
    };
    let all = count_beside(rt, &gate, pass, threads, turns);
    Some(gate.close(rt, all).count)
}
