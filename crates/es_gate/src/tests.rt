//! Threads add numbers to one log behind a gate.
ghost use Rattle.std.specs.Prelude.{◌≡◌, ◌+◌, ◌<◌, ◌≤◌, ◌++◌, ◌∷◌, [], List, length, vec_len, IfSome, MatchBool};
ghost use mathlib.Core.List.{IsPrefix};
ghost use Rattle.es_gate.specs.Gates.{IsPassOf, seen, found, added, parts};

use crate::{Gate, Pass, Stands, Unmade};
use std::alloc::Global;
use std::marker::Brand;
use std::sync::Wait;
use std::sync::ledger::{Blank, Ledger};
use std::test::Fail;
use std::thread::{Threads, join};

#[derive(Drop)]
struct Log {
    items: Vec<u64>,
}

impl Stands for Log {
    type Entry = u64;

    ghost entries = { λ l. l.items.items };

    fn length(&self) -> u64 {
        self.items.len() as u64
    }
}

/// Adds a number to all that was there, and says whether there was memory.
fn add_one<G: Ledger, R: Wait>(rt: &R, gate: &Gate<Log, G>, pass: &mut Pass<Log, G>, x: u64) -> bool
    requires pass { IsPassOf (λ l. l.items.items) gate.now pass.old }
    ensures pass { IsPassOf (λ l. l.items.items) gate.now pass.new }
    ensures parts { parts pass.new ≡ parts pass.old }
    ensures seen { (between : List _) × (IsPrefix (seen pass.old) between × (found pass.new ≡ found pass.old ++ length between ∷ []) × MatchBool result (seen pass.new ≡ between ++ x ∷ []) (seen pass.new ≡ between)) }
    ensures added { MatchBool result (added pass.new ≡ added pass.old + 1) (added pass.new ≡ added pass.old) }
{
    let mut turn = gate.take_turn(rt, pass);
    match turn.value().items.push(x) {
        Ok(()) => {
            turn.append();
            turn.leave();
            true
        }
        Err(_) => {
            turn.leave();
            false
        }
    }
}

/// Adds the numbers below `count` for which there is memory, in a turn each, and says how many these were.
fn add_all<G: Ledger, R: Wait>(
    rt: &R,
    gate: &Gate<Log, G>,
    mut pass: Pass<Log, G>,
    count: u64,
) -> (Pass<Log, G>, u64)
    requires pass { IsPassOf (λ l. l.items.items) gate.now pass }
    requires none { added pass ≡ 0 }
    ensures pass { IsPassOf (λ l. l.items.items) gate.now result.0 }
    ensures parts { parts result.0 ≡ parts pass }
    ensures added { added result.0 ≡ result.1 }
{
    let mut done = 0;
    for i in 0..count {
        if add_one(rt, gate, &mut pass, i) {
            done += 1;
        }
    }
    (pass, done)
}

/// Two threads add `count` numbers each, and the log comes back.
fn add_both<G: Ledger + Send + Sync, R: Threads + Wait + Sync>(
    rt: &R,
    alloc: Global,
    blank: Blank,
    count: u64,
) -> Option<(Log, u64, u64)>
    requires name { blank.name ≡ G.name }
    requires parts { (blank.parts ≡ G.parts) × (G.parts ≡ 2) }
    ensures { IfSome result (λ r. vec_len r.0.items ≡ r.1 + r.2) }
{
    let (book, share) = blank.open::<G>();
    let log = Log {
        items: Vec::new(alloc),
    };
    let Ok((gate, mut pass)) = Gate::new(alloc, log, book, share) else {
        return None;
    };
    let other = gate.split(&mut pass);
    let shared = &gate;
    let ((mut one, a), (two, b)) = join(
        rt,
        || -> (Pass<Log, G>, u64)
            requires { IsPassOf (λ l. l.items.items) shared.now pass × (parts pass ≡ 1) × (added pass ≡ 0) }
            ensures { IsPassOf (λ l. l.items.items) shared.entry.now result.0 × (parts result.0 ≡ 1) × (added result.0 ≡ result.1) }
        { add_all(rt, shared, pass, count) },
        || -> (Pass<Log, G>, u64)
            requires { IsPassOf (λ l. l.items.items) shared.now other × (parts other ≡ 1) × (added other ≡ 0) }
            ensures { IsPassOf (λ l. l.items.items) shared.entry.now result.0 × (parts result.0 ≡ 1) × (added result.0 ≡ result.1) }
        { add_all(rt, shared, other, count) },
    );
    gate.join(&mut one, two);
    Some((gate.close(rt, one), a, b))
}

fn both<R: Threads + Wait + Sync>(rt: &R, alloc: Global, count: u64) -> Option<(Log, u64, u64)> {
    add_both::<Brand, R>(rt, alloc, Blank::new(2), count)
}

#[test]
fn two_threads_add_to_one_list(rt: HostRuntime) -> Result<(), Fail> {
    let Some((log, a, b)) = both(&rt, rt.alloc(), 2000) else {
        panic!(rt; "no memory")
    };
    assert_eq!(rt; a, 2000);
    assert_eq!(rt; b, 2000);
    assert_eq!(rt; log.items.len(), 4000);
    let mut next = [0, 0];
    for &x in &log.items {
        let from = if x == next[0] { 0 } else { 1 };
        assert_eq!(rt; x, next[from]);
        next[from] = x.wrapping_add(1);
    }
    Ok(())
}

/// Makes a gate and closes it, or takes the log back where no memory is left for a gate.
fn opened<G: Ledger, R: Wait>(rt: &R, alloc: Global, log: Log, blank: Blank) -> Log
    requires name { blank.name ≡ G.name }
    requires parts { (blank.parts ≡ G.parts) × (0 < G.parts) }
    ensures { vec_len result.items ≡ vec_len log.items }
{
    let (book, share) = blank.open::<G>();
    match Gate::new(alloc, log, book, share) {
        Ok((gate, pass)) => gate.close(rt, pass),
        Err(Unmade::NoMemory(log)) => log,
    }
}

fn kept<R: Wait>(rt: &R, alloc: Global, log: Log) -> Log {
    opened::<Brand, R>(rt, alloc, log, Blank::new(1))
}

#[test]
fn the_value_comes_back(rt: HostRuntime) -> Result<(), Fail> {
    let mut items = Vec::new(rt.alloc());
    items.push(5)?;
    items.push(7)?;
    let log = kept(&rt, rt.alloc(), Log { items });
    assert_eq!(rt; log.items.as_slice(), [5, 7].as_slice());
    Ok(())
}
