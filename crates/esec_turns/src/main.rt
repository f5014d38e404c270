//! Times turns at one gate, run by hand: `esec_turns THREADS TURNS` lets so many threads take so many turns each at one
//! counter, and tells what was counted and the time.
#![tactic(auto)]

mod counter;
mod crowd;

use crowd::counted_by;
use std::alloc::Global;
use std::marker::Brand;
use std::process::ExitCode;
use std::rt::Clock;
use std::sync::Wait;
use std::sync::ledger::Blank;
use std::thread::Threads;
use std::time::Instant;
use std::{env, io};

fn main(rt: HostRuntime) -> ExitCode {
    match asked(&rt) {
        Ok(Some((threads, turns))) => match measure(&rt, rt.alloc(), threads, turns) {
            Ok(()) => ExitCode::from(0),
            Err(_) => ExitCode::from(1),
        },
        Ok(None) => ExitCode::from(2),
        Err(_) => ExitCode::from(1),
    }
}

/// The two numbers behind the program's name, both above 0. Without them it tells the usage.
fn asked(rt: &HostRuntime) -> io::Result<Option<(u64, u64)>> {
    let mut numbers = Vec::new(rt.alloc());
    for word in env::args(rt)?.skip(1) {
        if let Ok(number) = word.as_str().parse::<u64>() {
            numbers.push(number)?;
        }
    }
    if numbers.len() != 2 || numbers[0] == 0 || numbers[1] == 0 {
        println!(rt; "usage: esec_turns THREADS TURNS")?;
        return Ok(None);
    }
    Ok(Some((numbers[0], numbers[1])))
}

/// Lets the threads count, and tells the time from before the first thread is made until the last one has ended.
fn measure<R: Clock + Print + Threads + Wait + Sync>(
    rt: &R,
    alloc: Global,
    threads: u64,
    turns: u64,
) -> io::Result<()> {
    let start = Instant::now(rt)?;
    let counted = count(rt, alloc, threads, turns);
    let nanos = start.elapsed(rt)?.as_nanos();
    match counted {
        Some(count) => println!(rt;
            "{threads} threads, {turns} turns each: {count} counted in {nanos} ns"
        ),
        None => println!(rt; "out of memory"),
    }
}

fn count<R: Threads + Wait + Sync>(rt: &R, alloc: Global, threads: u64, turns: u64) -> Option<u64> {
    if threads == 0 {
        return None;
    }
    counted_by::<Brand, R>(rt, alloc, Blank::new(threads), threads, turns)
}
