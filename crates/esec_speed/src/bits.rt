//! Speed of the lists of bits.
use es_base::NoMemory;
use es_bits::Bits;
use std::alloc::Global;
use std::io;
use std::time::Instant;

/// How many bits a list has.
const LENGTH: usize = 100_000;

/// Tells the time of a call, as the least of many batches.
pub fn measure(rt: &HostRuntime) -> io::Result<()> {
    let Ok(mut one) = every(rt.alloc(), 3) else {
        return println!(rt; "out of memory");
    };
    let Ok(other) = every(rt.alloc(), 7) else {
        return println!(rt; "out of memory");
    };
    let mut best = u128::MAX;
    for _ in 0..300 {
        let start = Instant::now(rt)?;
        for _ in 0..1000 {
            and_both(&mut one, &other);
        }
        best = best.min(start.elapsed(rt)?.as_nanos());
    }
    println!(rt; "and_with: {best} ns for 1000 calls")?;
    let mut best = u128::MAX;
    let mut sum = 0usize;
    for _ in 0..300 {
        let start = Instant::now(rt)?;
        for _ in 0..1000 {
            sum = sum.wrapping_add(other.count());
        }
        best = best.min(start.elapsed(rt)?.as_nanos());
    }
    println!(rt; "count: {best} ns for 1000 calls ({sum} counted)")
}

// Every so many bits are true.
fn every(alloc: Global, step: usize) -> Result<Bits, NoMemory> {
    let mut bits = Bits::zeros(alloc, LENGTH)?;
    let mut left = 0usize;
    for at in 0..LENGTH {
        if left == 0 && at < bits.len() {
            bits.set(at);
            left = step;
        }
        left = left.saturating_sub(1);
    }
    Ok(bits)
}

fn and_both(one: &mut Bits, other: &Bits) {
    if one.len() == other.len() {
        one.and_with(other);
    }
}
