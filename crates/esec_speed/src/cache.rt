//! Speed of the counted cache.
use crate::name::Name;
use es_base::{NoMemory, Str};
use es_cache::{Counted, Published};
use std::alloc::Global;
use std::io;
use std::time::Instant;

/// Tells the time of many calls on a full cache of 4,096 entries with keys of 64 bytes.
pub fn measure(rt: &HostRuntime) -> io::Result<()> {
    let alloc = rt.alloc();
    let Ok(mut cache) = Counted::new(alloc, 4096) else {
        return println!(rt; "out of memory");
    };
    let Ok(keys) = keys_from(alloc, 0, 4096) else {
        return println!(rt; "out of memory");
    };
    for (first, many, what) in [
        (0, 4096, "publish, cache not full"),
        (0, 4096, "publish, equal key"),
        (10_000_000, 500_000, "publish, new key"),
        (0, 4096, "publish, the first keys again"),
    ] {
        let Ok(keys) = keys_from(alloc, first, many) else {
            return println!(rt; "out of memory");
        };
        publishes(rt, &mut cache, keys, what)?;
    }
    finds(rt, &mut cache, keys.as_slice())
}

// A key of 64 letters.
fn key_of(alloc: Global, number: u64) -> Result<Name, NoMemory> {
    let mut text = Str::empty(alloc);
    let mut rest = number;
    for _ in 0..64 {
        text.push((b'a' + (rest % 26) as u8) as char)?;
        rest = (rest / 26) ^ (number.wrapping_mul(0x9e37_79b9_7f4a_7c15) >> 7);
    }
    Ok(Name { text, user: number })
}

fn keys_from(alloc: Global, first: u64, many: u64) -> Result<Vec<Name>, NoMemory> {
    let mut keys = Vec::new(alloc);
    for number in 0..many {
        keys.push(key_of(alloc, first.wrapping_add(number))?)?;
    }
    Ok(keys)
}

fn tell(rt: &HostRuntime, what: &str, calls: u64, start: &Instant) -> io::Result<()> {
    let nanos = start.elapsed(rt)?.as_nanos();
    println!(rt; "{what}: {nanos} ns for {calls} calls")
}

fn finds(rt: &HostRuntime, cache: &mut Counted<Name, u64>, keys: &[Name]) -> io::Result<()> {
    let mut sum = 0u64;
    let mut at = 0usize;
    let start = Instant::now(rt)?;
    for _ in 0..1_000_000 {
        at = at.wrapping_mul(1_103_515_245).wrapping_add(12345);
        let place = (at >> 8) & 4095;
        if place < keys.len() {
            if let Some(value) = cache.find(&keys[place]) {
                sum = sum.wrapping_add(*value);
            }
        }
    }
    tell(rt, "find", 1_000_000, &start)?;
    println!(rt; "({sum} found)")
}

fn publishes(
    rt: &HostRuntime,
    cache: &mut Counted<Name, u64>,
    keys: Vec<Name>,
    what: &str,
) -> io::Result<()> {
    let many = keys.len() as u64;
    let alloc = rt.alloc();
    let mut put = 0u64;
    let start = Instant::now(rt)?;
    for key in keys {
        match cache.publish(alloc, 0, key, 1) {
            Ok(Published::Put) => put = put.wrapping_add(1),
            _ => {}
        }
    }
    tell(rt, what, many, &start)?;
    println!(rt; "({put} put)")
}
