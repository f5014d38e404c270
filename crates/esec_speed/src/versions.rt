//! Speed of the map whose versions share their parts.
use crate::history::differing;
use es_base::{NoMemory, Str};
use es_map::Map;
use std::alloc::Global;
use std::io;
use std::time::Instant;

/// How many calls a batch has.
const BATCH: usize = 200;

// The least time of a batch of each kind of call, in nanoseconds.
#[derive(Drop)]
struct Times {
    get: u128,
    at: u128,
    with_new: u128,
    with_known: u128,
    without: u128,
    page: u128,
    step: u128,
}

/// Compares old versions with what they were, and tells the times of calls at 1,000 and at 100,000 entries, as the
/// least of many batches, and how many times the one is the other. At each change the version before is held, and the
/// one before that is let go.
pub fn measure(rt: &HostRuntime) -> io::Result<()> {
    let Ok(differing) = differing(rt.alloc()) else {
        return println!(rt; "out of memory");
    };
    println!(rt; "versions that differ from what they were: {differing}")?;
    let small = measured(rt, 1_000, 40)?;
    let large = measured(rt, 100_000, 1)?;
    println!(rt; "nanoseconds a call at 1,000 and at 100,000 entries")?;
    tell(rt, "get", small.get, large.get)?;
    tell(rt, "at", small.at, large.at)?;
    tell(rt, "with, a new key", small.with_new, large.with_new)?;
    tell(rt, "with, a known key", small.with_known, large.with_known)?;
    tell(rt, "without", small.without, large.without)?;
    tell(rt, "a cursor and ten steps", small.page, large.page)?;
    tell(rt, "a step of a cursor", small.step, large.step)
}

fn tell(rt: &HostRuntime, what: &str, small: u128, large: u128) -> io::Result<()> {
    let tenths = large.saturating_mul(10) / small.max(1);
    let (small, large) = (small / BATCH as u128, large / BATCH as u128);
    println!(rt;
        "{what}: {small} and {large}, {}.{} times",
        tenths / 10,
        tenths % 10
    )
}

fn measured(rt: &HostRuntime, many: u64, rounds: u64) -> io::Result<Times> {
    let alloc = rt.alloc();
    let mut times = Times {
        get: u128::MAX,
        at: u128::MAX,
        with_new: u128::MAX,
        with_known: u128::MAX,
        without: u128::MAX,
        page: u128::MAX,
        step: u128::MAX,
    };
    let known = keys_from(alloc, 0, many).map_err(refused)?;
    let new = keys_from(alloc, 10_000_000, 20_000).map_err(refused)?;
    let map = filled(alloc, known.as_slice()).map_err(refused)?;
    for _ in 0..rounds {
        for keys in known.chunks(BATCH) {
            times.read(rt, &map, keys)?;
        }
        for keys in known.chunks(BATCH) {
            times.replace(rt, &map, keys)?;
        }
        for keys in known.chunks(BATCH) {
            times.remove(rt, &map, keys)?;
        }
        times.walk(rt, &map)?;
    }
    for keys in new.chunks(BATCH) {
        times.add(rt, &map, keys)?;
    }
    Ok(times)
}

impl Times {
    fn read(&mut self, rt: &HostRuntime, map: &Map<u64>, keys: &[Str]) -> io::Result<()> {
        let start = Instant::now(rt)?;
        let found = gets(map, keys);
        self.get = self.get.min(start.elapsed(rt)?.as_nanos());
        let start = Instant::now(rt)?;
        let more = places(map);
        self.at = self.at.min(start.elapsed(rt)?.as_nanos());
        let start = Instant::now(rt)?;
        let rest = pages(rt.alloc(), map, keys).map_err(refused)?;
        self.page = self.page.min(start.elapsed(rt)?.as_nanos());
        used(rt, found.wrapping_add(more).wrapping_add(rest))
    }

    fn replace(&mut self, rt: &HostRuntime, map: &Map<u64>, keys: &[Str]) -> io::Result<()> {
        let start = Instant::now(rt)?;
        let changed = with_each(rt.alloc(), map, keys).map_err(refused)?;
        self.with_known = self.with_known.min(start.elapsed(rt)?.as_nanos());
        used(rt, changed.len() as u64)
    }

    fn remove(&mut self, rt: &HostRuntime, map: &Map<u64>, keys: &[Str]) -> io::Result<()> {
        let start = Instant::now(rt)?;
        let fewer = without_each(rt.alloc(), map, keys).map_err(refused)?;
        self.without = self.without.min(start.elapsed(rt)?.as_nanos());
        used(rt, fewer.len() as u64)
    }

    fn add(&mut self, rt: &HostRuntime, map: &Map<u64>, keys: &[Str]) -> io::Result<()> {
        let start = Instant::now(rt)?;
        let more = with_each(rt.alloc(), map, keys).map_err(refused)?;
        self.with_new = self.with_new.min(start.elapsed(rt)?.as_nanos());
        used(rt, more.len() as u64)
    }

    fn walk(&mut self, rt: &HostRuntime, map: &Map<u64>) -> io::Result<()> {
        let mut cursor = map.all(rt.alloc()).map_err(refused)?;
        let mut sum = 0u64;
        for _ in 0..map.len() / BATCH {
            let start = Instant::now(rt)?;
            for _ in 0..BATCH {
                if let Some((_, value)) = cursor.next().map_err(refused)? {
                    sum = sum.wrapping_add(*value);
                }
            }
            self.step = self.step.min(start.elapsed(rt)?.as_nanos());
        }
        used(rt, sum)
    }
}

pub fn refused(_error: NoMemory) -> io::Error {
    io::ErrorKind::OutOfMemory.into()
}

// What was computed counts: without this a compiler may leave the calls out.
pub fn used(rt: &HostRuntime, sum: u64) -> io::Result<()> {
    if sum == u64::MAX {
        return println!(rt; "");
    }
    Ok(())
}

// Twelve letters that tell the number, in an order that doesn't go with it.
fn key_of(alloc: Global, number: u64) -> Result<Str, NoMemory> {
    let mut text = Str::empty(alloc);
    let mut rest = number.wrapping_mul(0x9e37_79b9_7f4a_7c15);
    for _ in 0..12 {
        text.push((b'a' + (rest % 26) as u8) as char)?;
        rest /= 26;
    }
    Ok(text)
}

fn keys_from(alloc: Global, first: u64, many: u64) -> Result<Vec<Str>, NoMemory> {
    let mut keys = Vec::new(alloc);
    for number in 0..many {
        keys.push(key_of(alloc, first.wrapping_add(number))?)?;
    }
    Ok(keys)
}

fn filled(alloc: Global, keys: &[Str]) -> Result<Map<u64>, NoMemory> {
    let mut map = Map::empty();
    for key in keys {
        map = map.with(alloc, key.copy(alloc)?, 1)?;
    }
    Ok(map)
}

fn gets(map: &Map<u64>, keys: &[Str]) -> u64 {
    let mut sum = 0u64;
    for key in keys {
        if let Some(value) = map.get(key.text()) {
            sum = sum.wrapping_add(*value);
        }
    }
    sum
}

fn places(map: &Map<u64>) -> u64 {
    let mut sum = 0u64;
    let mut number = 1usize;
    let len = map.len().max(1);
    for _ in 0..BATCH {
        number = number
            .wrapping_mul(6_364_136_223_846_793_005)
            .wrapping_add(1_442_695_040_888_963_407);
        if let Some((_, value)) = map.at((number >> 20) % len) {
            sum = sum.wrapping_add(*value);
        }
    }
    sum
}

fn pages(alloc: Global, map: &Map<u64>, keys: &[Str]) -> Result<u64, NoMemory> {
    let mut sum = 0u64;
    for key in keys {
        let mut cursor = map.from(alloc, key.text())?;
        for _ in 0..10 {
            if let Some((_, value)) = cursor.next()? {
                sum = sum.wrapping_add(*value);
            }
        }
    }
    Ok(sum)
}

fn with_each(alloc: Global, map: &Map<u64>, keys: &[Str]) -> Result<Map<u64>, NoMemory> {
    let mut last = map.share()?;
    let mut held = map.share()?;
    for key in keys {
        let next = last.with(alloc, key.copy(alloc)?, 2)?;
        held = last;
        last = next;
    }
    drop(held);
    Ok(last)
}

fn without_each(alloc: Global, map: &Map<u64>, keys: &[Str]) -> Result<Map<u64>, NoMemory> {
    let mut last = map.share()?;
    let mut held = map.share()?;
    for key in keys {
        let next = last.without(alloc, key.text())?;
        held = last;
        last = next;
    }
    drop(held);
    Ok(last)
}
