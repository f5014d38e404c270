//! A map through many changes, with all its versions.
use es_base::{NoMemory, Str};
use es_map::Map;
use std::alloc::Global;

/// How many keys there are. Each is given a value, and then each second one is taken out and each other one given
/// another value.
const MANY: u64 = 300;

/// How many of the versions of a map differ in the end from what they were made as.
pub fn differing(alloc: Global) -> Result<usize, NoMemory> {
    let mut versions = Vec::new(alloc);
    let mut map = Map::empty();
    for number in 0..MANY {
        versions.push(map.share()?)?;
        map = map.with(alloc, key_of(alloc, number)?, number)?;
    }
    for number in 0..MANY {
        versions.push(map.share()?)?;
        map = if number % 2 == 0 {
            map.without(alloc, key_of(alloc, number)?.text())?
        } else {
            map.with(alloc, key_of(alloc, number)?, number + 1000)?
        };
    }
    versions.push(map)?;
    let mut count = 0usize;
    let mut changes = 0u64;
    for version in &versions {
        if !is_after(alloc, version, changes)? {
            count = count.saturating_add(1);
        }
        changes = changes.saturating_add(1);
    }
    Ok(count)
}

// The value of a key after so many changes.
fn value_after(number: u64, changes: u64) -> Option<u64> {
    if number >= changes {
        None
    } else if number >= changes.saturating_sub(MANY) {
        Some(number)
    } else if number % 2 == 0 {
        None
    } else {
        Some(number.saturating_add(1000))
    }
}

// Whether a version is what so many changes make, whichever way it is read.
fn is_after(alloc: Global, map: &Map<u64>, changes: u64) -> Result<bool, NoMemory> {
    let mut known = 0usize;
    for number in 0..MANY {
        let value = value_after(number, changes);
        if map.get(key_of(alloc, number)?.text()).copied() != value {
            return Ok(false);
        }
        if value.is_some() {
            known = known.saturating_add(1);
        }
    }
    Ok(map.len() == known && is_walked(alloc, map)?)
}

// Whether a cursor comes to each entry in order, at its place and with its value.
fn is_walked(alloc: Global, map: &Map<u64>) -> Result<bool, NoMemory> {
    let mut cursor = map.all(alloc)?;
    let mut before = "";
    for place in 0..map.len() {
        let Some((key, value)) = cursor.next()? else {
            return Ok(false);
        };
        let there = map.at(place).is_some_and(|entry| entry.0 == key);
        if !there || before >= key || map.get(key) != Some(value) {
            return Ok(false);
        }
        before = key;
    }
    Ok(cursor.first().is_none() && map.at(map.len()).is_none())
}

// Five letters that tell the number, in an order that doesn't go with it.
fn key_of(alloc: Global, number: u64) -> Result<Str, NoMemory> {
    let mut text = Str::empty(alloc);
    let mut rest = number.wrapping_mul(7);
    for _ in 0..5 {
        text.push((b'a' + (rest % 26) as u8) as char)?;
        rest /= 26;
    }
    Ok(text)
}
