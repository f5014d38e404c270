//! Speed of records of users and API keys.
use crate::versions::{refused, used};
use es_base::{NoMemory, Seq, Shared, Str};
use es_cred::{Credentials, UserRecord, digest};
use es_keys::{KeyRecord, NewKey, id_of, make};
use es_records::{Records, SecurityChange};
use es_tree::{Members, Person, Tree};
use std::alloc::Global;
use std::io;
use std::time::Instant;

/// How many calls a batch has.
const BATCH: u64 = 100;

const SECRET: &str = "a-secret-of-this-user";

// The least time of a batch of each kind of call, in nanoseconds.
#[derive(Drop)]
struct Times {
    user: u128,
    key: u128,
    unknown: u128,
    halves: u128,
    new_key: u128,
    invalidate: u128,
}

/// Tells the times of calls on records of 100 and of 100,000 users and as many API keys, as the least of many batches, and
/// how many times the one is the other.
pub fn measure(rt: &HostRuntime) -> io::Result<()> {
    let small = measured(rt, 100)?;
    let large = measured(rt, 100_000)?;
    println!(rt; "nanoseconds a call at 100 and at 100,000 users and keys")?;
    tell(rt, "who, a user", small.user, large.user)?;
    tell(rt, "who, a key", small.key, large.key)?;
    tell(rt, "who, an unknown key", small.unknown, large.unknown)?;
    tell(
        rt,
        "who and the halves of a key",
        small.halves,
        large.halves,
    )?;
    tell(rt, "with, a new key", small.new_key, large.new_key)?;
    tell(
        rt,
        "with, an invalidated key",
        small.invalidate,
        large.invalidate,
    )
}

fn tell(rt: &HostRuntime, what: &str, small: u128, large: u128) -> io::Result<()> {
    let tenths = large.saturating_mul(10) / small.max(1);
    let (small, large) = (small / BATCH as u128, large / BATCH as u128);
    println!(rt;
        "{what}: {small} and {large}, {}.{} times",
        tenths / 10,
        tenths % 10
    )
}

fn measured(rt: &HostRuntime, many: u64) -> io::Result<Times> {
    let records = filled(rt.alloc(), many).map_err(refused)?;
    let mut times = Times {
        user: u128::MAX,
        key: u128::MAX,
        unknown: u128::MAX,
        halves: u128::MAX,
        new_key: u128::MAX,
        invalidate: u128::MAX,
    };
    for round in 0..100u64 {
        times.known(rt, &records, round, many)?;
        times.changed(rt, &records, round, many)?;
    }
    Ok(times)
}

impl Times {
    fn known(
        &mut self,
        rt: &HostRuntime,
        records: &Records,
        round: u64,
        many: u64,
    ) -> io::Result<()> {
        let alloc = rt.alloc();
        let users = said_by_users(alloc, round, many).map_err(refused)?;
        let keys = said_by_keys(alloc, round, many).map_err(refused)?;
        let unknown = said_by_keys(alloc, round, many.saturating_mul(2)).map_err(refused)?;
        let start = Instant::now(rt)?;
        let mut found = who_are(records, users.as_slice()).map_err(refused)?;
        self.user = self.user.min(start.elapsed(rt)?.as_nanos());
        let start = Instant::now(rt)?;
        found = found.wrapping_add(who_are(records, keys.as_slice()).map_err(refused)?);
        self.key = self.key.min(start.elapsed(rt)?.as_nanos());
        let start = Instant::now(rt)?;
        found = found.wrapping_add(who_are(records, unknown.as_slice()).map_err(refused)?);
        self.unknown = self.unknown.min(start.elapsed(rt)?.as_nanos());
        let start = Instant::now(rt)?;
        found = found.wrapping_add(halves_of(alloc, records, keys.as_slice()).map_err(refused)?);
        self.halves = self.halves.min(start.elapsed(rt)?.as_nanos());
        used(rt, found)
    }

    fn changed(
        &mut self,
        rt: &HostRuntime,
        records: &Records,
        round: u64,
        many: u64,
    ) -> io::Result<()> {
        let alloc = rt.alloc();
        let made = new_keys(alloc, round).map_err(refused)?;
        let gone = invalidations(alloc, round, many).map_err(refused)?;
        let start = Instant::now(rt)?;
        let mut count = with_each(alloc, records, made.as_slice()).map_err(refused)?;
        self.new_key = self.new_key.min(start.elapsed(rt)?.as_nanos());
        let start = Instant::now(rt)?;
        count = count.wrapping_add(with_each(alloc, records, gone.as_slice()).map_err(refused)?);
        self.invalidate = self.invalidate.min(start.elapsed(rt)?.as_nanos());
        used(rt, count)
    }
}

// A number that the batch's round and place tell, below the limit.
fn drawn(round: u64, place: u64, limit: u64) -> u64 {
    let mixed = round
        .wrapping_mul(6_364_136_223_846_793_005)
        .wrapping_add(place.wrapping_mul(0x9e37_79b9_7f4a_7c15));
    (mixed >> 20) % limit.max(1)
}

fn name_of(alloc: Global, number: u64) -> Result<Str, NoMemory> {
    Ok(Str::from_string(format!(in alloc; "user-{number}")?))
}

fn person(alloc: Global, number: u64) -> Result<Person, NoMemory> {
    let mut roles = Seq::empty(alloc);
    roles.push(Str::of(alloc, "superuser")?)?;
    Ok(Person {
        username: name_of(alloc, number)?,
        full_name: None,
        email: None,
        roles,
        metadata: Tree::Object(Members::empty(alloc)),
    })
}

fn user(alloc: Global, number: u64) -> Result<Shared<UserRecord>, NoMemory> {
    let person = person(alloc, number)?;
    let digest = digest(person.username.text(), SECRET);
    Shared::new(alloc, UserRecord { person, digest })
}

// The key made at this place, and what its holder says.
fn key(alloc: Global, place: u64) -> Result<(KeyRecord, Str), NoMemory> {
    let asked = NewKey {
        name: Str::of(alloc, "a key")?,
        expiration: None,
        assigned: Seq::empty(alloc),
        metadata: Tree::Object(Members::empty(alloc)),
    };
    let owner = person(alloc, place)?;
    make(
        alloc,
        &owner,
        &Seq::empty(alloc),
        &asked,
        place % 1_000_000_000_000,
        1,
        &[7u8; 16],
    )
}

fn filled(alloc: Global, many: u64) -> Result<Records, NoMemory> {
    let mut records = Records::opening(alloc, SECRET)?;
    for number in 0..many {
        records = records.with(alloc, &SecurityChange::PutUser(user(alloc, number)?))?;
        let made = Shared::new(alloc, key(alloc, number)?.0)?;
        records = records.with(alloc, &SecurityChange::AddKey(made))?;
    }
    Ok(records)
}

fn said_by_users(alloc: Global, round: u64, many: u64) -> Result<Vec<Credentials>, NoMemory> {
    let mut said = Vec::new(alloc);
    for place in 0..BATCH {
        said.push(Credentials::User {
            name: name_of(alloc, drawn(round, place, many))?,
            secret: Str::of(alloc, SECRET)?,
        })?;
    }
    Ok(said)
}

fn said_by_keys(alloc: Global, round: u64, many: u64) -> Result<Vec<Credentials>, NoMemory> {
    let mut said = Vec::new(alloc);
    for place in 0..BATCH {
        let (made, secret) = key(alloc, drawn(round, place, many))?;
        said.push(Credentials::Key {
            id: made.id,
            secret,
        })?;
    }
    Ok(said)
}

fn new_keys(alloc: Global, round: u64) -> Result<Vec<SecurityChange>, NoMemory> {
    let mut changes = Vec::new(alloc);
    for place in 0..BATCH {
        let number = drawn(round, place, 100_000).wrapping_add(500_000);
        let made = Shared::new(alloc, key(alloc, number)?.0)?;
        changes.push(SecurityChange::AddKey(made))?;
    }
    Ok(changes)
}

fn invalidations(alloc: Global, round: u64, many: u64) -> Result<Vec<SecurityChange>, NoMemory> {
    let mut changes = Vec::new(alloc);
    for place in 0..BATCH {
        let mut ids = Seq::empty(alloc);
        ids.push(id_of(alloc, drawn(round, place, many))?)?;
        changes.push(SecurityChange::Invalidate { ids })?;
    }
    Ok(changes)
}

fn who_are(records: &Records, said: &[Credentials]) -> Result<u64, NoMemory> {
    let mut found = 0u64;
    for credentials in said {
        if records.who(credentials, None, 5)?.is_some() {
            found = found.wrapping_add(1);
        }
    }
    Ok(found)
}

fn halves_of(alloc: Global, records: &Records, said: &[Credentials]) -> Result<u64, NoMemory> {
    let mut found = 0u64;
    for credentials in said {
        if let Some(subject) = records.who(credentials, None, 5)? {
            if records.halves(alloc, &subject)?.limit.is_none() {
                found = found.wrapping_add(1);
            }
        }
    }
    Ok(found)
}

fn with_each(
    alloc: Global,
    records: &Records,
    changes: &[SecurityChange],
) -> Result<u64, NoMemory> {
    let mut last = records.share()?;
    for change in changes {
        last = last.with(alloc, change)?;
    }
    Ok(last.key_count() as u64)
}
