//! Speed of a vault: of looks that hit, of changes of roles, of gets through a job, and of puts while others still read.
use crate::jobs::{call, run};
use crate::versions::{refused, used};
use es_base::{NoMemory, Str};
use es_cred::Credentials;
use es_decide::permit;
use es_fetch::get;
use es_priv::Action;
use es_reply::{Reply, found, unauthorized};
use es_request::{Call, Request};
use es_vault::{Limits, Look, Snapshot, Stop, Vault, allowed, asked_target};
use std::alloc::Global;
use std::io;
use std::time::Instant;

/// How many calls a batch has.
const BATCH: u64 = 100;

/// How many batches are timed, of which the least time counts.
const ROUNDS: u64 = 100;

const SECRET: &str = "a-secret-of-this-user";

/// Tells the times of calls on a vault, as the least of many batches, and how many times the one is the other.
pub fn measure(rt: &HostRuntime) -> io::Result<()> {
    let alloc = rt.alloc();
    println!(rt; "nanoseconds a call, by roles that are cached and users that stand")?;
    let mut few = filled(alloc, 1, 10, 1).map_err(refused)?;
    let one = looks(rt, &mut few, 10)?;
    println!(rt; "a look that hits, 1 role and 10 users: {one}")?;
    let mut cached = filled(alloc, 512, 512, 1).map_err(refused)?;
    let all = looks(rt, &mut cached, 512)?;
    tell(rt, "a look that hits, 512 roles and 512 users", all, one)?;
    let mut many = filled(alloc, 1, 100_000, 1).map_err(refused)?;
    let users = looks(rt, &mut many, 100_000)?;
    tell(rt, "a look that hits, 1 role and 100,000 users", users, one)?;
    let same = looks(rt, &mut many, 10)?;
    tell(rt, "the same, of 10 of these users", same, one)?;
    let mut both = filled(alloc, 512, 100_000, 1).map_err(refused)?;
    let most = looks(rt, &mut both, 512)?;
    tell(
        rt,
        "a look that hits, 512 roles and 100,000 users, of 512 of them",
        most,
        one,
    )?;

    let none = role_changes(rt, &mut few)?;
    println!(rt; "the put of a role that nobody has, 1 role cached: {none}")?;
    let small = role_changes(rt, &mut cached)?;
    tell(rt, "the same, 512 cached", small, none)?;
    let mut wide = filled(alloc, 512, 512, 100).map_err(refused)?;
    let large = role_changes(rt, &mut wide)?;
    tell(
        rt,
        "the same, 512 cached of 100 groups of indices each",
        large,
        small,
    )?;

    let plain = plain_gets(rt, &mut few)?;
    println!(rt; "a get that composes its role and takes no share: {plain}")?;
    let through = gets(rt, &mut few)?;
    tell(rt, "a get through look and work", through, plain)?;

    let alone = puts(rt, &mut few, 0)?;
    println!(rt; "a put: {alone}")?;
    let held = puts(rt, &mut few, 100)?;
    tell(rt, "a put while 100 looks are held", held, alone)
}

fn tell(rt: &HostRuntime, what: &str, time: u128, other: u128) -> io::Result<()> {
    let hundredths = time.saturating_mul(100) / other.max(1);
    println!(rt;
        "{what}: {time}, {}.{}{} times",
        hundredths / 100,
        hundredths / 10 % 10,
        hundredths % 10
    )
}

// A number that the batch's round and place tell, below the limit.
fn drawn(round: u64, place: u64, limit: u64) -> u64 {
    let mixed = round
        .wrapping_mul(6_364_136_223_846_793_005)
        .wrapping_add(place.wrapping_mul(0x9e37_79b9_7f4a_7c15));
    (mixed >> 20) % limit.max(1)
}

fn elastic(alloc: Global) -> Result<Credentials, NoMemory> {
    Ok(Credentials::User {
        name: Str::of(alloc, "elastic")?,
        secret: Str::of(alloc, SECRET)?,
    })
}

fn user(alloc: Global, number: u64) -> Result<Credentials, NoMemory> {
    Ok(Credentials::User {
        name: Str::from_string(format!(in alloc; "user-{number}")?),
        secret: Str::of(alloc, SECRET)?,
    })
}

// Makes a call of the superuser.
fn by_elastic(
    alloc: Global,
    vault: &mut Vault,
    method: &str,
    target: &str,
    body: &str,
) -> Result<u64, NoMemory> {
    let asked = call(alloc, elastic(alloc)?, method, target, body)?;
    Ok(run(alloc, asked, vault)?.place)
}

// A vault with an index of one document, with so many roles, each of which reads it by so many groups of indices, and with so
// many users, each of which has one of them. Each role is cached.
fn filled(alloc: Global, roles: u64, users: u64, groups: u64) -> Result<Vault, NoMemory> {
    let limits = Limits {
        journal: 200_000,
        role_cache: 512,
    };
    let mut vault = Vault::open(alloc, SECRET, limits)?;
    by_elastic(alloc, &mut vault, "PUT", "/logs", "")?;
    by_elastic(
        alloc,
        &mut vault,
        "PUT",
        "/logs/_doc/1",
        "{\"message\":\"started\",\"level\":3}",
    )?;
    for number in 0..roles {
        let target = format!(in alloc; "/_security/role/role-{number}")?;
        let body = role_body(alloc, groups)?;
        by_elastic(alloc, &mut vault, "PUT", target.as_str(), body.text())?;
    }
    for number in 0..users {
        let target = format!(in alloc; "/_security/user/user-{number}")?;
        let role = number % roles.max(1);
        let body = format!(in alloc; "{{\"secret\":\"{SECRET}\",\"roles\":[\"role-{role}\"]}}")?;
        by_elastic(alloc, &mut vault, "PUT", target.as_str(), body.as_str())?;
    }
    for number in 0..roles.min(users) {
        let asked = call(alloc, user(alloc, number)?, "GET", "/logs/_doc/1", "")?;
        run(alloc, asked, &mut vault)?;
    }
    Ok(vault)
}

// A role that reads by so many groups of indices.
fn role_body(alloc: Global, groups: u64) -> Result<Str, NoMemory> {
    let mut body = Str::of(
        alloc,
        "{\"indices\":[{\"names\":[\"logs\"],\"privileges\":[\"read\"]}",
    )?;
    for number in 1..groups {
        let group = format!(in alloc;
            ",{{\"names\":[\"archive-{number}-*\"],\"privileges\":[\"read\",\"write\"]}}"
        )?;
        body.push_str(group.as_str())?;
    }
    body.push_str("]}")?;
    Ok(body)
}

// The least time of a look of one of the first users, each of whom has a cached role.
fn looks(rt: &HostRuntime, vault: &mut Vault, users: u64) -> io::Result<u128> {
    let alloc = rt.alloc();
    let mut least = u128::MAX;
    let mut hits = 0u64;
    for round in 0..ROUNDS {
        let said = said(alloc, round, users).map_err(refused)?;
        let start = Instant::now(rt)?;
        hits = hits.wrapping_add(look_each(vault, said.as_slice()).map_err(refused)?);
        least = least.min(start.elapsed(rt)?.as_nanos());
    }
    if hits != BATCH * ROUNDS {
        println!(rt; "not each look hit: {hits}")?;
    }
    Ok(least / BATCH as u128)
}

fn said(alloc: Global, round: u64, users: u64) -> Result<Vec<Credentials>, NoMemory> {
    let mut said = Vec::new(alloc);
    for place in 0..BATCH {
        said.push(user(alloc, drawn(round, place, users))?)?;
    }
    Ok(said)
}

fn look_each(vault: &mut Vault, said: &[Credentials]) -> Result<u64, NoMemory> {
    let mut hits = 0u64;
    for credentials in said {
        if let Look::Hit(_, _) = vault.look(credentials, None, 1000)? {
            hits = hits.wrapping_add(1);
        }
    }
    Ok(hits)
}

// The least time of a put of a role that no user has.
fn role_changes(rt: &HostRuntime, vault: &mut Vault) -> io::Result<u128> {
    let alloc = rt.alloc();
    let mut least = u128::MAX;
    for _ in 0..ROUNDS {
        let asked = calls(
            alloc,
            "PUT",
            "/_security/role/spare",
            "{\"cluster\":[\"monitor\"]}",
        )
        .map_err(refused)?;
        let start = Instant::now(rt)?;
        let place = run_each(alloc, vault, asked).map_err(refused)?;
        least = least.min(start.elapsed(rt)?.as_nanos());
        used(rt, place)?;
    }
    Ok(least / BATCH as u128)
}

// A batch of the same call of the superuser.
fn calls(alloc: Global, method: &str, target: &str, body: &str) -> Result<Vec<Call>, NoMemory> {
    let mut calls = Vec::new(alloc);
    for _ in 0..BATCH {
        calls.push(call(alloc, elastic(alloc)?, method, target, body)?)?;
    }
    Ok(calls)
}

fn run_each(alloc: Global, vault: &mut Vault, calls: Vec<Call>) -> Result<u64, NoMemory> {
    let mut sum = 0u64;
    for asked in calls {
        sum = sum.wrapping_add(run(alloc, asked, vault)?.place);
    }
    Ok(sum)
}

fn gets_of(alloc: Global, round: u64) -> Result<Vec<Call>, NoMemory> {
    let mut calls = Vec::new(alloc);
    for place in 0..BATCH {
        calls.push(call(
            alloc,
            user(alloc, drawn(round, place, 10))?,
            "GET",
            "/logs/_doc/1",
            "",
        )?)?;
    }
    Ok(calls)
}

// The least time of a granted get of a document by its job.
fn gets(rt: &HostRuntime, vault: &mut Vault) -> io::Result<u128> {
    let alloc = rt.alloc();
    let mut least = u128::MAX;
    for round in 0..ROUNDS {
        let asked = gets_of(alloc, round).map_err(refused)?;
        let start = Instant::now(rt)?;
        let places = run_each(alloc, vault, asked).map_err(refused)?;
        least = least.min(start.elapsed(rt)?.as_nanos());
        used(rt, places)?;
    }
    Ok(least / BATCH as u128)
}

// The least time of the same get as a node answers it that has neither a cache nor a vault: by its records and its catalog.
fn plain_gets(rt: &HostRuntime, vault: &mut Vault) -> io::Result<u128> {
    let alloc = rt.alloc();
    let mut least = u128::MAX;
    let Look::Hit(world, _) = vault
        .look(&user(alloc, 1).map_err(refused)?, None, 1000)
        .map_err(refused)?
    else {
        return Ok(0);
    };
    for round in 0..ROUNDS {
        let asked = gets_of(alloc, round).map_err(refused)?;
        let start = Instant::now(rt)?;
        let granted = plain_each(alloc, &world, asked).map_err(refused)?;
        least = least.min(start.elapsed(rt)?.as_nanos());
        if granted != BATCH {
            println!(rt; "not each get was granted: {granted}")?;
        }
    }
    Ok(least / BATCH as u128)
}

fn plain_each(alloc: Global, world: &Snapshot, calls: Vec<Call>) -> Result<u64, NoMemory> {
    let mut granted = 0u64;
    for asked in calls {
        if plain(alloc, world, &asked)?.status() == 200 {
            granted = granted.wrapping_add(1);
        }
    }
    Ok(granted)
}

// A get as it is answered without a cache.
fn plain(alloc: Global, world: &Snapshot, asked: &Call) -> Result<Reply, NoMemory> {
    let Some(subject) = world
        .records
        .who(&asked.credentials, asked_target(asked), asked.moment)?
    else {
        return unauthorized(alloc);
    };
    let halves = world.records.halves(alloc, &subject)?;
    if let Err(stop) = allowed(alloc, &subject, &halves, asked) {
        return match stop {
            Stop::Reply(reply) => Ok(reply),
            Stop::NoMemory => Err(NoMemory),
        };
    }
    let Request::Get { index, id } = &asked.request else {
        return unauthorized(alloc);
    };
    let permission = permit(alloc, &subject, &halves, Action::Get, index.text())?;
    let Some(stored) = world.catalog.index(index.text()) else {
        return unauthorized(alloc);
    };
    match get(alloc, &permission, stored, id.text())? {
        None => unauthorized(alloc),
        Some(shown) => found(
            alloc,
            index.text(),
            id.text(),
            shown.version,
            shown.document.get(),
        ),
    }
}

// The least time of a put of a document while so many looks are held, each of another place.
fn puts(rt: &HostRuntime, vault: &mut Vault, many: u64) -> io::Result<u128> {
    let alloc = rt.alloc();
    let mut least = u128::MAX;
    for _ in 0..ROUNDS {
        let held = held(alloc, vault, many).map_err(refused)?;
        let asked = calls(
            alloc,
            "PUT",
            "/logs/_doc/2",
            "{\"message\":\"stopped\",\"level\":4}",
        )
        .map_err(refused)?;
        let start = Instant::now(rt)?;
        let places = run_each(alloc, vault, asked).map_err(refused)?;
        least = least.min(start.elapsed(rt)?.as_nanos());
        used(rt, places.wrapping_add(held.len() as u64))?;
    }
    Ok(least / BATCH as u128)
}

// So many looks, with a put behind each.
fn held(alloc: Global, vault: &mut Vault, many: u64) -> Result<Vec<Look>, NoMemory> {
    let mut held = Vec::new(alloc);
    for _ in 0..many {
        held.push(vault.look(&elastic(alloc)?, None, 1000)?)?;
        by_elastic(
            alloc,
            vault,
            "PUT",
            "/logs/_doc/2",
            "{\"message\":\"stopped\",\"level\":5}",
        )?;
    }
    Ok(held)
}
