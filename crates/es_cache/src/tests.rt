ghost use Rattle.std.specs.Prelude.{◌≡◌, nat_eq};
ghost use Rattle.std.proofs.Common.{rules};
ghost use Rattle.std.specs.Cmp.{on_equiv, on_per, partial_equiv_from_equiv};
ghost use Rattle.std.specs.Cmp.Lexicographic.{nat_list_eq_equiv, pointwise};
ghost use Rattle.std.specs.Cmp.Rules.{hashing};
ghost use Rattle.std.specs.Hash as fed;

use super::*;
use es_base::{Shared, Str};
use std::alloc::Global;
use std::hash::{Hash, Hasher};
use std::process::Abort;
use std::test::Fail;

#[derive(Drop)]
struct Name {
    text: Shared<Str>,
}

impl PartialEq for Name {
    ghost eq = { λ x y. pointwise nat_eq x.text y.text };

    ghost laws = { on_per (λ x. x.text) (partial_equiv_from_equiv nat_list_eq_equiv) };

    fn eq(&self, other: &Name) -> bool {
        self.text.get().text() == other.text.get().text()
    }
}

impl Eq for Name {
    ghost laws = { on_equiv (λ x. x.text) nat_list_eq_equiv };
}

impl Hash for Name {
    ghost hash_input = { λ x. fed.str x.text };

    ghost respects_eq = { Prim.search (hashing, rules) };

    fn hash<H: Hasher>(&self, state: &mut H) {
        self.text.get().text().hash(state);
    }
}

impl Share for Name {
    fn share(&self, _alloc: Global) -> Result<Name, NoMemory> {
        Ok(Name {
            text: self.text.share()?,
        })
    }
}

fn named(alloc: Global, text: &str) -> Result<Name, NoMemory> {
    Ok(Name {
        text: Shared::new(alloc, Str::of(alloc, text)?)?,
    })
}

#[derive(Clone, Copy)]
enum Call {
    Has(&'static str, bool),
    Peek(&'static str, Option<u64>),
    Find(&'static str, Option<u64>),
    // At this count the key and the value, which are taken.
    Publish(u64, &'static str, u64),
    // At this count the key, which isn't taken, since another count stands.
    PublishLate(u64, &'static str, u64),
    DropTwo(&'static str, &'static str),
    Raise,
}

use Call::{DropTwo, Find, Has, Peek, Publish, PublishLate, Raise};

fn carry_out(
    rt: &impl Abort,
    alloc: Global,
    cache: &mut Counted<Name, u64>,
    call: Call,
) -> Result<(), NoMemory> {
    match call {
        Has(key, wanted) => assert_eq!(rt; cache.has(&named(alloc, key)?), wanted),
        Peek(key, wanted) => assert_eq!(rt; cache.peek(&named(alloc, key)?).copied(), wanted),
        Find(key, wanted) => assert_eq!(rt; cache.find(&named(alloc, key)?).copied(), wanted),
        Publish(began, key, value) => {
            let answer = cache.publish(alloc, began, named(alloc, key)?, value)?;
            assert_eq!(rt; answer, Published::Put);
        }
        PublishLate(began, key, stands) => {
            let answer = cache.publish(alloc, began, named(alloc, key)?, 9)?;
            assert_eq!(rt; answer, Published::Stale { began, stands });
        }
        DropTwo(first, second) => {
            let keys = vec![in alloc; named(alloc, first)?, named(alloc, second)?]?;
            cache.drop_all(&Seq::from_vec(keys));
        }
        Raise => {
            if cache.count() < u64::MAX {
                cache.raise();
            }
        }
    }
    Ok(())
}

// The keys in the order of the entries, each followed by its value, which is one digit.
fn shown(alloc: Global, cache: &Counted<Name, u64>) -> Result<Str, NoMemory> {
    let mut text = Str::empty(alloc);
    for key in cache.doomed(alloc, |_| true)?.as_slice() {
        text.push_str(key.text.get().text())?;
        if let Some(value) = cache.peek(key) {
            text.push((b'0' + (*value % 10) as u8) as char)?;
        }
    }
    Ok(text)
}

fn follow(
    rt: &impl Abort,
    alloc: Global,
    capacity: usize,
    calls: &[(Call, &'static str)],
) -> Result<(), NoMemory> {
    let mut cache = Counted::new(alloc, capacity.max(1))?;
    assert_eq!(rt; cache.len(), 0);
    for (at, (call, entries)) in calls.iter().enumerate() {
        carry_out(rt, alloc, &mut cache, *call)?;
        assert_eq!(rt; shown(alloc, &cache)?.text(), *entries, "after call {at}");
        assert_eq!(rt; cache.len(), entries.len() / 2);
    }
    Ok(())
}

const ONE_ENTRY: [(Call, &str); 16] = [
    (Find("a", None), ""),
    (Publish(0, "a", 1), "a1"),
    (Has("a", true), "a1"),
    (Has("b", false), "a1"),
    (Publish(0, "b", 2), "b2"),
    (Publish(0, "b", 3), "b3"),
    (Find("a", None), "b3"),
    (Find("b", Some(3)), "b3"),
    (Raise, "b3"),
    (PublishLate(0, "c", 1), "b3"),
    (PublishLate(2, "c", 1), "b3"),
    (PublishLate(0, "b", 1), "b3"),
    (Publish(1, "c", 4), "c4"),
    (DropTwo("a", "b"), "c4"),
    (DropTwo("c", "c"), ""),
    (DropTwo("c", "c"), ""),
];

const TWO_ENTRIES: [(Call, &str); 10] = [
    (Publish(0, "a", 1), "a1"),
    (Publish(0, "b", 2), "b2a1"),
    (Peek("a", Some(1)), "b2a1"),
    (Has("a", true), "b2a1"),
    (Find("a", Some(1)), "a1b2"),
    (Find("c", None), "a1b2"),
    (Publish(0, "c", 3), "c3a1"),
    (Publish(0, "a", 4), "a4c3"),
    (DropTwo("a", "x"), "c3"),
    (Publish(0, "d", 5), "d5c3"),
];

const THREE_ENTRIES: [(Call, &str); 14] = [
    (Publish(0, "a", 1), "a1"),
    (Publish(0, "b", 2), "b2a1"),
    (Publish(0, "c", 3), "c3b2a1"),
    (Find("b", Some(2)), "b2c3a1"),
    (Find("b", Some(2)), "b2c3a1"),
    (DropTwo("c", "x"), "b2a1"),
    (Raise, "b2a1"),
    (Publish(1, "d", 4), "d4b2a1"),
    (Publish(1, "a", 5), "a5d4b2"),
    (Peek("x", None), "a5d4b2"),
    (DropTwo("b", "a"), "d4"),
    (Raise, "d4"),
    (PublishLate(1, "e", 2), "d4"),
    (Publish(2, "e", 6), "e6d4"),
];

#[test]
fn follows_tables(rt: HostRuntime) -> Result<(), Fail> {
    follow(&rt, rt.alloc(), 1, &ONE_ENTRY)?;
    follow(&rt, rt.alloc(), 2, &TWO_ENTRIES)?;
    follow(&rt, rt.alloc(), 3, &THREE_ENTRIES)?;
    Ok(())
}

#[test]
fn finds_the_doomed(rt: HostRuntime) -> Result<(), Fail> {
    let alloc = rt.alloc();
    let mut cache = Counted::new(alloc, 4)?;
    for text in ["ua", "v", "ub", "w"] {
        cache.publish(alloc, 0, named(alloc, text)?, 0)?;
    }
    let keys = cache.doomed(alloc, |key| key.text.get().text().starts_with("u"))?;
    let mut found = Str::empty(alloc);
    for key in keys.as_slice() {
        found.push_str(key.text.get().text())?;
    }
    assert_eq!(rt; found.text(), "ubua");
    assert_eq!(rt; cache.len(), 4);
    cache.drop_all(&keys);
    assert_eq!(rt; shown(alloc, &cache)?.text(), "w0v0");
    Ok(())
}
