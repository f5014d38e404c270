//! An ordered map from texts.
ghost use Rattle.std.specs.Prelude.{◌≡◌, ◌↔◌, [], ◌∷◌, ◌++◌, length, drop, slice_get, IsTrue, IfOk, MatchOption, option_map};
ghost use Rattle.std.specs.Option.{option_copied};
ghost use Rattle.std.specs.Ordering.{nat_cmp};
ghost use Rattle.std.specs.Cmp.Lexicographic.{slice_cmp};
ghost use Rattle.std.specs.Map.{lookup, remove_entry};
ghost use Rattle.std.specs.BTreeMap.{insert_entry, is_at};
ghost use Rattle.es_map.specs.Entries.{IsRising, pair_of, entries_below, AtFork};

use es_base::{NoMemory, Shared, Str};
use std::alloc::Global;
use std::cmp::Ordering;
use std::marker::Model;
use std::sync::Arc;

/// Values by keys, in the order of the keys' bytes. Contracts see the list of the entries. A change makes a new map,
/// which shares with the old one all that they have in common.
#[cycle(map)]
#[derive(Drop)]
pub struct Map<V> {
    root: Root<V>,
}

#[cycle(map)]
#[derive(Drop)]
enum Root<V> {
    Leaf,
    Fork(Arc<Node<V>>),
}

#[cycle(map)]
#[derive(Drop)]
pub(crate) struct Node<V> {
    pub(crate) left: Map<V>,
    pub(crate) entry: Shared<Entry<V>>,
    pub(crate) right: Map<V>,
    // How many entries there are in all.
    count: usize,
}

// A key and its value.
#[derive(Drop)]
pub(crate) struct Entry<V> {
    pub(crate) key: Str,
    pub(crate) value: V,
}

impl<V> Model for Map<V> {
    ghost use Rattle.std.specs.Prelude.{List, ℕ, length};
    ghost use Rattle.std.specs.Coded.{coded_list, coded×, coded_ℕ};

    ghost Value = { List (List ℕ × V) };

    ghost coded = { coded_list (coded× (coded_list coded_ℕ) V.code) };

    ghost use Rattle.es_map.specs.Entries.{entries_of, IsCounted};

    ghost view = { λ map. entries_of map.root };

    ghost invariant = { λ map. IsCounted map.root };

    ghost size = { length };

    ghost use Rattle.std.proofs.Common.{arith, length-append};

    ghost size_decreases = { λ a h. Prim.grind (arith, length-append) };
}

impl<V> Map<V> {
    /// No entries. It takes no memory.
    pub fn empty() -> Map<V>
        ensures { result ≡ [] }
    {
        Map { root: Root::Leaf }
    }

    /// How many entries there are.
    pub fn len(&self) -> usize
        ensures length { result ≡ length self.now }
        ensures rising { IsRising self.now }
    {
        match &self.root {
            Root::Leaf => 0,
            Root::Fork(node) => node.count,
        }
    }

    /// Whether there are none.
    pub fn is_empty(&self) -> bool
        ensures { IsTrue result ↔ (self.now ≡ []) }
    {
        self.len() == 0
    }

    /// The same map once more.
    pub fn share(&self) -> Result<Map<V>, NoMemory>
        ensures { IfOk result (λ share. share ≡ self.now) }
    {
        match &self.root {
            Root::Leaf => Ok(Map { root: Root::Leaf }),
            Root::Fork(node) => Ok(Map {
                root: Root::Fork(Arc::try_clone(node)?),
            }),
        }
    }

    // The node at the root.
    pub(crate) fn node(&self) -> Option<&Node<V>>
        ensures { MatchOption result (self.now ≡ []) (λ node. AtFork self.now node.now) }
    {
        match &self.root {
            Root::Leaf => None,
            Root::Fork(node) => Some(node),
        }
    }

    /// The value of a key.
    pub fn get(&self, key: &str) -> Option<&V>
        ensures { option_copied result ≡ lookup (is_at (slice_cmp nat_cmp key.now)) self.now }
    {
        match self.node() {
            None => None,
            Some(node) => {
                let entry = node.entry.get();
                match key.cmp(entry.key.text()) {
                    Ordering::Less => node.left.get(key),
                    Ordering::Equal => Some(&entry.value),
                    Ordering::Greater => node.right.get(key),
                }
            }
        }
    }

    /// The entry at a place, counted from 0 in the order of the keys.
    pub fn at(&self, place: usize) -> Option<(&str, &V)>
        ensures { option_map (λ e. (e.0.now, e.1.now)) result ≡ slice_get self.now place }
    {
        match self.entry_at(place) {
            Some(shared) => {
                let entry = shared.get();
                Some((entry.key.text(), &entry.value))
            }
            None => None,
        }
    }

    fn entry_at(&self, place: usize) -> Option<&Shared<Entry<V>>>
        ensures { option_map (λ e. pair_of e.now) result ≡ slice_get self.now place }
    {
        match self.node() {
            None => None,
            Some(node) => {
                let before = node.left.len();
                if place < before {
                    node.left.entry_at(place)
                } else if place == before {
                    Some(&node.entry)
                } else {
                    node.right.entry_at(place - before - 1)
                }
            }
        }
    }
}

impl<V: Drop> Map<V> {
    /// This map with a value at a key, in place of the one that the key had.
    pub fn with(&self, alloc: Global, key: Str, value: V) -> Result<Map<V>, NoMemory>
        ensures { IfOk result (λ map. map ≡ insert_entry (slice_cmp nat_cmp) self.now key value) }
    {
        let entry = Shared::new(alloc, Entry { key, value })?;
        self.put(alloc, entry)
    }

    fn put(&self, alloc: Global, entry: Shared<Entry<V>>) -> Result<Map<V>, NoMemory>
        ensures { IfOk result (λ map. map ≡ insert_entry (slice_cmp nat_cmp) self.now entry.key entry.value) }
    {
        let Some(node) = self.node() else {
            return fork(alloc, Map::empty(), entry, Map::empty());
        };
        match entry.get().key.text().cmp(node.entry.get().key.text()) {
            Ordering::Less => {
                let left = node.left.put(alloc, entry)?;
                balanced(alloc, left, node.entry.share()?, node.right.share()?)
            }
            Ordering::Equal => fork(alloc, node.left.share()?, entry, node.right.share()?),
            Ordering::Greater => {
                let right = node.right.put(alloc, entry)?;
                balanced(alloc, node.left.share()?, node.entry.share()?, right)
            }
        }
    }

    /// This map without a key.
    pub fn without(&self, alloc: Global, key: &str) -> Result<Map<V>, NoMemory>
        ensures { IfOk result (λ map. map ≡ remove_entry (is_at (slice_cmp nat_cmp key.now)) self.now) }
    {
        let Some(node) = self.node() else {
            return Ok(Map::empty());
        };
        match key.cmp(node.entry.get().key.text()) {
            Ordering::Less => {
                let left = node.left.without(alloc, key)?;
                balanced(alloc, left, node.entry.share()?, node.right.share()?)
            }
            Ordering::Equal => joined(alloc, &node.left, &node.right),
            Ordering::Greater => {
                let right = node.right.without(alloc, key)?;
                balanced(alloc, node.left.share()?, node.entry.share()?, right)
            }
        }
    }

    fn without_first(&self, alloc: Global) -> Result<Map<V>, NoMemory>
        ensures { IfOk result (λ map. map ≡ drop 1 self.now) }
    {
        let Some(node) = self.node() else {
            return Ok(Map::empty());
        };
        if node.left.is_empty() {
            return node.right.share();
        }
        let left = node.left.without_first(alloc)?;
        balanced(alloc, left, node.entry.share()?, node.right.share()?)
    }
}

// All entries of one map before all of another.
fn joined<V: Drop>(alloc: Global, left: &Map<V>, right: &Map<V>) -> Result<Map<V>, NoMemory>
    requires { IsRising (left.now ++ right.now) }
    ensures { IfOk result (λ map. map ≡ left.now ++ right.now) }
{
    match right.entry_at(0) {
        None => left.share(),
        Some(entry) => {
            let rest = right.without_first(alloc)?;
            balanced(alloc, left.share()?, entry.share()?, rest)
        }
    }
}

// More entries on one side than memory can hold.
const TOO_MANY: usize = 1 << 62;

fn fork<V: Drop>(
    alloc: Global,
    left: Map<V>,
    entry: Shared<Entry<V>>,
    right: Map<V>,
) -> Result<Map<V>, NoMemory>
    requires { IsRising (left ++ pair_of entry ∷ right) }
    ensures { IfOk result (λ map. map ≡ left ++ pair_of entry ∷ right) }
{
    let (before, after) = (left.len(), right.len());
    if before >= TOO_MANY || after >= TOO_MANY {
        return Err(NoMemory);
    }
    let count = before + 1 + after;
    let node = Arc::new(
        alloc,
        Node {
            left,
            entry,
            right,
            count,
        },
    )?;
    Ok(Map {
        root: Root::Fork(node),
    })
}

// Whether so many entries weigh more than three times as much as so many others.
fn is_heavy(one: usize, other: usize) -> bool {
    one > other.saturating_mul(3).saturating_add(2)
}

// A fork whose sides weigh about the same, where one change of a side made them differ.
fn balanced<V: Drop>(
    alloc: Global,
    left: Map<V>,
    entry: Shared<Entry<V>>,
    right: Map<V>,
) -> Result<Map<V>, NoMemory>
    requires { IsRising (left ++ pair_of entry ∷ right) }
    ensures { IfOk result (λ map. map ≡ left ++ pair_of entry ∷ right) }
{
    let (before, after) = (left.len(), right.len());
    if is_heavy(after, before) {
        turned_left(alloc, left, entry, &right)
    } else if is_heavy(before, after) {
        turned_right(alloc, &left, entry, right)
    } else {
        fork(alloc, left, entry, right)
    }
}

// The right side's root comes to the top, or where its left side is heavy that side's root.
fn turned_left<V: Drop>(
    alloc: Global,
    left: Map<V>,
    entry: Shared<Entry<V>>,
    right: &Map<V>,
) -> Result<Map<V>, NoMemory>
    requires { IsRising (left ++ pair_of entry ∷ right.now) }
    ensures { IfOk result (λ map. map ≡ left ++ pair_of entry ∷ right.now) }
{
    let Some(node) = right.node() else {
        return fork(alloc, left, entry, Map::empty());
    };
    let (last, after) = (node.entry.share()?, node.right.share()?);
    match node.left.node() {
        Some(inner) if node.left.len() > after.len().saturating_mul(2) => {
            parted(alloc, left, entry, inner, last, after)
        }
        _ => lean_left(alloc, left, entry, node.left.share()?, last, after),
    }
}

// The left side's root comes to the top, or where its right side is heavy that side's root.
fn turned_right<V: Drop>(
    alloc: Global,
    left: &Map<V>,
    entry: Shared<Entry<V>>,
    right: Map<V>,
) -> Result<Map<V>, NoMemory>
    requires { IsRising (left.now ++ pair_of entry ∷ right) }
    ensures { IfOk result (λ map. map ≡ left.now ++ pair_of entry ∷ right) }
{
    let Some(node) = left.node() else {
        return fork(alloc, Map::empty(), entry, right);
    };
    let (before, first) = (node.left.share()?, node.entry.share()?);
    match node.right.node() {
        Some(inner) if node.right.len() > before.len().saturating_mul(2) => {
            parted(alloc, before, first, inner, entry, right)
        }
        _ => lean_right(alloc, before, first, node.right.share()?, entry, right),
    }
}

// Three maps and what stands between them, with the second entry at the top.
fn lean_left<V: Drop>(
    alloc: Global,
    low: Map<V>,
    first: Shared<Entry<V>>,
    middle: Map<V>,
    last: Shared<Entry<V>>,
    high: Map<V>,
) -> Result<Map<V>, NoMemory>
    requires { IsRising (low ++ pair_of first ∷ (middle ++ pair_of last ∷ high)) }
    ensures { IfOk result (λ map. map ≡ low ++ pair_of first ∷ (middle ++ pair_of last ∷ high)) }
{
    let left = fork(alloc, low, first, middle)?;
    fork(alloc, left, last, high)
}

// The same with the first entry at the top.
fn lean_right<V: Drop>(
    alloc: Global,
    low: Map<V>,
    first: Shared<Entry<V>>,
    middle: Map<V>,
    last: Shared<Entry<V>>,
    high: Map<V>,
) -> Result<Map<V>, NoMemory>
    requires { IsRising (low ++ pair_of first ∷ (middle ++ pair_of last ∷ high)) }
    ensures { IfOk result (λ map. map ≡ low ++ pair_of first ∷ (middle ++ pair_of last ∷ high)) }
{
    let right = fork(alloc, middle, last, high)?;
    fork(alloc, low, first, right)
}

// The same with the entry of the middle's root at the top.
fn parted<V: Drop>(
    alloc: Global,
    low: Map<V>,
    first: Shared<Entry<V>>,
    middle: &Node<V>,
    last: Shared<Entry<V>>,
    high: Map<V>,
) -> Result<Map<V>, NoMemory>
    requires { IsRising (low ++ pair_of first ∷ (entries_below middle.now ++ pair_of last ∷ high)) }
    ensures { IfOk result (λ map. map ≡ low ++ pair_of first ∷ (entries_below middle.now ++ pair_of last ∷ high)) }
{
    let left = fork(alloc, low, first, middle.left.share()?)?;
    let right = fork(alloc, middle.right.share()?, last, high)?;
    fork(alloc, left, middle.entry.share()?, right)
}
