//! A walk over the entries of a map.
ghost use Rattle.std.specs.Prelude.{◌≡◌, drop, slice_get, IfOk, OnErr, option_map};
ghost use Rattle.std.specs.Ordering.{nat_cmp};
ghost use Rattle.std.specs.Cmp.Lexicographic.{slice_cmp};
ghost use Rattle.std.specs.BTreeMap.Range.{entries_from};
ghost use Rattle.es_map.specs.Waiting.{Adds};

use crate::map::{Map, Node};
use es_base::NoMemory;
use std::alloc::Global;
use std::cmp::Ordering;
use std::marker::Model;

/// The entries of a map that a walk in the order of the keys has still to come to. Contracts see the list of them.
#[derive(Drop)]
pub struct Cursor<'a, V> {
    // The nodes whose entries come next, the nearest last. After a node's entry come those on its right.
    waiting: Vec<&'a Node<V>>,
}

impl<'a, V> Model for Cursor<'a, V> {
    ghost use Rattle.std.specs.Prelude.{List, ℕ};
    ghost use Rattle.std.specs.Coded.{coded_list, coded×, coded_ℕ};

    ghost Value = { List (List ℕ × V) };

    ghost coded = { coded_list (coded× (coded_list coded_ℕ) V.code) };

    ghost use Rattle.es_map.specs.Waiting.{entries_waiting};

    ghost view = { λ cursor. entries_waiting cursor.waiting.items };
}

impl<V> Map<V> {
    /// The entries whose keys don't come before a key, in order.
    pub fn from(&self, alloc: Global, key: &str) -> Result<Cursor<'_, V>, NoMemory>
        ensures { IfOk result (λ cursor. cursor ≡ entries_from (slice_cmp nat_cmp key.now) self.now) }
    {
        let mut waiting = Vec::new(alloc);
        wait_from(&mut waiting, self, key)?;
        Ok(Cursor { waiting })
    }

    /// All entries, in order.
    pub fn all(&self, alloc: Global) -> Result<Cursor<'_, V>, NoMemory>
        ensures { IfOk result (λ cursor. cursor ≡ self.now) }
    {
        let mut waiting = Vec::new(alloc);
        wait_for(&mut waiting, self)?;
        Ok(Cursor { waiting })
    }
}

impl<'a, V> Cursor<'a, V> {
    /// The first of the entries.
    pub fn first(&self) -> Option<(&'a str, &'a V)>
        ensures { option_map (λ e. (e.0.now, e.1.now)) result ≡ slice_get self.now 0 }
    {
        match self.waiting.last() {
            Some(node) => {
                let node: &'a Node<V> = node;
                let entry = node.entry.get();
                Some((entry.key.text(), &entry.value))
            }
            None => None,
        }
    }

    /// Takes the first of the entries away. The time is constant over a whole walk. Where memory is refused the
    /// entries stay.
    pub fn advance(&mut self) -> Result<(), NoMemory>
        ensures rest { IfOk result (λ _. self.new ≡ drop 1 self.old) }
        ensures kept { OnErr result (self.new ≡ self.old) }
    {
        let Some(node) = self.waiting.last() else {
            return Ok(());
        };
        let node: &'a Node<V> = node;
        let place = self.waiting.len() - 1;
        wait_for(&mut self.waiting, &node.right)?;
        self.waiting.remove(place);
        Ok(())
    }

    /// Takes the first of the entries away and gives it. Where memory is refused the entries stay.
    pub fn next(&mut self) -> Result<Option<(&'a str, &'a V)>, NoMemory>
        ensures first { IfOk result (λ first. option_map (λ e. (e.0.now, e.1.now)) first ≡ slice_get self.old 0) }
        ensures rest { IfOk result (λ _. self.new ≡ drop 1 self.old) }
        ensures kept { OnErr result (self.new ≡ self.old) }
    {
        let first = self.first();
        self.advance()?;
        Ok(first)
    }
}

// Adds the nodes that wait where a walk over all entries of a map begins.
fn wait_for<'a, V>(waiting: &mut Vec<&'a Node<V>>, map: &'a Map<V>) -> Result<(), NoMemory>
    ensures added { IfOk result (λ _. Adds waiting.old.items waiting.new.items map.now) }
    ensures kept { OnErr result (waiting.new.items ≡ waiting.old.items) }
{
    let Some(node) = map.node() else {
        return Ok(());
    };
    waiting.push(node)?;
    let below = wait_for(waiting, &node.left);
    if below.is_err() {
        waiting.pop();
    }
    below
}

// Adds the nodes that wait where a walk from a key on begins.
fn wait_from<'a, V>(
    waiting: &mut Vec<&'a Node<V>>,
    map: &'a Map<V>,
    key: &str,
) -> Result<(), NoMemory>
    ensures { IfOk result (λ _. Adds waiting.old.items waiting.new.items (entries_from (slice_cmp nat_cmp key.now) map.now)) }
{
    let Some(node) = map.node() else {
        return Ok(());
    };
    match key.cmp(node.entry.get().key.text()) {
        Ordering::Less => {
            waiting.push(node)?;
            wait_from(waiting, &node.left, key)
        }
        Ordering::Equal => {
            waiting.push(node)?;
            Ok(())
        }
        Ordering::Greater => wait_from(waiting, &node.right, key),
    }
}
