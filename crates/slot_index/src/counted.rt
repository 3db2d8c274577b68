// The triples of slots, each with the number of its owners.

ghost use Rattle.std.specs.Prelude.{◌≡◌, ◌+◌, ◌*◌, ◌^◌, ◌<◌, ◌≤◌, ◌==◌, ◌&&◌, ℕ, Bool, length, count_by, IfOk, OnOk, OnErr};
ghost use Rattle.std.specs.FinMap as map;
ghost use Rattle.sorted_sets.specs.Rising.{IsRising};
ghost use Rattle.comparison_steps.specs.Steps.{WithinSteps};
ghost use Rattle.slot_keys.specs.{declared.key.Key.Key as TheKey, Keys.key_cmp};
ghost use Rattle.slot_index.specs.Patterns.{slots_agree};
ghost use Rattle.slot_index.specs.Counts.{HaveOwners, count_of, lowered, raised};

use crate::counting::{lower, owners, raise};
use crate::orders::Orders;
use crate::pattern::SlotPattern;
use base::{List, OutOfMemory};
use comparison_steps::StepCounter;
use slot_keys::Key;
use std::alloc::Global;
use std::collections::BTreeMap;
use std::marker::Model;

/// Triples of slots, each with the number of its owners. Contracts see the map from the stored triples to
/// their counts, which begin at 1. A count is kept only for a triple of two owners or more. Steps are stated
/// with the number d of binary digits of the number of stored triples.
#[derive(Drop)]
pub struct SlotIndex {
    orders: Orders,
    more: BTreeMap<Key, u64>,
}

impl Model for SlotIndex {
    ghost use Rattle.slot_index.specs.{Counts.KeyCounts, Counts.counts_code, Counts.counts_of, Counted.IsCounted, Counted.with_more};

    ghost Value = { KeyCounts };

    ghost coded = { counts_code };

    ghost view = { λ s. with_more s.orders (counts_of s.more.entries) };

    ghost invariant = { λ s. IsCounted s.orders (counts_of s.more.entries) };
}

impl SlotIndex {
    /// The index without triples, which takes no memory.
    pub fn new(alloc: Global) -> SlotIndex
        ensures { result ≡ map.empty }
    {
        SlotIndex {
            orders: Orders::new(alloc),
            more: BTreeMap::new(alloc),
        }
    }

    /// The number of stored triples.
    pub fn len(&self) -> usize
        ensures len { result ≡ map.len self.now }
        ensures owned { HaveOwners self.now }
    {
        self.orders.len()
    }

    /// How many owners the triple has, which takes no memory: one search in one index, and in the counts that
    /// are kept.
    pub fn count<C: StepCounter>(&self, key: Key, steps: &mut C) -> u64
        ensures count { result ≡ count_of self.now key }
        ensures cost { WithinSteps (map.len self.now) 8 (C.total steps.old) (C.total steps.new) }
    {
        if self.orders.find(key, steps) {
            owners(&self.more, key) + 1
        } else {
            0
        }
    }

    /// Raises the count of the triple by one, and says whether it wasn't stored. After `OutOfMemory` nothing has changed.
    pub fn raise<C: StepCounter>(&mut self, key: Key, steps: &mut C) -> Result<bool, OutOfMemory>
        // It has fewer than 2^64 - 1 owners.
        requires { count_of self.old key < 18446744073709551615 }
        ensures ok { OnOk result (self.new ≡ raised self.old key) }
        ensures answer { IfOk result (λ new. new ≡ (count_of self.old key == 0)) }
        ensures err { OnErr result (self.new ≡ self.old) }
        ensures forward { C.total steps.old ≤ C.total steps.new }
        ensures cost { (d : ℕ) → map.len self.old + 1 < 2 ^ d → C.total steps.new ≤ C.total steps.old + 5 * (d + 8) }
    {
        if self.orders.insert(key, steps)? {
            return Ok(true);
        }
        raise(&mut self.more, key)?;
        Ok(false)
    }

    /// Lowers the count of the triple by one, which takes no memory; where it becomes 0 the triple is no longer
    /// stored. It says whether that is so. A triple that isn't stored stays so.
    pub fn lower<C: StepCounter>(&mut self, key: Key, steps: &mut C) -> bool
        ensures lowered { self.new ≡ lowered self.old key }
        ensures answer { result ≡ (count_of self.old key == 1) }
        ensures forward { C.total steps.old ≤ C.total steps.new }
        ensures cost { (d : ℕ) → map.len self.old < 2 ^ d → C.total steps.new ≤ C.total steps.old + 3 * (d + 8) }
    {
        if owners(&self.more, key) > 0 {
            lower(&mut self.more, key);
            return false;
        }
        self.orders.remove(key, steps)
    }

    /// The stored triples that agree with the pattern, each once, in memory of their own: one range of one
    /// index. Its bound on steps holds whatever the answer.
    pub fn range<C: StepCounter>(
        &self,
        pattern: SlotPattern,
        steps: &mut C,
    ) -> Result<List<Key>, OutOfMemory>
        ensures found { IfOk result (λ found. (p : TheKey → Bool) → count_by p found ≡ count_by (λ key. slots_agree pattern key && p key) (map.keys self.now)) }
        ensures rising { IsRising key_cmp (map.keys self.now) }
        ensures cost { WithinSteps (map.len self.now) (9 + count_by (slots_agree pattern) (map.keys self.now)) (C.total steps.old) (C.total steps.new) }
    {
        self.orders.range(pattern, steps)
    }

    /// How many stored triples agree with the pattern, which takes no memory: the length of one range of one index, of which no triple
    /// is looked at but to find its ends.
    pub fn range_len<C: StepCounter>(&self, pattern: SlotPattern, steps: &mut C) -> usize
        ensures len { result ≡ count_by (slots_agree pattern) (map.keys self.now) }
        ensures forward { C.total steps.old ≤ C.total steps.new }
        ensures cost { (d : ℕ) → map.len self.now < 2 ^ d → C.total steps.new ≤ C.total steps.old + 2 * (d + 8) }
    {
        self.orders.range_len(pattern, steps)
    }
}
