// The set of triples in three orders.

ghost use Rattle.std.specs.Prelude.{◌≡◌, ◌+◌, ◌*◌, ◌^◌, ◌<◌, ◌≤◌, ◌&&◌, ℕ, Bool, true, not, [], length, map, filter, count_by, IfOk, OnOk, OnErr};
ghost use Rattle.std.specs.{Bool.OnFalse, List.All, Ordering.eq_by_cmp, BTreeSet.insert_key, Set.remove_key};
ghost use Rattle.sorted_sets.specs.Rising.{IsRising, has};
ghost use Rattle.block_index.specs.Blocks.{keys_of};
ghost use Rattle.comparison_steps.specs.Steps.{WithinSteps};
ghost use Rattle.slot_keys.specs.{declared.key.Key.Key as TheKey, Keys.FitsSlots, Keys.key_cmp, Keys.turned};
ghost use Rattle.slot_index.specs.Patterns.{slots_agree, leads};

use crate::pattern::SlotPattern;
use base::{List, OutOfMemory};
use block_index::BlockIndex;
use comparison_steps::StepCounter;
use slot_keys::Key;
use std::alloc::Global;
use std::marker::Model;

/// A set of triples in three indexes. Contracts see its triples in rising order.
#[derive(Drop)]
pub struct Orders {
    subjects: BlockIndex<Key>,
    predicates: BlockIndex<Key>,
    objects: BlockIndex<Key>,
}

impl Model for Orders {
    ghost use Rattle.std.specs.Prelude.{List as Items};
    ghost use Rattle.block_index.specs.Blocks.{keys_of};
    ghost use Rattle.slot_keys.specs.declared.key.Key.{Key};
    ghost use Rattle.slot_index.specs.Orders.{IsOrders};

    ghost Value = { Items Key };

    ghost view = { λ s. keys_of s.subjects };

    ghost invariant = { λ s. IsOrders (keys_of s.subjects) (keys_of s.predicates) (keys_of s.objects) };
}

impl Orders {
    /// The set without triples, which takes no memory.
    pub fn new(alloc: Global) -> Orders
        ensures { result ≡ [] }
    {
        Orders {
            subjects: BlockIndex::new(alloc),
            predicates: BlockIndex::new(alloc),
            objects: BlockIndex::new(alloc),
        }
    }

    /// The number of triples.
    pub fn len(&self) -> usize
        ensures len { result ≡ length self.now }
        ensures rising { IsRising key_cmp self.now }
    {
        self.subjects.len()
    }

    /// Whether the triple is there.
    pub fn find<C: StepCounter>(&self, key: Key, steps: &mut C) -> bool
        ensures answer { result ≡ has key_cmp key self.now }
        ensures rising { IsRising key_cmp self.now }
        ensures cost { WithinSteps (length self.now) 8 (C.total steps.old) (C.total steps.new) }
    {
        self.subjects.find(key, steps)
    }

    /// Puts a triple in; false where it was there. After `OutOfMemory` the set is as it was.
    pub fn insert<C: StepCounter>(&mut self, key: Key, steps: &mut C) -> Result<bool, OutOfMemory>
        ensures answer { IfOk result (λ added. added ≡ not (has key_cmp key self.old)) }
        ensures keys { OnOk result (self.new ≡ insert_key key_cmp self.old key) }
        ensures same { IfOk result (λ added. OnFalse added (self.new ≡ self.old)) }
        ensures err { OnErr result (self.new ≡ self.old) }
        ensures rising { IsRising key_cmp self.old }
        ensures forward { C.total steps.old ≤ C.total steps.new }
        ensures cost { (d : ℕ) → length self.old + 1 < 2 ^ d → C.total steps.new ≤ C.total steps.old + 5 * (d + 8) }
    {
        if !self.subjects.insert(key, steps)? {
            return Ok(false);
        }
        let second = key.turned();
        if let Err(refused) = self.predicates.insert(second, steps) {
            self.subjects.remove(key, steps);
            return Err(refused);
        }
        let third = second.turned();
        if let Err(refused) = self.objects.insert(third, steps) {
            self.predicates.remove(second, steps);
            self.subjects.remove(key, steps);
            return Err(refused);
        }
        Ok(true)
    }

    /// Takes a triple out, which takes no memory; false where it wasn't there.
    pub fn remove<C: StepCounter>(&mut self, key: Key, steps: &mut C) -> bool
        ensures answer { result ≡ has key_cmp key self.old }
        ensures keys { self.new ≡ remove_key (eq_by_cmp key_cmp key) self.old }
        ensures rising { IsRising key_cmp self.old }
        ensures forward { C.total steps.old ≤ C.total steps.new }
        ensures cost { (d : ℕ) → length self.old < 2 ^ d → C.total steps.new ≤ C.total steps.old + 3 * (d + 8) }
    {
        let second = key.turned();
        let third = second.turned();
        let there = self.subjects.remove(key, steps);
        self.predicates.remove(second, steps);
        self.objects.remove(third, steps);
        there
    }

    /// The triples that agree with the pattern, each once, in memory of their own: one range of one index. Its bound on steps holds
    /// whatever the answer.
    pub fn range<C: StepCounter>(
        &self,
        pattern: SlotPattern,
        steps: &mut C,
    ) -> Result<List<Key>, OutOfMemory>
        ensures found { IfOk result (λ found. (p : TheKey → Bool) → count_by p found ≡ count_by (λ key. slots_agree pattern key && p key) self.now) }
        ensures rising { IsRising key_cmp self.now }
        ensures cost { WithinSteps (length self.now) (9 + count_by (slots_agree pattern) self.now) (C.total steps.old) (C.total steps.new) }
    {
        if pattern.leads() {
            return leading(&self.subjects, pattern, steps);
        }
        let second = pattern.turned();
        if second.leads() {
            let found = leading(&self.predicates, second, steps)?;
            return Ok(all_turned(all_turned(found)));
        }
        let third = second.turned();
        let found = leading(&self.objects, third, steps)?;
        Ok(all_turned(found))
    }

    /// How many triples agree with the pattern, which takes no memory: the length of one range of one index.
    pub fn range_len<C: StepCounter>(&self, pattern: SlotPattern, steps: &mut C) -> usize
        ensures len { result ≡ count_by (slots_agree pattern) self.now }
        ensures rising { IsRising key_cmp self.now }
        ensures forward { C.total steps.old ≤ C.total steps.new }
        ensures cost { (d : ℕ) → length self.now < 2 ^ d → C.total steps.new ≤ C.total steps.old + 2 * (d + 8) }
    {
        if pattern.leads() {
            return leading_len(&self.subjects, pattern, steps);
        }
        let second = pattern.turned();
        if second.leads() {
            return leading_len(&self.predicates, second, steps);
        }
        let third = second.turned();
        leading_len(&self.objects, third, steps)
    }
}

// The triples of an index that agree with a pattern whose wanted places come before its free ones.
fn leading<C: StepCounter>(
    index: &BlockIndex<Key>,
    pattern: SlotPattern,
    steps: &mut C,
) -> Result<List<Key>, OutOfMemory>
    requires leads { leads pattern ≡ true }
    requires fit { All FitsSlots (keys_of index.now) }
    ensures keys { IfOk result (λ keys. keys ≡ filter (slots_agree pattern) (keys_of index.now)) }
    ensures cost { WithinSteps (length (keys_of index.now)) (9 + count_by (slots_agree pattern) (keys_of index.now)) (C.total steps.old) (C.total steps.new) }
{
    index.range(pattern.low(), pattern.high(), steps)
}

// How many triples of an index agree with a pattern whose wanted places come before its free ones.
fn leading_len<C: StepCounter>(
    index: &BlockIndex<Key>,
    pattern: SlotPattern,
    steps: &mut C,
) -> usize
    requires leads { leads pattern ≡ true }
    requires fit { All FitsSlots (keys_of index.now) }
    ensures len { result ≡ count_by (slots_agree pattern) (keys_of index.now) }
    ensures forward { C.total steps.old ≤ C.total steps.new }
    ensures cost { (d : ℕ) → length (keys_of index.now) < 2 ^ d → C.total steps.new ≤ C.total steps.old + 2 * (d + 8) }
{
    index.range_len(pattern.low(), pattern.high(), steps)
}

// Each triple turned, in its place.
fn all_turned(keys: List<Key>) -> List<Key>
    ensures { result ≡ map turned keys }
{
    let mut keys = keys.into_vec();
    for key in keys.iter_mut() {
        *key = key.turned();
    }
    List::from_vec(keys)
}
