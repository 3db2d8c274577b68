// The set of keys.

ghost use Rattle.std.specs.Prelude.{◌≡◌, ℕ, ◌+◌, ◌*◌, ◌^◌, ◌<◌, ◌≤◌, not, [], length, slice_index_or, IfOk, OnOk, OnErr};
ghost use Rattle.std.specs.{Bool.OnFalse, Ordering.eq_by_cmp, BTreeSet.insert_key, Set.remove_key};
ghost use Rattle.sorted_sets.specs.Rising.{IsRising, has};
ghost use Rattle.comparison_steps.specs.Steps.{WithinSteps};
ghost use Rattle.block_index.specs.{Blocks.AreFilled, Blocks.ChangesTwo, Blocks.keys_between, Blocks.keys_of};

use crate::counting::count_between;
use crate::edit::{put_in, take_out};
use crate::group::{Group, block_at, count_blocks};
use crate::search::{behind, locate};
use crate::taking::take_from;
use base::{List, OutOfMemory};
use comparison_steps::{Ranked, StepCounter};
use std::alloc::Global;
use std::marker::Model;

/// A set of keys in rising order, in blocks of 1 to 128 keys. Contracts see the list of its blocks, and by
/// `keys_of` the list of its keys. The blocks stand in groups of 64 to 128, so that a block that comes or goes
/// moves few others. Steps are stated with the number of binary digits of the number of keys
/// at entry: each d with fewer than 2^d keys bounds it.
#[derive(Drop)]
pub struct BlockIndex<K: Ranked> {
    alloc: Global,
    groups: Vec<Group<K>>,
    count: usize,
}

impl<K: Ranked> Model for BlockIndex<K> {
    ghost use Rattle.std.specs.Prelude.{List};
    ghost use Rattle.block_index.specs.{Blocks.keys_of, Groups.IsGroupedIndex};

    ghost Value = { List (List K) };

    ghost view = { λ s. keys_of s.groups.items };

    ghost invariant = { λ s. IsGroupedIndex K.cmp s.groups.items s.count };
}

impl<K: Ranked> BlockIndex<K> {
    /// The index without keys, which takes no memory.
    pub fn new(alloc: Global) -> BlockIndex<K>
        ensures { result ≡ [] }
    {
        BlockIndex {
            alloc,
            groups: Vec::new(alloc),
            count: 0,
        }
    }

    /// The number of keys.
    pub fn len(&self) -> usize
        ensures { result ≡ length (keys_of self.now) }
    {
        self.count
    }

    /// The number of blocks. Each has 1 to 128 keys, and one after the other they are the keys in rising order.
    pub fn blocks(&self) -> usize
        ensures blocks { result ≡ length self.now }
        ensures filled { AreFilled self.now }
        ensures rising { IsRising K.cmp (keys_of self.now) }
    {
        // There are no more blocks than keys, whose number fits.
        let _keys = self.count;
        count_blocks(&self.groups)
    }

    /// The keys of the block at an index from 0.
    pub fn block(&self, index: usize) -> &[K]
        requires { index < length self.now }
        ensures { result.now ≡ slice_index_or self.now index [] }
    {
        block_at(&self.groups, index).keys()
    }

    /// Whether the key is there, which takes no memory. It takes at most as many steps as the number of keys
    /// has binary digits, and 8 more.
    pub fn find<C: StepCounter>(&self, key: K, steps: &mut C) -> bool
        ensures answer { result ≡ has K.cmp key (keys_of self.now) }
        ensures cost { WithinSteps (length (keys_of self.now)) 8 (C.total steps.old) (C.total steps.new) }
    {
        locate(&self.groups, &key, steps).found
    }

    /// Puts a key in; false if it was there. After `OutOfMemory`, or if the key was there, nothing has changed. Otherwise at most two
    /// neighbouring blocks changed, in whose place at most two stand. It takes at most as many steps as the number of keys has binary
    /// digits, and 8 more.
    pub fn insert<C: StepCounter>(&mut self, key: K, steps: &mut C) -> Result<bool, OutOfMemory>
        ensures answer { IfOk result (λ added. added ≡ not (has K.cmp key (keys_of self.old))) }
        ensures keys { OnOk result (keys_of self.new ≡ insert_key K.cmp (keys_of self.old) key) }
        ensures same { IfOk result (λ added. OnFalse added (self.new ≡ self.old)) }
        ensures blocks { OnOk result (ChangesTwo self.old self.new) }
        ensures err { OnErr result (self.new ≡ self.old) }
        ensures cost { WithinSteps (length (keys_of self.old)) 8 (C.total steps.old) (C.total steps.new) }
    {
        let position = locate(&self.groups, &key, steps);
        if position.found {
            return Ok(false);
        }
        let Some(count) = self.count.checked_add(1) else {
            return Err(OutOfMemory);
        };
        put_in(self.alloc, &mut self.groups, position, key)?;
        self.count = count;
        Ok(true)
    }

    /// Takes a key out, which takes no memory; false where it wasn't there, and then nothing has changed. At most two
    /// neighbouring blocks change. It takes at most as many steps as the number of keys has binary digits, and 8 more.
    pub fn remove<C: StepCounter>(&mut self, key: K, steps: &mut C) -> bool
        ensures answer { result ≡ has K.cmp key (keys_of self.old) }
        ensures keys { keys_of self.new ≡ remove_key (eq_by_cmp K.cmp key) (keys_of self.old) }
        ensures same { OnFalse result (self.new ≡ self.old) }
        ensures blocks { ChangesTwo self.old self.new }
        ensures cost { WithinSteps (length (keys_of self.old)) 8 (C.total steps.old) (C.total steps.new) }
    {
        let position = locate(&self.groups, &key, steps);
        if !position.found {
            return false;
        }
        take_out(&mut self.groups, position);
        self.count -= 1;
        true
    }

    /// The keys from `from` to `to` in rising order, both ends included, in memory of their own. Whatever the answer, it takes at
    /// most as many steps as the number of keys has binary digits, 9 more, and one for each key of that range.
    pub fn range<C: StepCounter>(
        &self,
        from: K,
        to: K,
        steps: &mut C,
    ) -> Result<List<K>, OutOfMemory>
        ensures keys { IfOk result (λ keys. keys ≡ keys_between K.cmp from to (keys_of self.now)) }
        ensures cost { WithinSteps (length (keys_of self.now)) (9 + length (keys_between K.cmp from to (keys_of self.now))) (C.total steps.old) (C.total steps.new) }
    {
        let groups = self.groups.as_slice();
        let position = locate(groups, &from, steps);
        let mut keys = Vec::new(self.alloc);
        if groups.is_empty() {
            return Ok(List::from_vec(keys));
        }
        take_from(groups, position, &to, &mut keys, steps)?;
        Ok(List::from_vec(keys))
    }

    /// How many keys there are from `from` to `to`, both ends included, which takes no memory: their two positions are found. It
    /// takes at most twice as many steps as the number of keys has binary digits, and 16 more.
    pub fn range_len<C: StepCounter>(&self, from: K, to: K, steps: &mut C) -> usize
        ensures len { result ≡ length (keys_between K.cmp from to (keys_of self.now)) }
        ensures forward { C.total steps.old ≤ C.total steps.new }
        ensures cost { (d : ℕ) → length (keys_of self.now) < 2 ^ d → C.total steps.new ≤ C.total steps.old + 2 * (d + 8) }
    {
        // The number of all keys fits.
        let _keys = self.count;
        let groups = self.groups.as_slice();
        let low = locate(groups, &from, steps);
        let high = locate(groups, &to, steps);
        if groups.is_empty() {
            return 0;
        }
        count_between(groups, low, behind(high))
    }
}
