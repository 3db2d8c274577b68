// A run of blocks in memory of its own.

ghost use Rattle.std.specs.Prelude.{◌≡◌, ◌+◌, ◌^◌, ◌<◌, ◌≤◌, [], ◌∷◌, ◌++◌, length, slice_index_or, IfOk, OnOk, OnErr};
ghost use Rattle.std.specs.List.{insert, remove};
ghost use Rattle.block_index.specs.{Blocks.AreFilled, Blocks.keys_of, Edit.Edits, Groups.AreEvened, Search.first_at};

use crate::block::{Block, Halves, MOST};
use base::OutOfMemory;
use std::alloc::Global;
use std::marker::Model;

/// How many blocks a group has at most.
pub const MOST_BLOCKS: usize = 128;

/// How many blocks each of several groups has at least, and where a full group is cut in two.
pub const HALF_BLOCKS: usize = 64;

/// A run of blocks. Contracts see the list of its blocks. It has room for 128 from the start, so that blocks can move between
/// groups without new memory.
#[derive(Drop)]
pub struct Group<K> {
    blocks: Vec<Block<K>>,
}

impl<K> Model for Group<K> {
    ghost use Rattle.std.specs.Prelude.{List, ◌≤◌, vec_capacity};

    ghost Value = { List (List K) };

    ghost view = { λ g. g.blocks.items };

    ghost invariant = { λ g. 128 ≤ vec_capacity g.blocks };
}

impl<K: Copy> Group<K> {
    /// The group of one block of one key.
    pub fn one(alloc: Global, key: K) -> Result<Group<K>, OutOfMemory>
        ensures { IfOk result (λ group. group ≡ (key ∷ []) ∷ []) }
    {
        let block = Block::one(alloc, key)?;
        let mut blocks = Vec::with_capacity(alloc, MOST_BLOCKS)?;
        blocks.push(block)?;
        Ok(Group { blocks })
    }

    /// The number of blocks.
    pub fn len(&self) -> usize
        ensures { result ≡ length self.now }
    {
        self.blocks.len()
    }

    /// The blocks in order.
    pub fn blocks(&self) -> &[Block<K>]
        ensures { result.now ≡ self.now }
    {
        self.blocks.as_slice()
    }

    /// The first key.
    pub fn first(&self) -> &K
        requires some { 0 < length self.now }
        requires filled { AreFilled self.now }
        ensures { (d : K) → result.now ≡ first_at self.now 0 d }
    {
        self.blocks[0].first()
    }

    /// Puts a key into a block at an index; a full block becomes two. After `OutOfMemory` the blocks are as they were.
    pub fn put_in(
        &mut self,
        alloc: Global,
        block: usize,
        at: usize,
        key: K,
    ) -> Result<(), OutOfMemory>
        requires filled { AreFilled self.old }
        requires inside { block < length self.old }
        requires within { at ≤ length (slice_index_or self.old block []) }
        requires room { length self.old < 128 }
        ensures ok { OnOk result (Edits self.old self.new block (insert (slice_index_or self.old block []) at key)) }
        ensures grown { (length self.old ≤ length self.new) × (length self.new ≤ length self.old + 1) }
        ensures err { OnErr result (self.new ≡ self.old) }
    {
        if self.blocks[block].len() < MOST {
            self.blocks[block].insert(at, key)?;
            return Ok(());
        }
        let Halves { low, high } = self.blocks[block].halves(alloc, at, key)?;
        self.blocks.insert(block + 1, high)?;
        self.blocks[block] = low;
        Ok(())
    }

    /// Takes the key at an index of a block out, and the block with it where it was the only key.
    pub fn take_out(&mut self, block: usize, at: usize)
        requires filled { AreFilled self.old }
        requires inside { block < length self.old }
        requires within { at < length (slice_index_or self.old block []) }
        ensures edits { Edits self.old self.new block (remove (slice_index_or self.old block []) at) }
        ensures shrunk { (length self.old ≤ length self.new + 1) × (length self.new ≤ length self.old) }
    {
        if self.blocks[block].len() == 1 {
            self.blocks.remove(block);
        } else {
            self.blocks[block].remove(at);
        }
    }

    /// Gives the upper half of a full group away, as a group of its own; after `OutOfMemory` the group is as it was.
    pub fn split(&mut self, alloc: Global) -> Result<Group<K>, OutOfMemory>
        requires { length self.old ≡ 128 }
        ensures parts { IfOk result (λ upper. self.new ++ upper ≡ self.old) }
        ensures low { OnOk result (length self.new ≡ 64) }
        ensures high { IfOk result (λ upper. length upper ≡ 64) }
        ensures err { OnErr result (self.new ≡ self.old) }
    {
        let mut upper = Vec::with_capacity(alloc, MOST_BLOCKS)?;
        let mut moved = self.blocks.split_off(HALF_BLOCKS)?;
        upper.append(&mut moved)?;
        Ok(Group { blocks: upper })
    }

    /// Evens out two neighbouring groups of which one has a block too few: one takes a block from the other, or the first takes
    /// all. It takes no memory, since each group has room for all its blocks.
    pub fn even_out(&mut self, next: &mut Group<K>)
        requires few { length self.old + length next.old ≤ 191 }
        requires many { 127 ≤ length self.old + length next.old }
        requires near { (63 ≤ length self.old) × (63 ≤ length next.old) }
        ensures { AreEvened self.old next.old self.new next.new }
    {
        if self.blocks.len() + next.blocks.len() <= MOST_BLOCKS {
            let _all = self.blocks.append(&mut next.blocks);
        } else if self.blocks.len() < next.blocks.len() {
            let first = next.blocks.remove(0);
            let _there = self.blocks.push(first);
        } else if let Some(last) = self.blocks.pop() {
            let _there = next.blocks.insert(0, last);
        }
    }
}

/// The number of the groups' blocks.
pub fn count_blocks<K: Copy>(groups: &[Group<K>]) -> usize
    requires { length (keys_of groups.now) < 2 ^ 64 }
    ensures { result ≡ length (keys_of groups.now) }
{
    let mut blocks = 0;
    for group in groups {
        blocks += group.len();
    }
    blocks
}

/// The block at an index among the blocks of all groups.
pub fn block_at<K: Copy>(groups: &[Group<K>], index: usize) -> &Block<K>
    requires { index < length (keys_of groups.now) }
    ensures { result.now ≡ slice_index_or (keys_of groups.now) index [] }
{
    let mut group = 0;
    let mut left = index;
    while left >= groups[group].len() {
        left -= groups[group].len();
        group += 1;
    }
    &groups[group].blocks()[left]
}
