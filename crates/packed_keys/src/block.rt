// A run of keys in memory of its own.

ghost use Rattle.std.specs.Prelude.{◌≡◌, ◌-◌, ◌<◌, ◌≤◌, [], ◌∷◌, ◌++◌, length, slice_index_or, IfOk, OnOk, OnErr};
ghost use Rattle.std.specs.List.{insert, remove};
ghost use Rattle.slot_keys.specs.{declared.key.Key.Key as TheKey};
ghost use Rattle.slot_keys.specs.Keys.{key_cmp};
ghost use Rattle.comparison_steps.specs.Steps.{WithinSteps};
ghost use Rattle.packed_keys.specs.{Rows.IsFilled, Search.EndsAt, Search.IsAfter};

use crate::rows::{Rows, keys_with, rows_of, rows_with};
use base::OutOfMemory;
use comparison_steps::StepCounter;
use slot_keys::Key;
use std::alloc::Global;
use std::marker::Model;
use std::mem;

/// How many keys a block has at most.
pub const MOST: usize = 128;

// Where a full block is cut in two.
const HALF: usize = 64;

/// A run of keys. Contracts see the list of its keys. The first one stands beside their memory too, so that a search
/// among blocks doesn't go there.
#[derive(Drop)]
pub struct Block {
    first: Key,
    rows: Rows,
}

impl Model for Block {
    ghost use Rattle.std.specs.Prelude.{List as Items};
    ghost use Rattle.slot_keys.specs.declared.key.Key.{Key};
    ghost use Rattle.packed_keys.specs.Rows.{IsFirst, keys_of};

    ghost Value = { Items Key };

    ghost view = { λ b. keys_of b.rows };

    ghost invariant = { λ b. IsFirst b.first (keys_of b.rows) };
}

/// The two blocks that a full one becomes.
#[derive(Drop)]
pub struct Halves {
    pub low: Block,
    pub high: Block,
}

impl Block {
    /// The block of one key.
    pub fn one(alloc: Global, key: Key) -> Result<Block, OutOfMemory>
        ensures { IfOk result (λ block. block ≡ key ∷ []) }
    {
        let keys = [key];
        let block = Block::of(alloc, &keys)?;
        Ok(block)
    }

    /// A block of copies, which takes no more memory than they need.
    pub fn of(alloc: Global, copied: &[Key]) -> Result<Block, OutOfMemory>
        requires { 0 < length copied.now }
        ensures { IfOk result (λ block. block ≡ copied.now) }
    {
        let rows = rows_of(alloc, copied)?;
        Ok(Block {
            first: copied[0],
            rows,
        })
    }

    /// The number of keys.
    pub fn len(&self) -> usize
        ensures { result ≡ length self.now }
    {
        self.rows.len()
    }

    /// The key at an index.
    pub fn key(&self, at: usize) -> Key
        requires { at < length self.now }
        ensures { (d : TheKey) → result ≡ slice_index_or self.now at d }
    {
        self.rows.key(at)
    }

    /// The first key.
    pub fn first(&self) -> &Key
        requires { 0 < length self.now }
        ensures { (d : TheKey) → result.now ≡ slice_index_or self.now 0 d }
    {
        &self.first
    }

    /// Finds a key among those from an index on, as std's `binary_search` answers. Each comparison is one step. The key before that index,
    /// if any, is below it.
    pub fn search<S: StepCounter>(
        &self,
        start: usize,
        key: &Key,
        steps: &mut S,
    ) -> Result<usize, usize>
        requires within { start ≤ length self.now }
        requires above { IsAfter (key_cmp key.now) self.now start }
        ensures ends { EndsAt (key_cmp key.now) self.now start result }
        ensures cost { WithinSteps (length self.now - start) 0 (S.total steps.old) (S.total steps.new) }
    {
        self.rows.search(start, key, steps)
    }

    /// Puts all keys behind others.
    pub fn append_to(&self, others: &mut Vec<Key>) -> Result<(), OutOfMemory>
        ensures { OnOk result (others.new.items ≡ others.old.items ++ self.now) }
    {
        self.rows.append_to(others)
    }

    /// Puts a key at an index, and moves those from there on up by one; after `OutOfMemory` the block is as it was.
    pub fn insert(&mut self, alloc: Global, at: usize, key: Key) -> Result<(), OutOfMemory>
        requires within { at ≤ length self.old }
        requires some { 0 < length self.old }
        ensures ok { OnOk result (self.new ≡ insert self.old at key) }
        ensures err { OnErr result (self.new ≡ self.old) }
    {
        if self.rows.insert(at, key)? {
            self.first = if at == 0 { key } else { self.first };
            return Ok(());
        }
        let rows = rows_with(alloc, &self.rows, at, key)?;
        drop(mem::replace(&mut self.rows, rows));
        self.first = if at == 0 { key } else { self.first };
        Ok(())
    }

    /// Takes the key at an index out, which isn't the only one.
    pub fn remove(&mut self, at: usize)
        requires within { at < length self.old }
        requires some { 1 < length self.old }
        ensures { self.new ≡ remove self.old at }
    {
        self.rows.remove(at);
        self.first = if at == 0 {
            self.rows.key(0)
        } else {
            self.first
        };
    }

    /// The two halves of a full block with one more key.
    pub fn halves(&self, alloc: Global, at: usize, key: Key) -> Result<Halves, OutOfMemory>
        requires full { length self.now ≡ 128 }
        requires within { at ≤ 128 }
        ensures keys { IfOk result (λ halves. halves.low ++ halves.high ≡ insert self.now at key) }
        ensures low { IfOk result (λ halves. IsFilled halves.low) }
        ensures high { IfOk result (λ halves. IsFilled halves.high) }
    {
        let keys = keys_with(alloc, &self.rows, at, key)?;
        let halves = cut(alloc, keys.as_slice());
        drop(keys);
        halves
    }
}

// The blocks of the first 64 of 129 keys and of the others.
fn cut(alloc: Global, keys: &[Key]) -> Result<Halves, OutOfMemory>
    requires { length keys.now ≡ 129 }
    ensures keys { IfOk result (λ halves. halves.low ++ halves.high ≡ keys.now) }
    ensures low { IfOk result (λ halves. IsFilled halves.low) }
    ensures high { IfOk result (λ halves. IsFilled halves.high) }
{
    let low = Block::of(alloc, &keys[..HALF])?;
    match Block::of(alloc, &keys[HALF..]) {
        Ok(high) => Ok(Halves { low, high }),
        Err(refused) => {
            drop(low);
            Err(refused)
        }
    }
}
