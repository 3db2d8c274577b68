// A run of keys in memory of its own.

ghost use Rattle.std.specs.Prelude.{◌≡◌, ◌+◌, ◌<◌, ◌≤◌, [], ◌∷◌, ◌++◌, length, slice_index_or, IfOk, OnOk, OnErr};
ghost use Rattle.std.specs.List.{insert, remove};
ghost use Rattle.block_index.specs.Blocks.{IsFilled};

use base::OutOfMemory;
use std::alloc::Global;
use std::marker::Model;

/// How many keys a block has at most.
pub const MOST: usize = 128;

// Where a full block is cut in two.
const HALF: usize = 64;

// How many keys of room a full block gets at once.
const GROWTH: usize = 16;

/// A run of keys. Contracts see the list of its keys. The first one stands beside their memory too, so that a search
/// among blocks doesn't go there.
#[derive(Drop)]
pub struct Block<K> {
    first: K,
    keys: Vec<K>,
}

impl<K> Model for Block<K> {
    ghost use Rattle.std.specs.Prelude.{List};
    ghost use Rattle.block_index.specs.Blocks.{IsFirst};

    ghost Value = { List K };

    ghost view = { λ b. b.keys.items };

    ghost invariant = { λ b. IsFirst b.first b.keys.items };
}

/// The two blocks that a full one becomes.
#[derive(Drop)]
pub struct Halves<K> {
    pub low: Block<K>,
    pub high: Block<K>,
}

impl<K: Copy> Block<K> {
    /// The block of one key.
    pub fn one(alloc: Global, key: K) -> Result<Block<K>, OutOfMemory>
        ensures { IfOk result (λ block. block ≡ key ∷ []) }
    {
        let mut keys = Vec::with_capacity(alloc, 1)?;
        keys.push(key)?;
        Ok(Block { first: key, keys })
    }

    // A block of copies, which takes no more memory than they need.
    fn of(alloc: Global, copied: &[K]) -> Result<Block<K>, OutOfMemory>
        requires { 0 < length copied.now }
        ensures { IfOk result (λ block. block ≡ copied.now) }
    {
        let mut keys = Vec::with_capacity(alloc, copied.len())?;
        keys.extend_from_slice(copied)?;
        Ok(Block {
            first: copied[0],
            keys,
        })
    }

    /// The number of keys.
    pub fn len(&self) -> usize
        ensures { result ≡ length self.now }
    {
        self.keys.len()
    }

    /// The keys in order.
    pub fn keys(&self) -> &[K]
        ensures { result.now ≡ self.now }
    {
        self.keys.as_slice()
    }

    /// The first key.
    pub fn first(&self) -> &K
        requires { 0 < length self.now }
        ensures { (d : K) → result.now ≡ slice_index_or self.now 0 d }
    {
        &self.first
    }

    /// Puts a key at a place, and moves those from there on up by one; after `OutOfMemory` the block is as it was.
    pub fn insert(&mut self, at: usize, key: K) -> Result<(), OutOfMemory>
        requires within { at ≤ length self.old }
        requires some { 0 < length self.old }
        ensures ok { OnOk result (self.new ≡ insert self.old at key) }
        ensures err { OnErr result (self.new ≡ self.old) }
    {
        make_room(&mut self.keys)?;
        self.keys.insert(at, key)?;
        self.first = if at == 0 { key } else { self.first };
        Ok(())
    }

    /// Takes the key at a place out, which isn't the only one.
    pub fn remove(&mut self, at: usize)
        requires within { at < length self.old }
        requires some { 1 < length self.old }
        ensures { self.new ≡ remove self.old at }
    {
        self.keys.remove(at);
        self.first = if at == 0 { self.keys[0] } else { self.first };
    }

    /// The two halves of a full block with one more key.
    pub fn halves(&self, alloc: Global, at: usize, key: K) -> Result<Halves<K>, OutOfMemory>
        requires full { length self.now ≡ 128 }
        requires within { at ≤ 128 }
        ensures keys { IfOk result (λ halves. halves.low ++ halves.high ≡ insert self.now at key) }
        ensures low { IfOk result (λ halves. IsFilled halves.low) }
        ensures high { IfOk result (λ halves. IsFilled halves.high) }
    {
        let keys = self.keys.as_slice();
        let mut low = Block::of(alloc, &keys[..HALF])?;
        let mut high = Block::of(alloc, &keys[HALF..])?;
        if at <= HALF {
            low.insert(at, key)?;
            return Ok(Halves { low, high });
        }
        high.insert(at - HALF, key)?;
        Ok(Halves { low, high })
    }
}

// Makes room for one more key; after `OutOfMemory` the keys are as they were.
fn make_room<K>(keys: &mut Vec<K>) -> Result<(), OutOfMemory>
    ensures { keys.new.items ≡ keys.old.items }
{
    if keys.len() == keys.capacity() {
        keys.reserve_exact(GROWTH)?;
    }
    Ok(())
}
