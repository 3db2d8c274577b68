// The keys of a block, in cells of the smallest size that has them all.

ghost use Rattle.std.specs.Prelude.{◌≡◌, ◌-◌, ◌<◌, ◌≤◌, ◌++◌, cond, length, slice_index_or, IfNone, IfOk, IfSome, OnOk, OnErr};
ghost use Rattle.std.specs.List.{insert, remove};
ghost use Rattle.slot_keys.specs.{declared.key.Key.Key as TheKey};
ghost use Rattle.slot_keys.specs.Keys.{key_cmp};
ghost use Rattle.comparison_steps.specs.Steps.{WithinSteps};
ghost use Rattle.packed_keys.specs.{Rows.keys_of, Search.EndsAt, Search.IsAfter};

use crate::cell::SixBytes;
use crate::packed::Packed;
use crate::spread::{Choice, choice_for};
use base::OutOfMemory;
use comparison_steps::{Ranked, StepCounter};
use slot_keys::Key;
use std::alloc::Global;
use std::cmp::Ordering;

/// Keys in cells of 4, 6 or 8 bytes, or as they are.
#[derive(Drop)]
pub enum Rows {
    Narrow(Packed<u32>),
    Middle(Packed<SixBytes>),
    Wide(Packed<u64>),
    Whole(Vec<Key>),
}

/// The rows of these keys, in no more memory than they need.
pub fn rows_of(alloc: Global, keys: &[Key]) -> Result<Rows, OutOfMemory>
    ensures { IfOk result (λ rows. keys_of rows ≡ keys.now) }
{
    let Choice { frame, bits } = choice_for(keys);
    if bits <= 32 {
        if let Some(packed) = Packed::new(alloc, frame, keys)? {
            return Ok(Rows::Narrow(packed));
        }
    } else if bits <= 48 {
        if let Some(packed) = Packed::new(alloc, frame, keys)? {
            return Ok(Rows::Middle(packed));
        }
    } else if bits <= 64 {
        if let Some(packed) = Packed::new(alloc, frame, keys)? {
            return Ok(Rows::Wide(packed));
        }
    }
    let mut whole = Vec::with_capacity(alloc, keys.len())?;
    whole.extend_from_slice(keys)?;
    Ok(Rows::Whole(whole))
}

impl Rows {
    /// The number of keys.
    pub fn len(&self) -> usize
        ensures { result ≡ length (keys_of self.now) }
    {
        match self {
            Rows::Narrow(keys) => keys.len(),
            Rows::Middle(keys) => keys.len(),
            Rows::Wide(keys) => keys.len(),
            Rows::Whole(keys) => keys.len(),
        }
    }

    /// The key at an index.
    pub fn key(&self, at: usize) -> Key
        requires { at < length (keys_of self.now) }
        ensures { (d : TheKey) → result ≡ slice_index_or (keys_of self.now) at d }
    {
        match self {
            Rows::Narrow(keys) => keys.key(at),
            Rows::Middle(keys) => keys.key(at),
            Rows::Wide(keys) => keys.key(at),
            Rows::Whole(keys) => keys[at],
        }
    }

    /// Finds a key among those from an index on, as std's `binary_search` answers. Each comparison is one step. The key before that index,
    /// if any, is below it.
    pub fn search<S: StepCounter>(
        &self,
        start: usize,
        key: &Key,
        steps: &mut S,
    ) -> Result<usize, usize>
        requires within { start ≤ length (keys_of self.now) }
        requires above { IsAfter (key_cmp key.now) (keys_of self.now) start }
        ensures ends { EndsAt (key_cmp key.now) (keys_of self.now) start result }
        ensures cost { WithinSteps (length (keys_of self.now) - start) 0 (S.total steps.old) (S.total steps.new) }
    {
        match self.search_numbers(start, key, steps) {
            Some(ended) => ended,
            None => self.search_keys(start, key, steps),
        }
    }

    // The same by the key's number; none where it has none, and then without a step.
    fn search_numbers<S: StepCounter>(
        &self,
        start: usize,
        key: &Key,
        steps: &mut S,
    ) -> Option<Result<usize, usize>>
        requires within { start ≤ length (keys_of self.now) }
        requires above { IsAfter (key_cmp key.now) (keys_of self.now) start }
        ensures ends { IfSome result (EndsAt (key_cmp key.now) (keys_of self.now) start) }
        ensures cost { IfSome result (λ _. WithinSteps (length (keys_of self.now) - start) 0 (S.total steps.old) (S.total steps.new)) }
        ensures none { IfNone result (S.total steps.new ≡ S.total steps.old) }
    {
        match self {
            Rows::Narrow(keys) => keys.search(start, *key, steps),
            Rows::Middle(keys) => keys.search(start, *key, steps),
            Rows::Wide(keys) => keys.search(start, *key, steps),
            Rows::Whole(_) => None,
        }
    }

    // The same by the keys.
    fn search_keys<S: StepCounter>(
        &self,
        start: usize,
        key: &Key,
        steps: &mut S,
    ) -> Result<usize, usize>
        requires within { start ≤ length (keys_of self.now) }
        requires above { IsAfter (key_cmp key.now) (keys_of self.now) start }
        ensures ends { EndsAt (key_cmp key.now) (keys_of self.now) start result }
        ensures cost { WithinSteps (length (keys_of self.now) - start) 0 (S.total steps.old) (S.total steps.new) }
    {
        let mut low = start;
        let mut high = self.len();
        while low < high {
            let middle = low + (high - low) / 2;
            let here = self.key(middle);
            match key.rank(&here, steps) {
                Ordering::Less => high = middle,
                Ordering::Equal => return Ok(middle),
                Ordering::Greater => low = middle + 1,
            }
        }
        Err(low)
    }

    /// Puts a key in at an index. Where the cells are too small for it, it answers false, and nothing has changed; after `OutOfMemory`
    /// neither.
    pub fn insert(&mut self, at: usize, key: Key) -> Result<bool, OutOfMemory>
        requires { at ≤ length (keys_of self.old) }
        ensures ok { IfOk result (λ done. keys_of self.new ≡ cond done (insert (keys_of self.old) at key) (keys_of self.old)) }
        ensures err { OnErr result (keys_of self.new ≡ keys_of self.old) }
    {
        match self {
            Rows::Narrow(keys) => keys.insert(at, key),
            Rows::Middle(keys) => keys.insert(at, key),
            Rows::Wide(keys) => keys.insert(at, key),
            Rows::Whole(keys) => put_whole(keys, at, key),
        }
    }

    /// Takes the key at an index out.
    pub fn remove(&mut self, at: usize)
        requires { at < length (keys_of self.old) }
        ensures { keys_of self.new ≡ remove (keys_of self.old) at }
    {
        match self {
            Rows::Narrow(keys) => keys.remove(at),
            Rows::Middle(keys) => keys.remove(at),
            Rows::Wide(keys) => keys.remove(at),
            Rows::Whole(keys) => take_whole(keys, at),
        }
    }

    /// Puts all keys behind others.
    pub fn append_to(&self, others: &mut Vec<Key>) -> Result<(), OutOfMemory>
        ensures { OnOk result (others.new.items ≡ others.old.items ++ keys_of self.now) }
    {
        match self {
            Rows::Narrow(keys) => keys.append_to(others),
            Rows::Middle(keys) => keys.append_to(others),
            Rows::Wide(keys) => keys.append_to(others),
            Rows::Whole(keys) => append_whole(keys, others),
        }
    }
}

// Puts a key in among keys as they are.
fn put_whole(keys: &mut Vec<Key>, at: usize, key: Key) -> Result<bool, OutOfMemory>
    requires { at ≤ length keys.old.items }
    ensures ok { IfOk result (λ done. keys.new.items ≡ cond done (insert keys.old.items at key) keys.old.items) }
    ensures err { OnErr result (keys.new.items ≡ keys.old.items) }
{
    keys.insert(at, key)?;
    Ok(true)
}

// Takes a key out from among keys as they are.
fn take_whole(keys: &mut Vec<Key>, at: usize)
    requires { at < length keys.old.items }
    ensures { keys.new.items ≡ remove keys.old.items at }
{
    keys.remove(at);
}

// Puts keys as they are behind others.
fn append_whole(keys: &Vec<Key>, others: &mut Vec<Key>) -> Result<(), OutOfMemory>
    ensures { OnOk result (others.new.items ≡ others.old.items ++ keys.now.items) }
{
    others.extend_from_slice(keys.as_slice())?;
    Ok(())
}

/// The keys with one more at an index, as they are.
pub fn keys_with(alloc: Global, rows: &Rows, at: usize, key: Key) -> Result<Vec<Key>, OutOfMemory>
    requires { at ≤ length (keys_of rows.now) }
    ensures { IfOk result (λ keys. keys.items ≡ insert (keys_of rows.now) at key) }
{
    let mut keys = Vec::with_capacity(alloc, rows.len().saturating_add(1))?;
    rows.append_to(&mut keys)?;
    keys.insert(at, key)?;
    Ok(keys)
}

/// The rows of the keys with one more at an index, in no more memory than they need.
pub fn rows_with(alloc: Global, rows: &Rows, at: usize, key: Key) -> Result<Rows, OutOfMemory>
    requires { at ≤ length (keys_of rows.now) }
    ensures { IfOk result (λ made. keys_of made ≡ insert (keys_of rows.now) at key) }
{
    let keys = keys_with(alloc, rows, at, key)?;
    let made = rows_of(alloc, keys.as_slice());
    drop(keys);
    made
}
