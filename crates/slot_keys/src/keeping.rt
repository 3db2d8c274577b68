// Keys that stay, in one list with those that were met.

ghost use Rattle.std.specs.Prelude.{◌≡◌, ◌++◌, ◌<◌, ◌≤◌, true, false, length, nat_lt, IfOk};
ghost use Rattle.std.specs.Prelude.{map as mapped};
ghost use Rattle.sorted_sets.specs.Rising.{IsRising, difference, has, sorted};
ghost use Rattle.slot_keys.specs.{declared.key.Key.Key as TheKey, Keys.key_cmp, Marks.marked, KeyCounts.count_beside, KeyCounts.counted_keys};

use crate::counting::no_counts;
use crate::finding::index_from;
use crate::key::Key;
use crate::keys::{KeySlices, Keys, NOWHERE, Parted, index_in, places_of, put_in_order, put_last};
use crate::laying::{Laid, Sources, laid_in_one};
use crate::meeting::Met;
use base::OutOfMemory;
use std::alloc::Global;

/// The keys that an owner had, and what is left of their counts: a key with a count stays.
#[derive(Clone, Copy)]
pub struct Left<'a> {
    pub keys: KeySlices<'a>,
    pub counts: &'a [u16],
}

/// The keys that an owner has from now on, what is left of the count of each, and the old keys that are gone.
#[derive(Drop)]
pub struct KeysBeside {
    pub keys: Keys,
    pub counts: Vec<u16>,
    pub gone: Vec<Key>,
}

/// The keys that were met and those that stay, in order, each once. What stays needs no look-up, no search and no sorting. Without counts no
/// key stays.
pub fn keys_beside(alloc: Global, left: Left<'_>, met: &Met) -> Result<KeysBeside, OutOfMemory>
    requires rising { IsRising key_cmp left.keys.rising.now }
    requires as_many { 0 < length left.counts.now → length left.counts.now ≡ length left.keys.rising.now }
    ensures keys { IfOk result (λ done. done.keys.rising.items ≡ sorted key_cmp (met.now.keys.items ++ counted_keys left.entry.keys.rising.now left.entry.counts.now)) }
    ensures counts { IfOk result (λ done. done.counts.items ≡ mapped (count_beside left.entry.keys.rising.now left.entry.counts.now) done.keys.rising.items) }
    ensures rising { IfOk result (λ done. IsRising key_cmp done.gone.items) }
    ensures had { IfOk result (λ done. (key : TheKey) → has key_cmp key done.gone.items ≡ true → has key_cmp key left.entry.keys.rising.now ≡ true) }
    ensures few { IfOk result (λ done. length done.gone.items ≤ length left.entry.keys.rising.now) }
    ensures gone { IfOk result (λ done. difference key_cmp done.gone.items done.keys.rising.items ≡ difference key_cmp left.entry.keys.rising.now done.keys.rising.items) }
{
    if left.counts.len() == left.keys.rising.len() {
        return counted_beside(alloc, left, met);
    }
    let none = no_counts(alloc, left.keys.rising.len())?;
    let none_left = Left {
        keys: left.keys,
        counts: none.as_slice(),
    };
    let done = counted_beside(alloc, none_left, met)?;
    Ok(done)
}

// The same where each key has a count.
fn counted_beside(alloc: Global, left: Left<'_>, met: &Met) -> Result<KeysBeside, OutOfMemory>
    requires rising { IsRising key_cmp left.keys.rising.now }
    requires as_many { length left.counts.now ≡ length left.keys.rising.now }
    ensures keys { IfOk result (λ done. done.keys.rising.items ≡ sorted key_cmp (met.now.keys.items ++ counted_keys left.entry.keys.rising.now left.entry.counts.now)) }
    ensures counts { IfOk result (λ done. done.counts.items ≡ mapped (count_beside left.entry.keys.rising.now left.entry.counts.now) done.keys.rising.items) }
    ensures rising { IfOk result (λ done. IsRising key_cmp done.gone.items) }
    ensures had { IfOk result (λ done. (key : TheKey) → has key_cmp key done.gone.items ≡ true → has key_cmp key left.entry.keys.rising.now ≡ true) }
    ensures few { IfOk result (λ done. length done.gone.items ≤ length left.entry.keys.rising.now) }
    ensures gone { IfOk result (λ done. difference key_cmp done.gone.items done.keys.rising.items ≡ difference key_cmp left.entry.keys.rising.now done.keys.rising.items) }
{
    let parted = parted_beside(alloc, left, met)?;
    let sources = Sources {
        old: left.keys.rising,
        counts: left.counts,
        stays: parted.kept.as_slice(),
        others: parted.rest.as_slice(),
    };
    let laid = laid_in_one(alloc, sources)?;
    let Laid {
        keys,
        counts,
        gone,
        moved,
    } = laid;
    let walk = match walk_beside(alloc, left.keys, met, keys.as_slice(), moved) {
        Ok(walk) => walk,
        Err(_) => Vec::new(alloc),
    };
    Ok(KeysBeside {
        keys: Keys { rising: keys, walk },
        counts,
        gone,
    })
}

// The old keys that stay or were met, by marks, and all other keys that were met, in order, each once.
fn parted_beside(alloc: Global, left: Left<'_>, met: &Met) -> Result<Parted, OutOfMemory>
    requires rising { IsRising key_cmp left.keys.rising.now }
    requires as_many { length left.counts.now ≡ length left.keys.rising.now }
    ensures len { IfOk result (λ parted. length parted.kept.items ≡ length left.entry.keys.rising.now) }
    ensures rising { IfOk result (λ parted. IsRising key_cmp parted.rest.items) }
    ensures same { IfOk result (λ parted. sorted key_cmp (marked left.entry.keys.rising.now parted.kept.items ++ parted.rest.items) ≡ sorted key_cmp (met.now.keys.items ++ counted_keys left.entry.keys.rising.now left.entry.counts.now)) }
    ensures apart { IfOk result (λ parted. (key : TheKey) → has key_cmp key left.entry.keys.rising.now ≡ true → has key_cmp key parted.rest.items ≡ false) }
{
    let marks = marks_of(alloc, left.counts)?;
    let mut parted = split_beside(
        alloc,
        left.keys.rising,
        marks,
        met.keys.as_slice(),
        met.old_indices.as_slice(),
    )?;
    put_in_order(&mut parted.rest)?;
    Ok(parted)
}

// The old keys that are marked or were met, by marks, and all other keys that were met.
fn split_beside(
    alloc: Global,
    old: &[Key],
    marks: Vec<bool>,
    met: &[Key],
    old_indices: &[u32],
) -> Result<Parted, OutOfMemory>
    requires rising { IsRising key_cmp old.now }
    requires as_many { length marks.items ≡ length old.now }
    ensures len { IfOk result (λ parted. length parted.kept.items ≡ length old.now) }
    ensures same { IfOk result (λ parted. (key : TheKey) → has key_cmp key (marked old.now parted.kept.items ++ parted.rest.items) ≡ has key_cmp key (met.now ++ marked old.now marks.items)) }
    ensures apart { IfOk result (λ parted. (key : TheKey) → has key_cmp key old.now ≡ true → has key_cmp key parted.rest.items ≡ false) }
{
    let mut kept = marks;
    let mut rest = Vec::with_capacity(alloc, met.len())?;
    for (index, key) in met.iter().enumerate() {
        let first = told_index(old_indices.get(index));
        match index_from(old, *key, first) {
            Some(old_index) => kept[old_index] = true,
            None => put_last(&mut rest, *key)?,
        }
    }
    Ok(Parted { kept, rest })
}

// The index that a hint tells.
fn told_index(hint: Option<&u32>) -> usize {
    match hint {
        Some(index) => *index as usize,
        None => 0,
    }
}

// Which counts aren't 0.
fn marks_of(alloc: Global, counts: &[u16]) -> Result<Vec<bool>, OutOfMemory>
    ensures { IfOk result (λ marks. marks.items ≡ mapped (nat_lt 0) counts.now) }
{
    let mut marks = Vec::with_capacity(alloc, counts.len())?;
    for count in counts {
        put_last(&mut marks, 0 < *count)?;
    }
    Ok(marks)
}

// The indices of the keys in the order in which they were met, and then those of the keys that stay, in the order of the walk before.
fn walk_beside(
    alloc: Global,
    old: KeySlices<'_>,
    met: &Met,
    rising: &[Key],
    moved: Vec<u32>,
) -> Result<Vec<u32>, OutOfMemory>
    requires { IsRising key_cmp rising.now }
{
    let mut moved = moved;
    let places = places_of(alloc, old.rising, rising)?;
    let mut walk = Vec::with_capacity(alloc, rising.len().max(met.keys.len()))?;
    for (index, key) in met.keys.iter().enumerate() {
        let new_index = match taken_index(&mut moved, met.old_indices.get(index)) {
            Some(new_index) => new_index,
            None => index_in(rising, places.as_slice(), *key),
        };
        put_last(&mut walk, new_index)?;
    }
    for index in old.walk {
        if let Some(new_index) = taken_index(&mut moved, Some(index)) {
            put_last(&mut walk, new_index)?;
        }
    }
    Ok(walk)
}

// The new index of an old key that stays. It is given once, so that a walk doesn't grow without end.
fn taken_index(moved: &mut Vec<u32>, old: Option<&u32>) -> Option<u32> {
    let index = moved.get_mut(*old? as usize)?;
    if *index == NOWHERE {
        return None;
    }
    let taken = *index;
    *index = NOWHERE;
    Some(taken)
}
