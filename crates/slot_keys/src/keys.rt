// The keys of the triples of one owner.

ghost use Rattle.std.specs.Prelude.{◌≡◌, ◌++◌, ◌∷◌, [], Some, length, slice_get, IfOk, IfSome, OnOk};
ghost use Rattle.sorted_sets.specs.Rising.{IsRising, has, sorted};
ghost use Rattle.slot_keys.specs.{declared.key.Key.Key as TheKey, Keys.key_cmp, Marks.marked};

use crate::added::{BUCKETS, bucket_of};
use crate::finding::find_from;
use crate::key::Key;
use base::OutOfMemory;
use std::alloc::Global;

/// Stands for a key without an old index.
pub const NOWHERE: u32 = u32::MAX;

/// The keys of the triples that one owner has, each once, in rising order; beside them their places in the order in which the
/// owner's triples came. The places are a hint that makes an exchange quick, since what stays mostly comes in that order again.
#[derive(Drop)]
pub struct Keys {
    pub(crate) rising: Vec<Key>,
    pub(crate) walk: Vec<u32>,
}

/// The keys of one owner, borrowed: `rising` has each key once, in rising order, and `walk` the index in it of each triple, in the order in
/// which the owner's triples came.
#[derive(Clone, Copy)]
pub struct KeySlices<'a> {
    pub rising: &'a [Key],
    pub walk: &'a [u32],
}

impl Keys {
    /// No keys, which take no memory.
    pub fn none(alloc: Global) -> Keys
        ensures { result.rising.items ≡ [] }
    {
        Keys {
            rising: Vec::new(alloc),
            walk: Vec::new(alloc),
        }
    }

    /// The keys, borrowed.
    pub fn slices(&self) -> KeySlices<'_>
        ensures { result.rising.now ≡ self.now.rising.items }
    {
        KeySlices {
            rising: self.rising.as_slice(),
            walk: self.walk.as_slice(),
        }
    }
}

impl<'a> KeySlices<'a> {
    /// The keys of an owner without triples.
    pub fn none() -> KeySlices<'a>
        ensures { result.rising.now ≡ [] }
    {
        KeySlices {
            rising: &[],
            walk: &[],
        }
    }
}

// The old keys that were met, by marks at their indices, and the keys that were met besides.
#[derive(Drop)]
pub(crate) struct Parted {
    pub(crate) kept: Vec<bool>,
    pub(crate) rest: Vec<Key>,
}

/// The keys that were met one by one, in order, each once. For each the index among the old keys is told where it was
/// found there. It always succeeds: where memory is refused, the keys are sorted in their place and have no walk.
pub fn in_order(alloc: Global, old: &[Key], met: Vec<Key>, old_indices: &[u32]) -> Keys
    requires { IsRising key_cmp old.now }
    ensures { result.rising.items ≡ sorted key_cmp met.items }
{
    let mut met = met;
    let Ok(rising) = merged(alloc, old, met.as_slice(), old_indices) else {
        sort_keys(&mut met);
        return Keys {
            rising: met,
            walk: Vec::new(alloc),
        };
    };
    let walk = match walk_of(alloc, old, met.as_slice(), old_indices, rising.as_slice()) {
        Ok(walk) => walk,
        Err(_) => Vec::new(alloc),
    };
    Keys { rising, walk }
}

// The keys in order, each once: the old ones that were met stand in order, so only what came besides is sorted in.
fn merged(
    alloc: Global,
    old: &[Key],
    met: &[Key],
    old_indices: &[u32],
) -> Result<Vec<Key>, OutOfMemory>
    requires { IsRising key_cmp old.now }
    ensures { IfOk result (λ keys. keys.items ≡ sorted key_cmp met.now) }
{
    let parted = split(alloc, old, met, old_indices)?;
    let mut keys = kept_keys(alloc, old, parted.kept.as_slice(), met.len())?;
    let rest = parted.rest.as_slice();
    if rest.is_empty() {
        return Ok(keys);
    }
    keys.extend_from_slice(rest)?;
    keys.sort()?;
    keys.dedup();
    Ok(keys)
}

// The old keys that were met where the indices told them, by marks, and all other keys that were met, in the order in which they were.
fn split(
    alloc: Global,
    old: &[Key],
    met: &[Key],
    old_indices: &[u32],
) -> Result<Parted, OutOfMemory>
    ensures len { IfOk result (λ parted. length parted.kept.items ≡ length old.now) }
    ensures same { IfOk result (λ parted. (key : TheKey) → has key_cmp key (marked old.now parted.kept.items ++ parted.rest.items) ≡ has key_cmp key met.now) }
{
    let mut kept = Vec::new(alloc);
    kept.resize(old.len(), false)?;
    let mut rest = Vec::new(alloc);
    for (index, key) in met.iter().enumerate() {
        match old_index_of(old, *key, old_indices.get(index)) {
            Some(old_index) => kept[old_index] = true,
            None => rest.push(*key)?,
        }
    }
    Ok(Parted { kept, rest })
}

// The index of the key among the old ones, where the hint tells it.
fn old_index_of(old: &[Key], key: Key, hint: Option<&u32>) -> Option<usize>
    ensures { IfSome result (λ old_index. slice_get old.now old_index ≡ Some key) }
{
    let old_index = *hint? as usize;
    if old_index < old.len() && old[old_index] == key {
        Some(old_index)
    } else {
        None
    }
}

// The keys that are marked, with room for as many as it says.
fn kept_keys(
    alloc: Global,
    old: &[Key],
    kept: &[bool],
    room: usize,
) -> Result<Vec<Key>, OutOfMemory>
    requires { length kept.now ≡ length old.now }
    ensures { IfOk result (λ keys. keys.items ≡ marked old.now kept.now) }
{
    let mut keys = Vec::with_capacity(alloc, room)?;
    for (index, key) in old.iter().enumerate() {
        if kept[index] {
            keys.push(*key)?;
        }
    }
    Ok(keys)
}

// The indices of the keys in the order in which they were met.
fn walk_of(
    alloc: Global,
    old: &[Key],
    met: &[Key],
    old_indices: &[u32],
    rising: &[Key],
) -> Result<Vec<u32>, OutOfMemory>
    requires { IsRising key_cmp rising.now }
{
    let moved = moved_indices(alloc, old, rising)?;
    let places = places_of(alloc, old, rising)?;
    let mut walk = Vec::with_capacity(alloc, met.len())?;
    for (index, key) in met.iter().enumerate() {
        let new_index = match new_index_of(moved.as_slice(), old_indices.get(index)) {
            Some(new_index) => new_index,
            None => index_in(rising, places.as_slice(), *key),
        };
        walk.push(new_index)?;
    }
    Ok(walk)
}

// Where each of the old keys stands among others, or would stand.
fn moved_indices(alloc: Global, old: &[Key], rising: &[Key]) -> Result<Vec<u32>, OutOfMemory>
    requires { IsRising key_cmp rising.now }
{
    let mut moved = Vec::with_capacity(alloc, old.len())?;
    let mut next = 0;
    for key in old {
        let index = match find_from(rising, *key, next) {
            Ok(index) => index,
            Err(index) => index,
        };
        moved.push(narrowed(index))?;
        next = index.saturating_add(1);
    }
    Ok(moved)
}

// The new index of a key, where it had an old one.
fn new_index_of(moved: &[u32], old: Option<&u32>) -> Option<u32> {
    let index = moved.get(*old? as usize)?;
    Some(*index)
}

// The last index of a key in each bucket, where there were no old keys: these alone are many.
pub(crate) fn places_of(
    alloc: Global,
    old: &[Key],
    rising: &[Key],
) -> Result<Vec<u32>, OutOfMemory> {
    let mut places = Vec::new(alloc);
    if old.is_empty() {
        places.resize(rising.len().saturating_mul(BUCKETS), NOWHERE)?;
        for (index, key) in rising.iter().enumerate() {
            if let Some(place) = places.get_mut(bucket_of(key, places.len())) {
                *place = narrowed(index);
            }
        }
    }
    Ok(places)
}

// The index of a key, which is tried where its bucket tells and else searched.
pub(crate) fn index_in(rising: &[Key], places: &[u32], key: Key) -> u32
    requires { IsRising key_cmp rising.now }
{
    if let Some(place) = places.get(bucket_of(&key, places.len())) {
        if rising.get(*place as usize) == Some(&key) {
            return *place;
        }
    }
    match rising.binary_search(&key) {
        Ok(index) => narrowed(index),
        Err(_) => NOWHERE,
    }
}

/// The index as a hint has it: `NOWHERE` if it has more than 32 bits.
pub fn narrowed(index: usize) -> u32 {
    u32::try_from(index).unwrap_or(NOWHERE)
}

// Puts an element at the end. Where there is room for it, this is the whole work.
pub(crate) fn put_last<T: Copy>(list: &mut Vec<T>, element: T) -> Result<(), OutOfMemory>
    ensures { OnOk result (list.new.items ≡ list.old.items ++ element ∷ []) }
{
    if list.len() < list.capacity() {
        list.push_reserved(element);
        return Ok(());
    }
    list.push(element)?;
    Ok(())
}

// Puts keys in order, each once.
pub(crate) fn put_in_order(keys: &mut Vec<Key>) -> Result<(), OutOfMemory>
    ensures { OnOk result (keys.new.items ≡ sorted key_cmp keys.old.items) }
{
    keys.sort()?;
    keys.dedup();
    Ok(())
}

// The same without memory.
fn sort_keys(keys: &mut Vec<Key>)
    ensures { keys.new.items ≡ sorted key_cmp keys.old.items }
{
    keys.sort_unstable();
    keys.dedup();
}
