// How many times each key of an owner comes.

ghost use Rattle.std.specs.Prelude.{◌≡◌, ◌<◌, length, replicate, IfOk, IfSome};
ghost use Rattle.sorted_sets.specs.Rising.{IsRising};
ghost use Rattle.slot_keys.specs.{KeyCounts.AddKeys, Keys.key_cmp};

use crate::finding::{hinted, index_from};
use crate::key::Key;
use crate::keys::KeySlices;
use base::OutOfMemory;
use std::alloc::Global;

/// The times of keys: the counts that they begin with, and once more for each time that they were met. Empty where one would be too large.
pub fn times_after(alloc: Global, keys: KeySlices<'_>, counts: Vec<u16>, met: &[Key]) -> Vec<u16>
    requires rising { IsRising key_cmp keys.rising.now }
    requires as_many { length counts.items ≡ length keys.rising.now }
    ensures { 0 < length result.items → AddKeys keys.entry.rising.now counts.items result.items met.now }
{
    match add_keys(keys, counts, met) {
        Some(times) => times,
        None => Vec::new(alloc),
    }
}

// The counts of the keys after these came, one by one. None where one has none of the keys, or a count would be too large. The walk is a
// hint: where it has the index of a key, this takes no search.
fn add_keys(keys: KeySlices<'_>, counts: Vec<u16>, met: &[Key]) -> Option<Vec<u16>>
    requires rising { IsRising key_cmp keys.rising.now }
    requires as_many { length counts.items ≡ length keys.rising.now }
    ensures { IfSome result (λ added. AddKeys keys.entry.rising.now counts.items added.items met.now) }
{
    let mut counts = counts;
    for (place, key) in met.iter().enumerate() {
        let first = hinted(keys, place).unwrap_or(0);
        let at = index_from(keys.rising, *key, first)?;
        counts[at] = counts[at].checked_add(1)?;
    }
    Some(counts)
}

/// As many counts of 0.
pub fn no_counts(alloc: Global, len: usize) -> Result<Vec<u16>, OutOfMemory>
    ensures { IfOk result (λ counts. counts.items ≡ replicate len 0) }
{
    let mut counts = Vec::new(alloc);
    counts.resize(len, 0)?;
    Ok(counts)
}

/// A copy of the counts.
pub fn copied(alloc: Global, counts: &[u16]) -> Result<Vec<u16>, OutOfMemory>
    ensures { IfOk result (λ copy. copy.items ≡ counts.now) }
{
    let mut copy = Vec::with_capacity(alloc, counts.len())?;
    copy.extend_from_slice(counts)?;
    Ok(copy)
}
