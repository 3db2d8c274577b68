// The old keys of an owner that stay and others that come, laid in one rising list.

ghost use Rattle.std.specs.Prelude.{◌≡◌, ◌≤◌, ◌++◌, ◌∷◌, if◌then◌else◌, ℕ, not, true, false, List, [], drop, length, IfOk, OnOk};
ghost use Rattle.std.specs.Prelude.{map as mapped};
ghost use Rattle.std.specs.declared.cmp.Ordering.TheVariants.{Less};
ghost use Rattle.sorted_sets.specs.Rising.{Above, IsRising, has, sorted};
ghost use Rattle.slot_keys.specs.{declared.key.Key.Key as TheKey, Keys.key_cmp, Marks.marked, KeyCounts.count_beside};

use crate::key::Key;
use crate::keys::{NOWHERE, narrowed, put_last};
use base::OutOfMemory;
use std::alloc::Global;
use std::cmp::Ordering;

// The old keys, the count of each, and marks at those that stay; beside them other keys that come.
#[derive(Clone, Copy)]
pub(crate) struct Sources<'a> {
    pub(crate) old: &'a [Key],
    pub(crate) counts: &'a [u16],
    pub(crate) stays: &'a [bool],
    pub(crate) others: &'a [Key],
}

// The keys in order, and the count of each. Beside them the old keys that are gone, and for each old key the index where it stands now, a
// hint, or `NOWHERE`.
#[derive(Drop)]
pub(crate) struct Laid {
    pub(crate) keys: Vec<Key>,
    pub(crate) counts: Vec<u16>,
    pub(crate) gone: Vec<Key>,
    pub(crate) moved: Vec<u32>,
}

// The keys of both in one pass over the old ones, without a search. What comes has the count 0.
pub(crate) fn laid_in_one(alloc: Global, sources: Sources<'_>) -> Result<Laid, OutOfMemory>
    requires rising { IsRising key_cmp sources.old.now }
    requires rising_others { IsRising key_cmp sources.others.now }
    requires apart { (key : TheKey) → has key_cmp key sources.old.now ≡ true → has key_cmp key sources.others.now ≡ false }
    requires as_many { length sources.stays.now ≡ length sources.old.now }
    requires counted { length sources.counts.now ≡ length sources.old.now }
    ensures keys { IfOk result (λ laid. laid.keys.items ≡ sorted key_cmp (marked sources.entry.old.now sources.entry.stays.now ++ sources.entry.others.now)) }
    ensures counts { IfOk result (λ laid. laid.counts.items ≡ mapped (count_beside sources.entry.old.now sources.entry.counts.now) laid.keys.items) }
    ensures gone { IfOk result (λ laid. laid.gone.items ≡ marked sources.entry.old.now (mapped not sources.entry.stays.now)) }
{
    let Sources {
        old,
        counts,
        stays,
        others,
    } = sources;
    let room = marked_len(stays).saturating_add(others.len());
    let mut laid = none_laid(alloc, room, old.len())?;
    let mut next = 0;
    for (index, key) in old.iter().enumerate() {
        next = laid.put_below(others, next, *key)?;
        laid.put_old(*key, counts[index], stays[index])?;
    }
    laid.put_rest(others, next)?;
    Ok(laid)
}

// How many marks are set.
fn marked_len(marks: &[bool]) -> usize {
    let mut len: usize = 0;
    for mark in marks {
        if *mark {
            len = len.saturating_add(1);
        }
    }
    len
}

// No keys, with room for so many, and for the indices of so many old ones.
fn none_laid(alloc: Global, room: usize, old: usize) -> Result<Laid, OutOfMemory>
    ensures keys { IfOk result (λ laid. laid.keys.items ≡ []) }
    ensures counts { IfOk result (λ laid. laid.counts.items ≡ []) }
    ensures gone { IfOk result (λ laid. laid.gone.items ≡ []) }
{
    Ok(Laid {
        keys: Vec::with_capacity(alloc, room)?,
        counts: Vec::with_capacity(alloc, room)?,
        gone: Vec::new(alloc),
        moved: Vec::with_capacity(alloc, old)?,
    })
}

impl Laid {
    // Puts those of the others that are below a key, from an index on, and tells the index behind them.
    fn put_below(&mut self, others: &[Key], next: usize, key: Key) -> Result<usize, OutOfMemory>
        requires rising { IsRising key_cmp others.now }
        requires next { next ≤ length others.now }
        ensures bound { IfOk result (λ behind. behind ≤ length others.now) }
        ensures keys { IfOk result (λ behind. (rest : List TheKey) → ((other : TheKey) → key_cmp other key ≡ Less → Above key_cmp other rest) → self.new.keys.items ++ sorted key_cmp (rest ++ drop behind others.now) ≡ self.old.keys.items ++ sorted key_cmp (rest ++ drop next others.now)) }
        ensures above { IfOk result (λ behind. has key_cmp key others.now ≡ false → Above key_cmp key (drop behind others.now)) }
        ensures counts { OnOk result ((count : TheKey → ℕ) → ((other : TheKey) → has key_cmp other others.now ≡ true → count other ≡ 0) → self.old.counts.items ≡ mapped count self.old.keys.items → self.new.counts.items ≡ mapped count self.new.keys.items) }
        ensures gone { OnOk result (self.new.gone.items ≡ self.old.gone.items) }
    {
        for index in next..others.len() {
            match others[index].cmp(&key) {
                Ordering::Less => self.put(others[index], 0)?,
                Ordering::Equal => return Ok(index),
                Ordering::Greater => return Ok(index),
            }
        }
        Ok(others.len())
    }

    // Puts an old key where it stays.
    fn put_old(&mut self, key: Key, count: u16, stays: bool) -> Result<(), OutOfMemory>
        ensures keys { OnOk result (self.new.keys.items ≡ self.old.keys.items ++ (if stays then key ∷ [] else [])) }
        ensures counts { OnOk result (self.new.counts.items ≡ self.old.counts.items ++ (if stays then count ∷ [] else [])) }
        ensures gone { OnOk result (self.new.gone.items ≡ self.old.gone.items ++ (if stays then [] else key ∷ [])) }
    {
        if stays {
            put_last(&mut self.moved, narrowed(self.keys.len()))?;
            self.put(key, count)
        } else {
            put_last(&mut self.moved, NOWHERE)?;
            self.gone.push(key)?;
            Ok(())
        }
    }

    // Puts those of the others from an index on.
    fn put_rest(&mut self, others: &[Key], next: usize) -> Result<(), OutOfMemory>
        requires next { next ≤ length others.now }
        ensures keys { OnOk result (self.new.keys.items ≡ self.old.keys.items ++ drop next others.now) }
        ensures counts { OnOk result ((count : TheKey → ℕ) → ((other : TheKey) → has key_cmp other others.now ≡ true → count other ≡ 0) → self.old.counts.items ≡ mapped count self.old.keys.items → self.new.counts.items ≡ mapped count self.new.keys.items) }
        ensures gone { OnOk result (self.new.gone.items ≡ self.old.gone.items) }
    {
        for index in next..others.len() {
            self.put(others[index], 0)?;
        }
        Ok(())
    }

    // Puts a key with its count at the end.
    fn put(&mut self, key: Key, count: u16) -> Result<(), OutOfMemory>
        ensures keys { OnOk result (self.new.keys.items ≡ self.old.keys.items ++ key ∷ []) }
        ensures counts { OnOk result (self.new.counts.items ≡ self.old.counts.items ++ count ∷ []) }
        ensures gone { self.new.gone.items ≡ self.old.gone.items }
    {
        put_last(&mut self.keys, key)?;
        put_last(&mut self.counts, count)?;
        Ok(())
    }
}
