// Keys whose slots are replaced by ranks: the indices of terms in a list of them.

ghost use Rattle.std.specs.Prelude.{◌≡◌, map as mapped, IfOk, IfSome};
ghost use Rattle.std.specs.List.{All};
ghost use Rattle.slot_keys.specs.Ranks.{IsRanked, IsRankOf, rank_key, rank_of};

use crate::key::Key;
use crate::keys::{NOWHERE, narrowed};
use base::OutOfMemory;
use std::alloc::Global;

/// A term that is there: its canonical text, and its slot.
#[derive(Clone, Copy)]
pub struct SlotText<'a> {
    pub text: &'a [u8],
    pub slot: u32,
}

/// The highest slot of these keys; 0 where there is no key.
pub fn highest_slot(keys: &[Key]) -> u32 {
    let mut highest = 0;
    for key in keys {
        highest = key.first.max(key.second).max(key.third).max(highest);
    }
    highest
}

/// The rank of the term in each slot, and `NOWHERE` if there is none. Only a hint: the reader of a rank checks the slot of its term.
pub fn ranks_of(
    alloc: Global,
    terms: &[SlotText<'_>],
    slots: usize,
) -> Result<Vec<u32>, OutOfMemory> {
    let mut ranks = Vec::new(alloc);
    ranks.resize(slots, NOWHERE)?;
    for (rank, term) in terms.iter().enumerate() {
        let slot = term.slot as usize;
        if slot < ranks.len() {
            ranks[slot] = narrowed(rank);
        }
    }
    Ok(ranks)
}

/// The ranks in the place of the slots of each key. `None` where a key has a slot without a rank.
pub fn ranked_keys(
    alloc: Global,
    terms: &[SlotText<'_>],
    ranks: &[u32],
    keys: &[Key],
) -> Result<Option<Vec<Key>>, OutOfMemory>
    ensures keys { IfOk result (λ found. IfSome found (λ ranked. ranked.items ≡ mapped (rank_key ranks.now) keys.now)) }
    ensures ranked { IfOk result (λ found. IfSome found (λ _. All (IsRanked terms.now ranks.now) keys.now)) }
{
    let mut ranked = Vec::with_capacity(alloc, keys.len())?;
    for key in keys {
        let Some(ranks_of_key) = ranked_key(terms, ranks, *key) else {
            return Ok(None);
        };
        ranked.push(ranks_of_key)?;
    }
    Ok(Some(ranked))
}

// The same for one key.
fn ranked_key(terms: &[SlotText<'_>], ranks: &[u32], key: Key) -> Option<Key>
    ensures { IfSome result (λ ranked. (ranked ≡ rank_key ranks.now key) × IsRanked terms.now ranks.now key) }
{
    Some(Key {
        first: rank_in(terms, ranks, key.first)?,
        second: rank_in(terms, ranks, key.second)?,
        third: rank_in(terms, ranks, key.third)?,
    })
}

// The rank of the term in a slot, where it is told and right.
fn rank_in(terms: &[SlotText<'_>], ranks: &[u32], slot: u32) -> Option<u32>
    ensures { IfSome result (λ rank. (rank ≡ rank_of ranks.now slot) × IsRankOf terms.now ranks.now slot) }
{
    let rank = *ranks.get(slot as usize)?;
    let term = terms.get(rank as usize)?;
    if term.slot == slot { Some(rank) } else { None }
}
