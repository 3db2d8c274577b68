// Where a key stands in a rising list.

ghost use Rattle.std.specs.Prelude.{◌≡◌, ◌<◌, false, length, is_ok, slice_get, Some, IfNone, IfSome};
ghost use Rattle.std.specs.List.Sorted.{IsSearchInRange};
ghost use Rattle.sorted_sets.specs.Rising.{IsRising, has};
ghost use Rattle.slot_keys.specs.Keys.{key_cmp};

use crate::key::Key;
use crate::keys::KeySlices;

// How far ahead in the walk an index is looked for, which was found by a search.
const AHEAD: usize = 64;

/// Where a key stands in a rising list, or would stand. A place is tried first, so that to look for the keys of a list that
/// has nearly the same ones costs no search.
pub fn find_from(keys: &[Key], key: Key, next: usize) -> Result<usize, usize>
    requires { IsRising key_cmp keys.now }
    ensures bound { IsSearchInRange result (length keys.now) }
    ensures there { is_ok result ≡ has key_cmp key keys.now }
{
    if next < keys.len() && keys[next] == key {
        return Ok(next);
    }
    keys.binary_search(&key)
}

/// The index that the walk has at a place, where it is that of a key.
pub fn hinted(keys: KeySlices<'_>, place: usize) -> Option<usize>
    ensures { IfSome result (λ index. index < length keys.entry.rising.now) }
{
    let index = *keys.walk.get(place)? as usize;
    (index < keys.rising.len()).then_some(index)
}

/// The index of a key in a rising list. The index that is tried first saves the search where it is right.
pub fn index_from(keys: &[Key], key: Key, first: usize) -> Option<usize>
    requires { IsRising key_cmp keys.now }
    ensures found { IfSome result (λ index. slice_get keys.now index ≡ Some key) }
    ensures none { IfNone result (has key_cmp key keys.now ≡ false) }
{
    if first < keys.len() && keys[first] == key {
        return Some(first);
    }
    match keys.binary_search(&key) {
        Ok(index) => Some(index),
        Err(_) => None,
    }
}

/// Where the walk goes on after an index that is near. Only a hint: if the index isn't near, the walk stays where it was.
pub fn behind(walk: &[u32], next: usize, old_index: u32) -> usize {
    for past in 0..AHEAD {
        let at = next.saturating_add(past);
        if walk.get(at) == Some(&old_index) {
            return at.saturating_add(1);
        }
    }
    next
}
