// The way from hashes to slots.

ghost use Rattle.std.specs.Prelude.{◌≡◌, ◌<◌, ◌==◌, not, vec_len, vec_capacity};
ghost use Rattle.std.specs.{List.filter, HashMap.get, HashMap.spare};
ghost use Rattle.term_pool.specs.Index.{Forgets, Points};

use std::collections::HashMap;

// Points a hash at a slot, or lists the slot with those whose hash points at another one.
pub(crate) fn point(by_hash: &mut HashMap<u64, u32>, more: &mut Vec<u32>, hash: u64, number: u32)
    requires room { 0 < spare by_hash.old }
    requires more_room { vec_len more.old < vec_capacity more.old }
    ensures { Points (get ◌==◌ by_hash.old) (get ◌==◌ by_hash.new) more.old.items more.new.items hash number }
{
    if by_hash.contains_key(&hash) {
        more.push_reserved(number);
    } else {
        let _ = by_hash.insert(hash, number);
    }
}

// No longer points a hash at a slot, where it does.
pub(crate) fn forget(by_hash: &mut HashMap<u64, u32>, hash: u64, number: u32)
    ensures { Forgets (get ◌==◌ by_hash.old) (get ◌==◌ by_hash.new) hash number }
{
    if by_hash.get(&hash) == Some(&number) {
        by_hash.remove(&hash);
    }
}

// No longer lists a slot.
pub(crate) fn unlist(more: &mut Vec<u32>, number: u32)
    ensures { more.new.items ≡ filter (λ other. not (other == number)) more.old.items }
{
    more.retain(|other| *other != number);
}
