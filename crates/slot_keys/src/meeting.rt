// The keys of triples that come.

ghost use Rattle.std.specs.Prelude.{◌≡◌, ◌≤◌, [], vec_len, vec_capacity, IfOk, IsOk};
ghost use Rattle.sorted_sets.specs.Rising.{IsRising, sorted};
ghost use Rattle.slot_keys.specs.Keys.{key_cmp};

use crate::key::Key;
use crate::keys::{Keys, in_order};
use base::OutOfMemory;
use std::alloc::Global;

/// The keys of the triples that came, one by one, and the index of each among the keys that the owner had.
#[derive(Drop)]
pub struct Met {
    pub keys: Vec<Key>,
    pub old_indices: Vec<u32>,
}

/// No keys, with room for so many.
pub fn no_keys_met(alloc: Global, room: usize) -> Result<Met, OutOfMemory>
    ensures none { IfOk result (λ met. met.keys.items ≡ []) }
    ensures room { IfOk result (λ met. room ≤ vec_capacity met.keys) }
    ensures no_old_indices { IfOk result (λ met. vec_len met.old_indices ≡ 0) }
    ensures room_for_indices { IfOk result (λ met. room ≤ vec_capacity met.old_indices) }
    ensures free { room ≡ 0 → IsOk result }
{
    Ok(Met {
        keys: Vec::with_capacity(alloc, room)?,
        old_indices: Vec::with_capacity(alloc, room)?,
    })
}

/// The keys that were met in order, each once.
pub fn all_in_order(alloc: Global, old: &[Key], met: Met) -> Keys
    requires { IsRising key_cmp old.now }
    ensures { result.rising.items ≡ sorted key_cmp met.keys.items }
{
    let Met { keys, old_indices } = met;
    in_order(alloc, old, keys, old_indices.as_slice())
}
