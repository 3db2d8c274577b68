// The keys of a range, copied block by block.

ghost use Rattle.std.specs.Prelude.{◌≤◌, [], ◌<◌, length, map, slice_index_or};
ghost use Rattle.block_index.specs.{Blocks.keys_of, Groups.IsInside, Groups.index_of, Search.keys_from, Taking.Took};

use crate::block::Block;
use crate::group::Group;
use crate::search::Position;
use base::OutOfMemory;
use comparison_steps::{Ranked, StepCounter};

/// Copies the keys from a position on until the first above `to`; whether there was none. Each key that is looked at is one step.
pub fn take_from<K: Ranked, C: StepCounter>(
    groups: &[Group<K>],
    position: Position,
    to: &K,
    taken: &mut Vec<K>,
    steps: &mut C,
) -> Result<bool, OutOfMemory>
    requires inside { IsInside groups.now position.group position.block }
    requires within { position.at ≤ length (slice_index_or (keys_of groups.now) (index_of groups.now position.group position.block) []) }
    ensures { Took K.cmp to.now (keys_from (keys_of groups.now) (index_of groups.now position.group position.block) position.at) taken.old.items taken.new.items (C.total steps.old) (C.total steps.new) result }
{
    let blocks = groups[position.group].blocks();
    match take_within(blocks, position, to, taken, steps) {
        Ok(true) => take_groups(&groups[position.group + 1..], to, taken, steps),
        Ok(false) => Ok(false),
        Err(refused) => Err(refused),
    }
}

// Copies the keys from a position in a group's blocks on until the first above `to`; whether there was none.
fn take_within<K: Ranked, C: StepCounter>(
    blocks: &[Block<K>],
    position: Position,
    to: &K,
    taken: &mut Vec<K>,
    steps: &mut C,
) -> Result<bool, OutOfMemory>
    requires inside { position.block < length blocks.now }
    requires within { position.at ≤ length (slice_index_or blocks.now position.block []) }
    ensures { Took K.cmp to.now (keys_from blocks.now position.block position.at) taken.old.items taken.new.items (C.total steps.old) (C.total steps.new) result }
{
    let first = blocks[position.block].keys();
    match take_keys(&first[position.at..], to, taken, steps) {
        Ok(true) => take_blocks(&blocks[position.block + 1..], to, taken, steps),
        Ok(false) => Ok(false),
        Err(refused) => Err(refused),
    }
}

// Copies keys until the first above `to`; whether there was none.
fn take_keys<K: Ranked, C: StepCounter>(
    keys: &[K],
    to: &K,
    taken: &mut Vec<K>,
    steps: &mut C,
) -> Result<bool, OutOfMemory>
    ensures { Took K.cmp to.now keys.now taken.old.items taken.new.items (C.total steps.old) (C.total steps.new) result }
{
    for key in keys {
        if key.rank(to, steps).is_gt() {
            return Ok(false);
        }
        let Ok(()) = taken.push(*key) else {
            return Err(OutOfMemory);
        };
    }
    Ok(true)
}

// Copies the blocks' keys until the first above `to`; whether there was none.
fn take_blocks<K: Ranked, C: StepCounter>(
    blocks: &[Block<K>],
    to: &K,
    taken: &mut Vec<K>,
    steps: &mut C,
) -> Result<bool, OutOfMemory>
    ensures { Took K.cmp to.now (keys_of blocks.now) taken.old.items taken.new.items (C.total steps.old) (C.total steps.new) result }
{
    for block in blocks {
        match take_keys(block.keys(), to, taken, steps) {
            Ok(true) => {}
            Ok(false) => return Ok(false),
            Err(refused) => return Err(refused),
        }
    }
    Ok(true)
}

// Copies the groups' keys until the first above `to`; whether there was none.
fn take_groups<K: Ranked, C: StepCounter>(
    groups: &[Group<K>],
    to: &K,
    taken: &mut Vec<K>,
    steps: &mut C,
) -> Result<bool, OutOfMemory>
    ensures { Took K.cmp to.now (keys_of (map keys_of groups.now)) taken.old.items taken.new.items (C.total steps.old) (C.total steps.new) result }
{
    for group in groups {
        match take_blocks(group.blocks(), to, taken, steps) {
            Ok(true) => {}
            Ok(false) => return Ok(false),
            Err(refused) => return Err(refused),
        }
    }
    Ok(true)
}
