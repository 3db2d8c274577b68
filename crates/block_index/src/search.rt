// Where a key stands among the groups of blocks, or would stand.

ghost use Rattle.std.specs.Prelude.{◌≡◌, ◌+◌, ◌-◌, ◌<◌, ◌≤◌, length, map};
ghost use Rattle.sorted_sets.specs.{Counting.one_if, Rising.IsRising};
ghost use Rattle.comparison_steps.specs.Steps.{WithinSteps};
ghost use Rattle.block_index.specs.{Blocks.AreFilled, Blocks.keys_of};
ghost use Rattle.block_index.specs.Groups.{AreGroups, IsInside, index_of};
ghost use Rattle.block_index.specs.Search.{EndsAt, EndsAtBlock, IsAfter, IsAfterBlock, Stands};

use crate::block::Block;
use crate::group::Group;
use comparison_steps::{Ranked, StepCounter};
use std::cmp::Ordering;

/// A group, a block in it and an index in that: the key's own if it is found, and the one at which it would be put in otherwise.
#[derive(Clone, Copy)]
pub struct Position {
    pub group: usize,
    pub block: usize,
    pub at: usize,
    pub found: bool,
}

// A block and an index in it, in one group.
#[derive(Clone, Copy)]
struct GroupPosition {
    block: usize,
    at: usize,
    found: bool,
}

/// The position after the key if it was found, and the same otherwise.
pub fn behind(position: Position) -> Position
    requires { position.at < 18446744073709551615 }
    ensures { result ≡ record position { at = position.at + one_if position.found } }
{
    if position.found {
        Position {
            at: position.at + 1,
            ..position
        }
    } else {
        position
    }
}

// Finds a key among the keys from an index on, as std's `binary_search` answers. The key before that index, if
// any, is below it.
fn search<K: Ranked, C: StepCounter>(
    keys: &[K],
    start: usize,
    key: &K,
    steps: &mut C,
) -> Result<usize, usize>
    requires within { start ≤ length keys.now }
    requires above { IsAfter K.cmp key.now keys.now start }
    ensures ends { EndsAt K.cmp key.now keys.now start result }
    ensures cost { WithinSteps (length keys.now - start) 0 (C.total steps.old) (C.total steps.new) }
{
    let mut low = start;
    let mut high = keys.len();
    while low < high {
        let middle = low + (high - low) / 2;
        match key.rank(&keys[middle], steps) {
            Ordering::Less => high = middle,
            Ordering::Equal => return Ok(middle),
            Ordering::Greater => low = middle + 1,
        }
    }
    Err(low)
}

// Finds a key among the first keys of the blocks from an index on. The first key of the block before that index, if any, is below it.
fn search_blocks<K: Ranked, C: StepCounter>(
    blocks: &[Block<K>],
    start: usize,
    key: &K,
    steps: &mut C,
) -> Result<usize, usize>
    requires filled { AreFilled blocks.now }
    requires within { start ≤ length blocks.now }
    requires above { IsAfterBlock K.cmp key.now blocks.now start }
    ensures ends { EndsAtBlock K.cmp key.now blocks.now start result }
    ensures cost { WithinSteps (length blocks.now - start) 0 (C.total steps.old) (C.total steps.new) }
{
    let mut low = start;
    let mut high = blocks.len();
    while low < high {
        let middle = low + (high - low) / 2;
        match key.rank(blocks[middle].first(), steps) {
            Ordering::Less => high = middle,
            Ordering::Equal => return Ok(middle),
            Ordering::Greater => low = middle + 1,
        }
    }
    Err(low)
}

// Finds a key among the groups' first keys.
fn search_groups<K: Ranked, C: StepCounter>(
    groups: &[Group<K>],
    key: &K,
    steps: &mut C,
) -> Result<usize, usize>
    requires some { AreFilled groups.now }
    requires filled { AreFilled (keys_of groups.now) }
    ensures ends { EndsAtBlock K.cmp key.now (map keys_of groups.now) 0 result }
    ensures cost { WithinSteps (length groups.now) 0 (C.total steps.old) (C.total steps.new) }
{
    let mut low = 0;
    let mut high = groups.len();
    while low < high {
        let middle = low + (high - low) / 2;
        match key.rank(groups[middle].first(), steps) {
            Ordering::Less => high = middle,
            Ordering::Equal => return Ok(middle),
            Ordering::Greater => low = middle + 1,
        }
    }
    Err(low)
}

// The position of a key in a group whose first key is below it.
fn locate_in<K: Ranked, C: StepCounter>(
    blocks: &[Block<K>],
    key: &K,
    steps: &mut C,
) -> GroupPosition
    requires some { 0 < length blocks.now }
    requires filled { AreFilled blocks.now }
    requires rising { IsRising K.cmp (keys_of blocks.now) }
    requires above { IsAfterBlock K.cmp key.now blocks.now 1 }
    ensures stands { Stands K.cmp key.now blocks.now result.block result.at result.found }
    ensures cost { WithinSteps (length blocks.now - 1) 7 (C.total steps.old) (C.total steps.new) }
{
    let next = match search_blocks(blocks, 1, key, steps) {
        Ok(block) => {
            return GroupPosition {
                block,
                at: 0,
                found: true,
            };
        }
        Err(next) => next,
    };
    let block = next - 1;
    match search(blocks[block].keys(), 1, key, steps) {
        Ok(at) => GroupPosition {
            block,
            at,
            found: true,
        },
        Err(at) => GroupPosition {
            block,
            at,
            found: false,
        },
    }
}

/// The position of a key.
pub fn locate<K: Ranked, C: StepCounter>(groups: &[Group<K>], key: &K, steps: &mut C) -> Position
    requires groups { AreGroups groups.now }
    requires filled { AreFilled (keys_of groups.now) }
    requires rising { IsRising K.cmp (keys_of (keys_of groups.now)) }
    ensures stands { Stands K.cmp key.now (keys_of groups.now) (index_of groups.now result.group result.block) result.at result.found }
    ensures inside { 0 < length groups.now → IsInside groups.now result.group result.block }
    ensures cost { WithinSteps (length (keys_of (keys_of groups.now))) 8 (C.total steps.old) (C.total steps.new) }
{
    let next = match search_groups(groups, key, steps) {
        Ok(group) => {
            return Position {
                group,
                block: 0,
                at: 0,
                found: true,
            };
        }
        Err(next) => next,
    };
    if next == 0 {
        return Position {
            group: 0,
            block: 0,
            at: 0,
            found: false,
        };
    }
    let group = next - 1;
    let GroupPosition { block, at, found } = locate_in(groups[group].blocks(), key, steps);
    Position {
        group,
        block,
        at,
        found,
    }
}
