// How many keys stand between two positions.

ghost use Rattle.std.specs.Prelude.{◌≡◌, ◌-◌, ◌^◌, ◌<◌, ◌≤◌, [], length, slice_index_or};
ghost use Rattle.block_index.specs.{Blocks.keys_of, Groups.IsInside, Groups.index_of, Search.keys_before};

use crate::block::Block;
use crate::group::Group;
use crate::search::Position;

/// The number of keys from a position on and before another; none where the other doesn't come after it. It looks at no key.
pub fn count_between<K: Copy>(groups: &[Group<K>], low: Position, high: Position) -> usize
    requires few { length (keys_of (keys_of groups.now)) < 2 ^ 64 }
    requires low { IsInside groups.now low.group low.block }
    requires high { IsInside groups.now high.group high.block }
    requires low_within { low.at ≤ length (slice_index_or (keys_of groups.now) (index_of groups.now low.group low.block) []) }
    requires high_within { high.at ≤ length (slice_index_or (keys_of groups.now) (index_of groups.now high.group high.block) []) }
    ensures { result
        ≡ length (keys_before (keys_of groups.now) (index_of groups.now high.group high.block) high.at) - length (keys_before (keys_of groups.now) (index_of groups.now low.group low.block) low.at) }
{
    if high.group < low.group {
        return 0;
    }
    let between = count_grouped(&groups[low.group..high.group]);
    let last = count_before(groups[high.group].blocks(), high);
    let first = count_before(groups[low.group].blocks(), low);
    (between + last).saturating_sub(first)
}

// The number of keys of a group's blocks before a position in it.
fn count_before<K: Copy>(blocks: &[Block<K>], position: Position) -> usize
    requires few { length (keys_of blocks.now) < 2 ^ 64 }
    requires inside { position.block < length blocks.now }
    requires within { position.at ≤ length (slice_index_or blocks.now position.block []) }
    ensures { result ≡ length (keys_before blocks.now position.block position.at) }
{
    count_keys(&blocks[..position.block]) + position.at
}

// The number of keys of blocks.
fn count_keys<K: Copy>(blocks: &[Block<K>]) -> usize
    requires { length (keys_of blocks.now) < 2 ^ 64 }
    ensures { result ≡ length (keys_of blocks.now) }
{
    let mut keys = 0;
    for block in blocks {
        keys += block.len();
    }
    keys
}

// The number of keys of the groups' blocks.
fn count_grouped<K: Copy>(groups: &[Group<K>]) -> usize
    requires { length (keys_of (keys_of groups.now)) < 2 ^ 64 }
    ensures { result ≡ length (keys_of (keys_of groups.now)) }
{
    let mut keys = 0;
    for group in groups {
        keys += count_keys(group.blocks());
    }
    keys
}
