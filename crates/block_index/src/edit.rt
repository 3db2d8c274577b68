// A key put in or taken out at a position.

ghost use Rattle.std.specs.Prelude.{◌≡◌, ◌<◌, ◌≤◌, ℕ, length, slice_index_or, [], IfOk, OnOk, OnErr};
ghost use Rattle.std.specs.List.{insert, remove};
ghost use Rattle.block_index.specs.{Blocks.AreFilled, Blocks.keys_of, Edit.Edits};
ghost use Rattle.block_index.specs.Groups.{AreGroups, HasRoomAt, IsInside, IsShortAt, index_of};

use crate::group::{Group, HALF_BLOCKS, MOST_BLOCKS};
use crate::search::Position;
use base::OutOfMemory;
use std::alloc::Global;

/// Puts a key in at a position; a full block becomes two, and so does a full group. Where there are no groups the key is the first
/// one. After `OutOfMemory` the blocks are as they were.
pub fn put_in<K: Copy>(
    alloc: Global,
    groups: &mut Vec<Group<K>>,
    position: Position,
    key: K,
) -> Result<(), OutOfMemory>
    requires groups { AreGroups groups.old.items }
    requires filled { AreFilled (keys_of groups.old.items) }
    requires start { index_of groups.old.items position.group position.block ≤ length (keys_of groups.old.items) }
    requires inside { 0 < length groups.old.items → IsInside groups.old.items position.group position.block }
    requires within { position.at ≤ length (slice_index_or (keys_of groups.old.items) (index_of groups.old.items position.group position.block) []) }
    ensures ok { OnOk result
        (Edits (keys_of groups.old.items) (keys_of groups.new.items) (index_of groups.old.items position.group position.block)
        (insert (slice_index_or (keys_of groups.old.items) (index_of groups.old.items position.group position.block) []) position.at key)) }
    ensures groups { AreGroups groups.new.items }
    ensures err { OnErr result (keys_of groups.new.items ≡ keys_of groups.old.items) }
{
    if groups.is_empty() {
        groups.push(Group::one(alloc, key)?)?;
        return Ok(());
    }
    let room = make_room(alloc, groups, position)?;
    groups[room.group].put_in(alloc, room.block, position.at, key)
}

// Makes room for one more block in the group of the position: a full group becomes two. All blocks stay as they are; the answer is the same
// position among them.
fn make_room<K: Copy>(
    alloc: Global,
    groups: &mut Vec<Group<K>>,
    position: Position,
) -> Result<Position, OutOfMemory>
    requires groups { AreGroups groups.old.items }
    requires inside { IsInside groups.old.items position.group position.block }
    ensures blocks { keys_of groups.new.items ≡ keys_of groups.old.items }
    ensures groups { AreGroups groups.new.items }
    ensures room { IfOk result
        (λ room. HasRoomAt groups.new.items room.group room.block (index_of groups.old.items position.group position.block)) }
{
    if groups[position.group].len() < MOST_BLOCKS {
        return Ok(position);
    }
    groups.reserve(1)?;
    let upper = groups[position.group].split(alloc)?;
    groups.insert(position.group + 1, upper)?;
    if position.block < HALF_BLOCKS {
        return Ok(position);
    }
    Ok(Position {
        group: position.group + 1,
        block: position.block - HALF_BLOCKS,
        ..position
    })
}

/// Takes the key at a position out, and its block with it where it was the only key. It takes no memory.
pub fn take_out<K: Copy>(groups: &mut Vec<Group<K>>, position: Position)
    requires groups { AreGroups groups.old.items }
    requires filled { AreFilled (keys_of groups.old.items) }
    requires inside { IsInside groups.old.items position.group position.block }
    requires within { position.at < length (slice_index_or (keys_of groups.old.items) (index_of groups.old.items position.group position.block) []) }
    ensures edits { Edits (keys_of groups.old.items) (keys_of groups.new.items) (index_of groups.old.items position.group position.block)
        (remove (slice_index_or (keys_of groups.old.items) (index_of groups.old.items position.group position.block) []) position.at) }
    ensures groups { AreGroups groups.new.items }
{
    groups[position.group].take_out(position.block, position.at);
    if groups[position.group].len() < HALF_BLOCKS {
        refill(groups, position.group);
    }
}

// Fills a group that may have one block too few from a neighbour, or removes it if it is the only one and empty. All blocks stay as they
// are.
fn refill<K: Copy>(groups: &mut Vec<Group<K>>, group: usize)
    requires { IsShortAt groups.old.items group }
    ensures blocks { keys_of groups.new.items ≡ keys_of groups.old.items }
    ensures groups { AreGroups groups.new.items }
{
    if groups.len() == 1 {
        if groups[0].len() == 0 {
            groups.clear();
        }
        return;
    }
    let low = group.min(groups.len() - 2);
    let mut high = groups.remove(low + 1);
    groups[low].even_out(&mut high);
    if high.len() > 0 {
        let _there = groups.insert(low + 1, high);
    }
}
