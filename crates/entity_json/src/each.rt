// Goes over the values of an array or the entries of a map, with one reader for all.

ghost use Rattle.std.specs.Prelude.{ℕ, Option, List as Items, map};
ghost use Rattle.json_spell.specs.{Tree.Tree, View.json_view, View.member_view, View.pairs_of};
ghost use Rattle.entity_json.specs.{Found.found_items, Found.found_entries, Finds.Makes, Joined.numbered, Maps.entries};
ghost use Rattle.entity_json.specs.Reading.Steps.{steps};

use crate::map::{has_key, last_flags};
use crate::part::PartFault;
use base::List;
use json_spell::{Json, Member};
use std::alloc::Global;

// How many members a map may have for each key to be looked for in the members that follow. With more of them that
// would take too long, and the keys are put into a set.
const FEW: usize = 32;

// Reads one value of an array, by its place from 0, and puts what it is at the end of `out`.
pub trait ItemReader<'a, T: Drop> {
    ghost reads: { Self → ℕ × Tree → Items T → Option (Items T) };

    fn read(
        &self,
        alloc: Global,
        index: usize,
        json: &Json<'_, 'a>,
        out: &mut List<T>,
    ) -> Result<(), PartFault>
        ensures { Makes result out.new (reads self.now (index, json_view json.now) out.old) };
}

// Reads one entry of a map, and puts what it is at the end of `out`.
pub trait EntryReader<'a, T: Drop> {
    ghost reads: { Self → Items ℕ × Tree → Items T → Option (Items T) };

    fn read(
        &self,
        alloc: Global,
        entry: &Member<'_, 'a>,
        out: &mut List<T>,
    ) -> Result<(), PartFault>
        ensures { Makes result out.new (reads self.now (member_view entry.now) out.old) };
}

// Reads the values of an array one after another.
pub fn each_item<'a, T: Drop, R: ItemReader<'a, T>>(
    alloc: Global,
    reader: &R,
    items: &[Json<'_, 'a>],
    out: &mut List<T>,
) -> Result<(), PartFault>
    ensures { Makes result out.new (steps (R.reads reader.now) (numbered 0 (map json_view items.now)) out.old) }
{
    for (index, json) in items.iter().enumerate() {
        reader.read(alloc, index, json, out)?;
    }
    Ok(())
}

// The same of an array that may be missing.
pub fn each_found_item<'a, T: Drop, R: ItemReader<'a, T>>(
    alloc: Global,
    reader: &R,
    items: Option<&[Json<'_, 'a>]>,
    out: &mut List<T>,
) -> Result<(), PartFault>
    ensures { Makes result out.new (steps (R.reads reader.now) (numbered 0 (found_items items.entry)) out.old) }
{
    match items {
        None => Ok(()),
        Some(items) => each_item(alloc, reader, items, out),
    }
}

// Reads the entries of a map with few members one after another.
fn each_of_few<'a, T: Drop, R: EntryReader<'a, T>>(
    alloc: Global,
    reader: &R,
    members: &[Member<'_, 'a>],
    out: &mut List<T>,
) -> Result<(), PartFault>
    ensures { Makes result out.new (steps (R.reads reader.now) (entries (pairs_of (map member_view members.now))) out.old) }
{
    let mut left = members;
    while let [member, rest @ ..] = left {
        if !has_key(rest, member.key) {
            reader.read(alloc, member, out)?;
        }
        left = rest;
    }
    Ok(())
}

// Reads the entries of a map with many members one after another.
fn each_of_many<'a, T: Drop, R: EntryReader<'a, T>>(
    alloc: Global,
    reader: &R,
    members: &[Member<'_, 'a>],
    out: &mut List<T>,
) -> Result<(), PartFault>
    ensures { Makes result out.new (steps (R.reads reader.now) (entries (pairs_of (map member_view members.now))) out.old) }
{
    let mut flags = last_flags(alloc, members)?;
    let mut left = members;
    while let [member, rest @ ..] = left {
        if flags.pop() == Some(true) {
            reader.read(alloc, member, out)?;
        }
        left = rest;
    }
    Ok(())
}

// Reads the entries of a map one after another. A map that is missing has none.
pub fn each_found_entry<'a, T: Drop, R: EntryReader<'a, T>>(
    alloc: Global,
    reader: &R,
    members: Option<&[Member<'_, 'a>]>,
    out: &mut List<T>,
) -> Result<(), PartFault>
    ensures { Makes result out.new (steps (R.reads reader.now) (found_entries members.entry) out.old) }
{
    match members {
        None => Ok(()),
        Some(members) if members.len() <= FEW => each_of_few(alloc, reader, members, out),
        Some(members) => each_of_many(alloc, reader, members, out),
    }
}
