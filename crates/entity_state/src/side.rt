// The list of the side output's entries.

ghost use Rattle.std.specs.Prelude.{◌≡◌, ◌<◌, [], ◌∷◌, ◌++◌, length, slice_get, OnOk, OnErr, IsOk};
ghost use Rattle.std.specs.Option.{option_copied};

use crate::entry::Entry;
use base::OutOfMemory;
use std::alloc::Global;
use std::marker::Model;

/// The side output. Contracts see the list of its entries, and how many more go in without memory.
#[derive(Drop)]
pub struct Side {
    entries: Vec<Entry>,
}

impl Model for Side {
    ghost use Rattle.std.specs.Prelude.{vec_len, vec_capacity, ◌-◌};
    ghost use Rattle.entity_state.specs.Side.{SideList};

    ghost Value = { SideList };

    ghost view = { λ a. record { entries = a.entries.items; free = vec_capacity a.entries - vec_len a.entries } };
}

impl Side {
    /// The side output without entries, which takes no memory.
    pub fn new(alloc: Global) -> Side
        ensures { result.entries ≡ [] }
    {
        Side {
            entries: Vec::new(alloc),
        }
    }

    /// Makes room for one more entry.
    pub fn make_room(&mut self) -> Result<(), OutOfMemory>
        ensures entries { self.new.entries ≡ self.old.entries }
        ensures room { OnOk result (0 < self.new.free) }
    {
        self.entries.reserve(1)?;
        Ok(())
    }

    /// Puts an entry at the end.
    pub fn push(&mut self, entry: Entry) -> Result<(), OutOfMemory>
        ensures room { 0 < self.old.free → IsOk result }
        ensures ok { OnOk result (self.new.entries ≡ self.old.entries ++ entry ∷ []) }
        ensures err { OnErr result (self.new.entries ≡ self.old.entries) }
    {
        self.entries.push(entry)?;
        Ok(())
    }

    /// The number of entries.
    pub fn len(&self) -> usize
        ensures { result ≡ length self.now.entries }
    {
        self.entries.len()
    }

    /// The entries in their order.
    pub fn entries(&self) -> &[Entry]
        ensures { result.now ≡ self.now.entries }
    {
        self.entries.as_slice()
    }

    /// The entry at an index from 0.
    pub fn get(&self, index: usize) -> Option<&Entry>
        ensures { option_copied result ≡ slice_get self.now.entries index }
    {
        self.entries.get(index)
    }
}
