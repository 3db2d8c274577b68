// A list that grows at its end.

ghost use Rattle.std.specs.Prelude.{◌≡◌, [], ◌∷◌, ◌++◌, length, IsTrue, ◌↔◌, OnOk, OnErr, slice_get};
ghost use Rattle.std.specs.Option.{option_copied};

use crate::memory::OutOfMemory;
use std::alloc::Global;
use std::marker::Model;

/// A list that grows at its end. Contracts see the list of its items.
#[derive(Drop)]
pub struct List<T> {
    cells: Vec<T>,
}

impl<T> Model for List<T> {
    ghost use Rattle.std.specs.Prelude.{List as Items};

    ghost Value = { Items T };

    ghost view = { λ a. a.cells.items };
}

impl<T> List<T> {
    /// The empty list, which takes no memory.
    pub fn new(alloc: Global) -> List<T>
        ensures { result ≡ [] }
    {
        List {
            cells: Vec::new(alloc),
        }
    }

    /// Takes the vector over without a copy.
    pub fn from_vec(cells: Vec<T>) -> List<T>
        ensures { result ≡ cells.items }
    {
        List { cells }
    }

    /// Gives the vector away without a copy.
    pub fn into_vec(self) -> Vec<T>
        ensures { result.items ≡ self }
    {
        let List { cells } = self;
        cells
    }

    /// The number of items.
    pub fn len(&self) -> usize
        ensures { result ≡ length self.now }
    {
        self.cells.len()
    }

    /// Whether there is no item.
    pub fn is_empty(&self) -> bool
        ensures { IsTrue result ↔ (self.now ≡ []) }
    {
        self.cells.is_empty()
    }

    /// The item at an index from 0.
    pub fn get(&self, index: usize) -> Option<&T>
        ensures { option_copied result ≡ slice_get self.now index }
    {
        self.cells.get(index)
    }

    /// All items in order.
    pub fn as_slice(&self) -> &[T]
        ensures { result.now ≡ self.now }
    {
        self.cells.as_slice()
    }
}

impl<T: Drop> List<T> {
    /// Moves the items of another list to the end; after `OutOfMemory` this list is as it was.
    pub fn append(&mut self, other: List<T>) -> Result<(), OutOfMemory>
        ensures ok { OnOk result (self.new ≡ self.old ++ other) }
        ensures err { OnErr result (self.new ≡ self.old) }
    {
        let mut moved = other.into_vec();
        self.cells.append(&mut moved)?;
        Ok(())
    }

    /// Puts an item at the end; after `OutOfMemory` the list is as it was.
    pub fn push(&mut self, item: T) -> Result<(), OutOfMemory>
        ensures ok { OnOk result (self.new ≡ self.old ++ item ∷ []) }
        ensures err { OnErr result (self.new ≡ self.old) }
    {
        self.cells.push(item)?;
        Ok(())
    }
}
