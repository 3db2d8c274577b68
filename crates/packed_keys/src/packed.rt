// A run of keys in cells of one size.

ghost use Rattle.std.specs.Prelude.{◌≡◌, ◌-◌, ◌<◌, ◌≤◌, ◌++◌, cond, length, slice_index_or, IfNone, IfOk, IfSome, OnOk, OnErr};
ghost use Rattle.std.specs.List.{insert, remove};
ghost use Rattle.slot_keys.specs.{declared.key.Key.Key as TheKey};
ghost use Rattle.slot_keys.specs.Keys.{key_cmp};
ghost use Rattle.comparison_steps.specs.Steps.{WithinSteps};
ghost use Rattle.packed_keys.specs.{Frames.IsIn, Frames.key_at, Search.EndsAt, Search.IsAfter};

use crate::cell::Cell;
use crate::frame::Frame;
use crate::search::search_cells;
use base::OutOfMemory;
use comparison_steps::StepCounter;
use slot_keys::Key;
use std::alloc::Global;
use std::marker::Model;

// How many cells of room a full run gets at once.
const GROWTH: usize = 8;

/// A run of keys, each as the number that it has in a frame. Contracts see the list of the keys.
#[derive(Drop)]
pub struct Packed<C: Cell> {
    frame: Frame,
    cells: Vec<C>,
}

impl<C: Cell> Model for Packed<C> {
    ghost use Rattle.std.specs.Prelude.{List as Items, map};
    ghost use Rattle.std.specs.List.{All};
    ghost use Rattle.slot_keys.specs.declared.key.Key.{Key};
    ghost use Rattle.slot_keys.specs.Keys.{key_cmp};
    ghost use Rattle.comparison_steps.specs.Steps.{WithinSteps};
    ghost use Rattle.packed_keys.specs.{Frames.IsIn, Frames.key_at, Search.EndsAt, Search.IsAfter};

    ghost Value = { Items Key };

    ghost view = { λ p. map (λ cell. key_at p.frame (C.number cell)) p.cells.items };

    ghost invariant = { λ p. All (λ cell. IsIn p.frame (C.number cell)) p.cells.items };
}

impl<C: Cell> Packed<C> {
    /// A run of these keys, in no more memory than they need; none where one of them has no number in the frame, or too large a number for
    /// a cell.
    pub fn new(alloc: Global, frame: Frame, keys: &[Key]) -> Result<Option<Packed<C>>, OutOfMemory>
        ensures { IfOk result (λ made. IfSome made (λ packed. packed ≡ keys.now)) }
    {
        let mut cells = Vec::with_capacity(alloc, keys.len())?;
        for key in keys {
            let Some(cell) = cell_of(&frame, *key) else {
                return Ok(None);
            };
            cells.push(cell)?;
        }
        Ok(Some(Packed { frame, cells }))
    }

    /// The number of keys.
    pub fn len(&self) -> usize
        ensures { result ≡ length self.now }
    {
        self.cells.len()
    }

    /// The key at an index.
    pub fn key(&self, at: usize) -> Key
        requires { at < length self.now }
        ensures { (d : TheKey) → result ≡ slice_index_or self.now at d }
    {
        self.frame.key(self.cells[at].number())
    }

    /// Finds a key among those from an index on by its number, as std's `binary_search` answers; none where it has no number in the frame,
    /// and then without a step. Each comparison is one step. The key before that index, if any, is below it.
    pub fn search<S: StepCounter>(
        &self,
        start: usize,
        key: Key,
        steps: &mut S,
    ) -> Option<Result<usize, usize>>
        requires within { start ≤ length self.now }
        requires above { IsAfter (key_cmp key) self.now start }
        ensures ends { IfSome result (EndsAt (key_cmp key) self.now start) }
        ensures cost { IfSome result (λ _. WithinSteps (length self.now - start) 0 (S.total steps.old) (S.total steps.new)) }
        ensures none { IfNone result (S.total steps.new ≡ S.total steps.old) }
    {
        let number = self.frame.number(key)?;
        let ended = search_cells(self.cells.as_slice(), start, number, steps);
        Some(ended)
    }

    /// Puts a key in at an index, and moves those from there on up by one. Where the key has no number that fits, it answers false, and
    /// nothing has changed; after `OutOfMemory` neither.
    pub fn insert(&mut self, at: usize, key: Key) -> Result<bool, OutOfMemory>
        requires { at ≤ length self.old }
        ensures ok { IfOk result (λ done. self.new ≡ cond done (insert self.old at key) self.old) }
        ensures err { OnErr result (self.new ≡ self.old) }
    {
        let Some(cell) = cell_of(&self.frame, key) else {
            return Ok(false);
        };
        make_room(&mut self.cells)?;
        self.cells.insert(at, cell)?;
        Ok(true)
    }

    /// Takes the key at an index out.
    pub fn remove(&mut self, at: usize)
        requires { at < length self.old }
        ensures { self.new ≡ remove self.old at }
    {
        self.cells.remove(at);
    }

    /// Puts all keys behind others.
    pub fn append_to(&self, keys: &mut Vec<Key>) -> Result<(), OutOfMemory>
        ensures { OnOk result (keys.new.items ≡ keys.old.items ++ self.now) }
    {
        for cell in &self.cells {
            keys.push(self.frame.key(cell.number()))?;
        }
        Ok(())
    }
}

// The cell of a key, if it is large enough for the key's number in the frame.
fn cell_of<C: Cell>(frame: &Frame, key: Key) -> Option<C>
    ensures stands { IfSome result (λ cell. key_at frame.now (C.number cell) ≡ key) }
    ensures inside { IfSome result (λ cell. IsIn frame.now (C.number cell)) }
{
    let number = frame.number(key)?;
    let cell = C::with(number)?;
    Some(cell)
}

// Makes room for one more cell; after `OutOfMemory` the cells are as they were.
fn make_room<C>(cells: &mut Vec<C>) -> Result<(), OutOfMemory>
    ensures { cells.new.items ≡ cells.old.items }
{
    if cells.len() == cells.capacity() {
        cells.reserve_exact(GROWTH)?;
    }
    Ok(())
}
