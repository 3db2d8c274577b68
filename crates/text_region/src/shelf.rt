// The blocks of one class.

ghost use Rattle.std.specs.Prelude.{◌≡◌, ◌+◌, ◌<◌, ◌≤◌, ◌++◌, ◌∷◌, [], length, take, drop, Some, None, OnOk, OnErr, IfOk, IsSome, is_some, count_by, slice_set};
ghost use Rattle.text_region.specs.Blocks.{block_at, HasFreed, HasPut};

use crate::length::Length;
use base::OutOfMemory;
use std::alloc::Global;
use std::marker::Model;

// The blocks of one class lie one after the other in `bytes`. `lengths` has the length of the text in each, and
// `spare` the numbers of those that are in no use.
#[derive(Drop)]
pub(crate) struct Shelf {
    size: usize,
    bytes: Vec<u8>,
    lengths: Vec<Length>,
    spare: Vec<u32>,
}

impl Model for Shelf {
    ghost use Rattle.std.specs.Prelude.{vec_capacity};
    ghost use Rattle.text_region.specs.{Blocks.Shelf as Blocks, Blocks.shelf_code, Blocks.blocks_in, Shelf.IsShelf};

    ghost Value = { Blocks };

    ghost coded = { shelf_code };

    ghost view = { λ s. record { size = s.size; blocks = blocks_in s.size s.bytes.items s.lengths.items } };

    ghost invariant = { λ s. IsShelf s.size s.bytes.items s.lengths.items s.spare.items (vec_capacity s.spare) };
}

impl Shelf {
    // No blocks of `size` bytes, which takes no memory.
    pub(crate) fn new(alloc: Global, size: usize) -> Shelf
        requires { size ≤ 33554432 }
        ensures size { result.size ≡ size }
        ensures empty { result.blocks ≡ [] }
    {
        Shelf {
            size,
            bytes: Vec::new(alloc),
            lengths: Vec::new(alloc),
            spare: Vec::new(alloc),
        }
    }

    // How many blocks are in use.
    pub(crate) fn live(&self) -> usize
        ensures { result ≡ count_by is_some self.now.blocks }
    {
        self.lengths.len() - self.spare.len()
    }

    // How many blocks there are.
    pub(crate) fn made(&self) -> usize
        ensures { result ≡ length self.now.blocks }
    {
        self.lengths.len()
    }

    // The text in a block.
    pub(crate) fn read(&self, number: u32) -> &[u8]
        requires { IsSome (block_at self.now.blocks number) }
        ensures { block_at self.now.blocks number ≡ Some result.now }
    {
        let Some(length) = self.lengths[number as usize].get() else {
            unreachable!()
        };
        let start = number as usize * self.size;
        text_at(&self.bytes, start, length as usize)
    }

    // Puts a text into a block that is in no use, or into a new one where there is none.
    pub(crate) fn place(&mut self, text: &[u8]) -> Result<u32, OutOfMemory>
        requires { length text.now ≤ self.old.size }
        ensures size { self.new.size ≡ self.old.size }
        ensures ok { IfOk result (λ number. HasPut self.old.blocks self.new.blocks number text.now) }
        ensures err { OnErr result (self.new ≡ self.old) }
        ensures full { OnErr result (count_by is_some self.old.blocks ≡ length self.old.blocks) }
    {
        if self.live() == self.made() {
            self.grow()?;
        }
        Ok(self.put(text))
    }

    // Gives a block back, which is in no use then.
    pub(crate) fn free(&mut self, number: u32)
        requires { IsSome (block_at self.old.blocks number) }
        ensures size { self.new.size ≡ self.old.size }
        ensures blocks { HasFreed self.old.blocks self.new.blocks number }
    {
        self.lengths[number as usize] = Length::none();
        self.spare.push_reserved(number);
    }

    // Makes one more block, which is in no use yet.
    fn grow(&mut self) -> Result<(), OutOfMemory>
        ensures size { self.new.size ≡ self.old.size }
        ensures ok { OnOk result (self.new.blocks ≡ self.old.blocks ++ None ∷ []) }
        ensures err { OnErr result (self.new ≡ self.old) }
    {
        let made = self.lengths.len();
        if made >= u32::MAX as usize {
            return Err(OutOfMemory);
        }
        self.lengths.reserve(1)?;
        self.spare.reserve(made + 1 - self.spare.len())?;
        self.bytes.resize(self.bytes.len() + self.size, 0)?;
        self.lengths.push_reserved(Length::none());
        self.spare.push_reserved(made as u32);
        Ok(())
    }

    // Puts a text into a block that is in no use.
    fn put(&mut self, text: &[u8]) -> u32
        requires long { length text.now ≤ self.old.size }
        requires spare { count_by is_some self.old.blocks < length self.old.blocks }
        ensures size { self.new.size ≡ self.old.size }
        ensures there { result < length self.old.blocks }
        ensures spare { block_at self.old.blocks result ≡ None }
        ensures blocks { self.new.blocks ≡ slice_set self.old.blocks result (Some text.now) }
    {
        let Some(number) = self.spare.pop() else {
            unreachable!()
        };
        write_at(&mut self.bytes, number as usize * self.size, text);
        self.lengths[number as usize] = Length::of(text.len() as u32);
        number
    }
}

// The text of this length from a place on.
fn text_at(bytes: &[u8], start: usize, len: usize) -> &[u8]
    requires { start + len ≤ length bytes.now }
    ensures { result.now ≡ take len (drop start bytes.now) }
{
    &bytes[start..start + len]
}

// Writes a text over the bytes from a place on.
fn write_at(bytes: &mut [u8], start: usize, text: &[u8])
    requires { start + length text.now ≤ length bytes.old }
    ensures { bytes.new ≡ take start bytes.old ++ (text.now ++ drop (length text.now) (drop start bytes.old)) }
{
    bytes[start..start + text.len()].copy_from_slice(text);
}
