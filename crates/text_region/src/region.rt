// The blocks of all classes.

ghost use Rattle.std.specs.Prelude.{◌≡◌, ◌<◌, ◌≤◌, ℕ, length, Some, None, OnErr, IfOk, IsSome, IsOk};
ghost use Rattle.text_region.specs.Class.{IsClassOf};
ghost use Rattle.text_region.specs.Region.{AreInTheirClass, Frees, Places, Updates, bytes_of, live, made};
ghost use Rattle.text_region.specs.Peak.{IsNew};

use crate::class::{class_of, size_of};
use crate::piece::Piece;
use crate::shelf::Shelf;
use base::OutOfMemory;
use std::alloc::Global;
use std::marker::Model;

/// Texts of at most 33,554,432 bytes, each in a block of the least class that holds it. A block that is given back is
/// used again before another of its class is made. Contracts see the blocks of each class, and the text in each that
/// is in use.
#[derive(Drop)]
pub struct Region {
    shelves: Vec<Shelf>,
}

impl Model for Region {
    ghost use Rattle.std.specs.Prelude.{map};
    ghost use Rattle.text_region.specs.{Region.Texts, Region.texts_code, Shelves.AreShelves};

    ghost Value = { Texts };

    ghost coded = { texts_code };

    ghost view = { λ r. map (λ shelf. shelf.blocks) r.shelves.items };

    ghost invariant = { λ r. AreShelves r.shelves.items };
}

impl Region {
    /// A region without texts and blocks.
    pub fn new(alloc: Global) -> Result<Region, OutOfMemory>
        ensures { IfOk result IsNew }
    {
        let mut shelves = Vec::with_capacity(alloc, 85)?;
        for class in 0..85u8 {
            shelves.push(Shelf::new(alloc, size_of(class)))?;
        }
        Ok(Region { shelves })
    }

    /// Puts a copy of the bytes into a block in no use of their class, or into a new one where there is none. It takes
    /// memory only for a new block; after `OutOfMemory` the region is as it was.
    pub fn place(&mut self, bytes: &[u8]) -> Result<Piece, OutOfMemory>
        requires { length bytes.now ≤ 33554432 }
        ensures class { IfOk result (λ piece. IsClassOf (length bytes.now) piece.class) }
        ensures was_vacant { IfOk result (λ piece. bytes_of self.old piece ≡ None) }
        ensures updates { IfOk result (λ piece. Updates self.old self.new piece (Some bytes.now)) }
        ensures places { IfOk result (λ piece. Places self.old self.new piece.class) }
        ensures err { OnErr result (self.new ≡ self.old) }
        ensures full { OnErr result ((class : ℕ) → IsClassOf (length bytes.now) class → live self.old class ≡ made self.old class) }
    {
        let class = class_of(bytes.len());
        let number = self.shelves[class as usize].place(bytes)?;
        Ok(Piece { class, number })
    }

    /// The text of a live piece.
    pub fn read(&self, piece: &Piece) -> &[u8]
        requires { IsSome (bytes_of self.now piece.now) }
        ensures { bytes_of self.now piece.now ≡ Some result.now }
    {
        self.shelves[piece.class as usize].read(piece.number)
    }

    /// Gives the block of a live piece back. It takes no memory.
    pub fn free(&mut self, piece: Piece)
        requires { IsSome (bytes_of self.old piece) }
        ensures updates { Updates self.old self.new piece None }
        ensures frees { Frees self.old self.new piece.class }
    {
        self.shelves[piece.class as usize].free(piece.number);
    }

    /// How many pieces of a class are live: those whose texts have lengths of the class.
    pub fn live(&self, class: u8) -> u64
        requires { class < 85 }
        ensures count { result ≡ live self.now class }
        ensures classes { AreInTheirClass self.now }
    {
        self.shelves[class as usize].live() as u64
    }

    /// How many blocks of a class were made.
    pub fn made(&self, class: u8) -> u64
        requires { class < 85 }
        ensures { result ≡ made self.now class }
    {
        self.shelves[class as usize].made() as u64
    }
}
