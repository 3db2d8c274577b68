// The store: the stored triples, and the region with their texts.

ghost use Rattle.std.specs.Prelude.{◌≡◌, ◌≤◌, ℕ, [], length, Some, None, IfOk, IsSome, OnErr};
ghost use Rattle.std.specs.FinMap as map;
ghost use Rattle.rdf_term.specs.declared.triple.Triple.{Triple};
ghost use Rattle.text_region.specs.{declared.piece.Piece.Piece as ThePiece, Class.IsClassOf, Region.live, Region.made};
ghost use Rattle.slot_keys.specs.declared.key.Key.{Key};
ghost use Rattle.triple_catalog.specs.{Room.room_for, Stored.Changes};
ghost use Rattle.triple_store.specs.StoreState.{AreLaid, HasKey, IsSound, beside, counts_in, limit_of};

use rdf_term::OutOfMemory;
use slot_index::SlotIndex;
use std::alloc::Global;
use std::hash::RandomState;
use std::marker::Model;
use term_pool::Pool;
use text_region::{Piece, Region};
use triple_catalog::Catalog;

/// The triples that some entity owns, with the number of their owners, and a region with the texts of their terms, each once. The caller
/// may have texts of its own in the region, beside these. Contracts see the counts of the stored triples, the keys under which they are
/// stored, what lies beside the terms' texts, and how many terms there may be.
#[derive(Drop)]
pub struct Store {
    pub(crate) catalog: Catalog,
    pub(crate) region: Region,
}

impl Model for Store {
    ghost use Rattle.triple_catalog.specs.Stored.{IsStored};
    ghost use Rattle.triple_store.specs.{StoreState.StoreState, StoreState.store_code};

    ghost Value = { StoreState };

    ghost coded = { store_code };

    ghost view = { λ s. record { catalog = s.catalog; texts = s.region } };

    ghost invariant = { λ s. IsStored s.catalog s.region };
}

impl Store {
    /// The store without triples and texts. Terms are found by hashes under these keys, and there are at most as many as the limit says.
    pub fn new(alloc: Global, keys: RandomState, limit: u32) -> Result<Store, OutOfMemory>
        ensures sound { IfOk result IsSound }
        ensures counts { IfOk result (λ store. counts_in store ≡ map.empty) }
        ensures beside { IfOk result (λ store. (piece : ThePiece) → beside store piece ≡ None) }
        ensures limit { IfOk result (λ store. limit_of store ≡ limit) }
    {
        let region = Region::new(alloc)?;
        let catalog = Catalog {
            alloc,
            pool: Pool::new(alloc, keys, limit),
            index: SlotIndex::new(alloc),
        };
        Ok(Store { catalog, region })
    }

    /// Sets another limit on the number of terms, which takes no memory. No triple is stored.
    pub fn set_limit(&mut self, limit: u32)
        requires { map.len (counts_in self.old) ≡ 0 }
        ensures sound { IsSound self.new }
        ensures counts { counts_in self.new ≡ counts_in self.old }
        ensures beside { (piece : ThePiece) → beside self.new piece ≡ beside self.old piece }
        ensures kept { (key : Key) (triple : Triple) → HasKey self.old key triple → HasKey self.new key triple }
        ensures limit { limit_of self.new ≡ limit }
    {
        self.catalog.pool.set_limit(limit);
    }

    /// Puts a copy of the bytes into the region, beside the terms' texts. It takes memory only where no block of their size is in no use;
    /// after `OutOfMemory` the store is as it was.
    pub fn place(&mut self, bytes: &[u8]) -> Result<Piece, OutOfMemory>
        requires short { length bytes.now ≤ 33554432 }
        ensures sound { IsSound self.new }
        ensures counts { counts_in self.new ≡ counts_in self.old }
        ensures ok { IfOk result (λ piece. Changes (beside self.old) (beside self.new) piece None (Some bytes.now)) }
        ensures err { OnErr result (self.new ≡ self.old) }
        ensures full { OnErr result ((class : ℕ) → IsClassOf (length bytes.now) class → live self.old.texts class ≡ made self.old.texts class) }
        ensures kept { (key : Key) (triple : Triple) → HasKey self.old key triple → HasKey self.new key triple }
        ensures limit { limit_of self.new ≡ limit_of self.old }
    {
        let piece = self.region.place(bytes)?;
        Ok(piece)
    }

    /// Gives back the block of a text beside the terms', which takes no memory.
    pub fn free(&mut self, piece: Piece)
        requires live { IsSome (beside self.old piece) }
        ensures sound { IsSound self.new }
        ensures counts { counts_in self.new ≡ counts_in self.old }
        ensures freed { Changes (beside self.old) (beside self.new) piece (beside self.old piece) None }
        ensures kept { (key : Key) (triple : Triple) → HasKey self.old key triple → HasKey self.new key triple }
        ensures limit { limit_of self.new ≡ limit_of self.old }
    {
        self.region.free(piece);
    }

    /// A text beside the terms', which takes no memory.
    pub fn read(&self, piece: &Piece) -> &[u8]
        requires live { IsSome (beside self.now piece.now) }
        ensures { beside self.now piece.now ≡ Some result.now }
    {
        self.region.read(piece)
    }

    /// The region, which has the texts of the stored triples' terms and those beside them.
    pub fn region(&self) -> &Region
        ensures region { result.now ≡ self.now.texts }
        ensures laid { AreLaid self.now }
    {
        &self.region
    }

    /// The number of stored triples, which takes no memory and no search.
    pub fn triples(&self) -> usize
        ensures { result ≡ map.len (counts_in self.now) }
    {
        self.catalog.index.len()
    }

    /// The number of distinct terms of the stored triples.
    pub fn terms(&self) -> u32
        ensures count { result ≡ room_for (counts_in self.now) [] }
        ensures within { result ≤ limit_of self.now }
    {
        self.catalog.pool.len()
    }
}
