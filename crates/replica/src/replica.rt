// A replica of a producer's triples.

ghost use Rattle.std.specs.Prelude.{◌≡◌, ◌↔◌, ◌+◌, ◌<◌, ◌≤◌, ◌++◌, ◌∷◌, [], ℕ, List, cond, true, false, Err, IfOk, IsOk, IsSome, OnErr, OnOk, is_some, None, Some, ◌^◌};
ghost use Rattle.std.specs.{BTreeMap.is_at, Ordering.nat_cmp};
ghost use Rattle.replica.specs.declared.record.PatchRecord.{PatchRecord as TheRecord};
ghost use Rattle.replica.specs.declared.replica.Received.TheVariants.{Fresh as IsFresh, Repeat as IsRepeat};
ghost use Rattle.replica.specs.Record.{IsSound};
ghost use Rattle.replica.specs.Replica.{Follows, HasRoomForNext, HasNoRoomForNext, is_known, nothing_received, numbered, waiting_at};

use crate::applying::apply_waiting;
use crate::record::PatchRecord;
use rdf_term::{OutOfMemory, TripleSet};
use std::alloc::Global;
use std::collections::BTreeMap;
use std::hash::RandomState;
use std::marker::Model;
use triple_store::{Rows, Store, StoreFault};

/// Whether a record is new.
#[derive(Clone, Copy, PartialEq, Eq)]
pub enum Received {
    /// No record with this number was received before.
    Fresh,
    /// A record with this number was received before, and nothing changes.
    Repeat,
}

/// The triples of a producer, rebuilt from its records, which may come in any order, more than once or not at all. A record waits until
/// all before it were applied.
#[derive(Drop)]
pub struct Replica {
    alloc: Global,
    store: Store,
    applied: u64,
    waiting: BTreeMap<u64, PatchRecord>,
}

impl Model for Replica {
    ghost use Rattle.std.specs.Prelude.{◌≡◌, ℕ, Some};
    ghost use Rattle.std.specs.FinMap as map;
    ghost use Rattle.triple_store.specs.StoreState.{IsSound, counts_in, limit_of};
    ghost use Rattle.replica.specs.declared.record.PatchRecord.{PatchRecord};
    ghost use Rattle.replica.specs.Replica.{AreOwnedOnce, IsWaiting, ReplicaState, waiting_at};

    ghost Value = { ReplicaState };

    ghost view = { λ r. record { triples = map.keys (counts_in r.store); applied = r.applied; waiting = r.waiting.entries; limit = limit_of r.store } };

    ghost invariant = { λ r. AreOwnedOnce (counts_in r.store)
        × ((number : ℕ) (item : PatchRecord) → waiting_at r.waiting.entries number ≡ Some item → IsWaiting r.applied number item) };
}

impl Replica {
    /// A replica that received no record, with this limit on distinct terms. Terms are found by hashes under these keys.
    pub fn new(alloc: Global, keys: RandomState, limit: u32) -> Result<Replica, OutOfMemory>
        ensures new { IfOk result (λ replica. replica ≡ nothing_received limit) }
        ensures follows { IfOk result (Follows []) }
    {
        let store = Store::new(alloc, keys, limit)?;
        Ok(Replica {
            alloc,
            store,
            applied: 0,
            waiting: BTreeMap::new(alloc),
        })
    }

    /// Keeps the record until it is its turn. After `OutOfMemory` nothing has changed; a record whose number is known takes no memory.
    pub fn receive(&mut self, item: PatchRecord) -> Result<Received, OutOfMemory>
        requires { IsSound item }

        // A record is a repeat exactly where one with its number was received before.
        ensures answer { IfOk result (λ received. (items : List TheRecord) → Follows items self.old → (received ≡ IsRepeat) ↔ IsSome (numbered item.number items)) }
        ensures follows { OnOk result ((items : List TheRecord) → Follows items self.old → Follows (items ++ item ∷ []) self.new) }
        ensures repeat { IfOk result (λ received. received ≡ IsRepeat → self.new ≡ self.old) }
        ensures others { self.new ≡ record self.old { waiting = self.new.waiting } }
        ensures err { OnErr result (self.new ≡ self.old) }
        ensures free { is_known self.old item.number ≡ true → IsOk result }
    {
        if self.is_known(item.number) {
            Ok(Received::Repeat)
        } else {
            self.keep(item)
        }
    }

    // Whether a record with this number was received.
    fn is_known(&self, number: u64) -> bool
        ensures { result ≡ is_known self.now number }
    {
        number <= self.applied || self.waiting.contains_key(&number)
    }

    // Keeps a record that is new.
    fn keep(&mut self, item: PatchRecord) -> Result<Received, OutOfMemory>
        requires sound { IsSound item }
        requires new { is_known self.old item.number ≡ false }
        ensures fresh { IfOk result (λ received. received ≡ IsFresh) }
        ensures waits { OnOk result ((number : ℕ) → waiting_at self.new.waiting number ≡ cond (is_at (nat_cmp item.number) number) (Some item) (waiting_at self.old.waiting number)) }
        ensures others { self.new ≡ record self.old { waiting = self.new.waiting } }
        ensures err { OnErr result (self.new ≡ self.old) }
    {
        match self.waiting.insert(item.number, item) {
            Ok(_) => Ok(Received::Fresh),
            Err(_) => Err(OutOfMemory),
        }
    }

    /// Applies the next record, if it was received, and says whether it was.
    ///
    /// # Errors
    /// There would be more distinct terms than the limit, or memory is refused. Nothing has changed then. If the next record wasn't
    /// received, no memory is taken.
    pub fn advance(&mut self) -> Result<bool, StoreFault>
        // It answers false exactly if the next record wasn't received.
        ensures answer { IfOk result (λ moved. (items : List TheRecord) → Follows items self.old → moved ≡ is_some (numbered (self.old.applied + 1) items)) }
        ensures follows { OnOk result ((items : List TheRecord) → Follows items self.old → Follows items self.new) }
        ensures counted { IfOk result (λ moved. self.new.applied ≡ self.old.applied + cond moved 1 0) }
        ensures full { result ≡ Err StoreFault.Full → HasNoRoomForNext self.old }
        ensures within { OnOk result (HasRoomForNext self.old) }
        ensures limit { self.new.limit ≡ self.old.limit }
        ensures small { self.new.applied < 2 ^ 64 }
        ensures err { OnErr result (self.new ≡ self.old) }
        ensures free { waiting_at self.old.waiting (self.old.applied + 1) ≡ None → IsOk result }
    {
        if self.applied == u64::MAX {
            return Ok(false);
        }
        let next = self.applied + 1;
        match apply_waiting(self.alloc, &mut self.store, &self.waiting, next) {
            Ok(true) => {
                self.waiting.remove(&next);
                self.applied = next;
                Ok(true)
            }
            Ok(false) => Ok(false),
            Err(fault) => Err(fault),
        }
    }

    /// How many records were applied, which takes no memory: those from 1 to this number.
    pub fn applied(&self) -> u64
        ensures { result ≡ self.now.applied }
    {
        self.applied
    }

    /// The triples, in memory of their own.
    pub fn export(&self) -> Result<TripleSet, OutOfMemory>
        ensures { IfOk result (λ set. set ≡ self.now.triples) }
    {
        self.store.all()
    }

    /// The triples as slices of their texts, without a copy of these.
    pub fn rows(&self) -> Result<Rows<'_>, OutOfMemory>
        ensures { IfOk result (λ rows. rows ≡ self.now.triples) }
    {
        self.store.rows()
    }
}
