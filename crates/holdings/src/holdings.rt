// What the entities hold.

ghost use Rattle.std.specs.Prelude.{◌≡◌, ◌≤◌, [], true, false, Some, length, IfOk, IfSome, IsSome, IsTrue, MatchOption, OnErr, OnOk};
ghost use Rattle.std.specs.FinMap as map;
ghost use Rattle.rdf_term.specs.{declared.triple.Triple.Triple as TheTriple, Order.triple_cmp};
ghost use Rattle.entity_state.specs.{Standing.standing_of, Table.has_room};
ghost use Rattle.replay_model.specs.{Records.record_of, Union.owners, Union.triples_held, Union.union};
ghost use Rattle.replay_model.specs.Versions.{all_by, is_holder, meaning_by};
ghost use Rattle.fetched_pages.specs.{Compared.HasEntity, Compared.IsKnownPage, Meaning.meaning};
ghost use Rattle.triple_store.specs.{Counts.count_of, StoreState.beside, StoreState.counts_in};
ghost use Rattle.holders.specs.{Roomed.HasRoom, Roomed.room_with};
ghost use Rattle.holders.specs.Holding.{AreHolders, first_of, stale_by, version_in};
ghost use Rattle.holdings.specs.{Keeping.held_with, Keeping.kept_of, Keeping.piece_at, Laid.IsLaid, Timed.counts_held};

use crate::kept::{KeptPage, held_of, keys_of};
use crate::remapping::held_in;
use entity_model::{EntityId, MappingVersion};
use entity_state::{Record, Standing, Table};
use fetched_pages::KnownPage;
use holders::{Holders, discard_store, other};
use rdf_term::{List, OutOfMemory, TripleSet};
use std::alloc::Global;
use std::hash::RandomState;
use std::marker::Model;
use text_region::Region;
use triple_store::Store;

/// The records of the entities, the store of the triples that all held pages mean, with the bytes of these pages beside its terms' texts,
/// and the names of the entities that hold one. Contracts see the records, each with the bytes that its entity holds, how many terms
/// there may be, and the entities whose pages are mapped by version Two.
#[derive(Drop)]
pub struct Holdings {
    pub(crate) alloc: Global,
    pub(crate) store: Store,
    pub(crate) table: Table<KeptPage>,
    pub(crate) holders: Holders,
}

impl Model for Holdings {
    ghost use Rattle.triple_store.specs.StoreState.{limit_of};
    ghost use Rattle.holders.specs.{Codes.holdings_code, Holding.HoldingsState};
    ghost use Rattle.holdings.specs.{InStep.AreInStep, Keeping.seen};

    ghost Value = { HoldingsState };

    ghost coded = { holdings_code };

    ghost view = { λ a. record { records = seen a.store a.table.records; limit = limit_of a.store; by_two = a.holders.by_two } };

    ghost invariant = { λ a. AreInStep a.store a.holders a.table.records };
}

impl Holdings {
    /// No record, and at most so many terms. The hashes of the table and of the store are keyed by `keys`.
    pub fn new(alloc: Global, keys: RandomState, limit: u32) -> Result<Holdings, OutOfMemory>
        ensures { IfOk result (λ holdings. holdings ≡ record { records = map.empty; limit = limit; by_two = [] }) }
    {
        let table = Table::new(alloc, keys)?;
        let Ok(store) = Store::new(alloc, keys, limit) else {
            drop(table);
            return Err(OutOfMemory);
        };
        Ok(Holdings {
            alloc,
            store,
            table,
            holders: Holders::new(alloc),
        })
    }

    /// Sets how many terms there may be. There is no record yet.
    pub fn set_limit(&mut self, limit: u32)
        requires { map.len self.old.records ≡ 0 }
        ensures limit { self.new ≡ record self.old { limit = limit } }
    {
        self.store.set_limit(limit);
    }

    /// What is held has room, and what is named as mapped by version Two is held. It does nothing but to say so.
    pub fn facts(&self)
        ensures room { HasRoom (meaning_by meaning self.now.by_two) self.now.limit self.now.records }
        ensures holders { AreHolders self.now.by_two self.now.records }
    {
        let _ = &self.store;
    }

    /// What stands of an entity's record.
    pub fn standing(&self, id: EntityId) -> Standing
        ensures { result ≡ standing_of (record_of self.now.records id) }
    {
        standing_in(&self.table, id)
    }

    /// The revision that an entity holds, and its bytes.
    pub fn held(&self, id: EntityId) -> Option<(u64, &[u8])>
        ensures { MatchOption result ((record_of self.now.records id).held ≡ None)
            (λ h. (record_of self.now.records id).held ≡ Some (record { revision = h.0; content = h.1.now })) }
    {
        held_in(&self.store, &self.table, id)
    }

    /// The page that an entity holds, where it is that of an item or a property, is mapped by the version, and it is known how many times
    /// each of its triples comes. It takes no memory.
    pub fn known_page(&self, id: EntityId, version: MappingVersion) -> Option<KnownPage<'_>>
        ensures known { IfSome result (IsKnownPage self.now.records self.now.by_two version id) }
        ensures entity { IfSome result (HasEntity id) }
    {
        let named = self.holders.has(id, version);
        if named {
            known_in(&self.store, &self.table, id)
        } else {
            None
        }
    }

    /// The ids of the entities with a record, in rising order.
    pub fn entities(&self) -> Result<List<EntityId>, OutOfMemory>
        ensures { IfOk result (λ ids. ids ≡ map.keys self.now.records) }
    {
        self.table.ids(self.alloc)
    }

    /// The region, which has the texts of the terms of all that is held, and the held pages, and nothing else.
    pub fn region(&self) -> &Region
        ensures { IsLaid (meaning_by meaning self.now.by_two) result.now self.now.records }
    {
        self.store.region()
    }

    /// How many distinct terms the triples of all that is held have.
    pub fn terms(&self) -> u32
        ensures count { result ≡ room_with (meaning_by meaning self.now.by_two) self.now.records [] }
        ensures within { result ≤ self.now.limit }
    {
        self.store.terms()
    }

    /// The version by which the held page of an entity is mapped, if it holds one.
    pub fn held_version(&self, id: EntityId) -> Option<MappingVersion>
        ensures { result ≡ version_in self.now.by_two self.now.records id }
    {
        if self.holders.has(id, MappingVersion::Two) {
            Some(MappingVersion::Two)
        } else if self.holders.has(id, MappingVersion::One) {
            Some(MappingVersion::One)
        } else {
            None
        }
    }

    /// The least entity whose held page is mapped by another version than this one.
    pub fn next_stale(&self, version: MappingVersion) -> Option<EntityId>
        ensures entity { result ≡ first_of (stale_by version self.now.by_two self.now.records) }
        ensures holder { IfSome result (λ entity. is_holder self.now.records entity ≡ true) }
    {
        self.holders.least(other(version))
    }

    /// How many such entities there are.
    pub fn stale(&self, version: MappingVersion) -> usize
        ensures count { result ≡ length (stale_by version self.now.by_two self.now.records) }
        ensures none { result ≡ 0 → self.now.by_two ≡ all_by version self.now.records }
    {
        self.holders.len(other(version))
    }

    /// The store, which has the triples of all that is held, each with the number of its owners.
    pub fn store(&self) -> &Store
        ensures triples { map.keys (counts_in result.now) ≡ union triple_cmp (meaning_by meaning self.now.by_two) self.now.records }
        ensures counts { (triple : TheTriple) → count_of (counts_in result.now) triple ≡ owners triple_cmp (meaning_by meaning self.now.by_two) self.now.records triple }
    {
        &self.store
    }

    /// The triples of what an entity holds, in memory of their own.
    pub fn triples_of(&self, id: EntityId) -> Result<TripleSet, OutOfMemory>
        ensures { IfOk result (λ set. set ≡ triples_held (meaning_by meaning self.now.by_two) id (record_of self.now.records id).held) }
    {
        let rows = self.store.rows_of(keys_of(&self.table, id))?;
        rows.to_set(self.alloc)
    }
}

/// Gives back the memory of holdings. So the drop of all that they own is proved here, and not in each crate that has them.
pub fn discard(holdings: Holdings) {
    let Holdings {
        alloc: _,
        store,
        table,
        holders,
    } = holdings;
    discard_store(store);
    drop(table);
    drop(holders);
}

// The page that an entity holds, with the counts that are known of it, where it is known how many times each of its triples comes.
fn known_in<'a>(store: &'a Store, table: &Table<KeptPage>, id: EntityId) -> Option<KnownPage<'a>>
    requires { IfSome (piece_at table.now.records id) (λ piece. IsSome (beside store.now piece)) }
    ensures counts { IfSome result (λ page. Some page.counts ≡ counts_held (kept_of table.now.records id).held) }
    ensures held { IfSome result (λ page. held_with (beside store.now) (kept_of table.now.records id).held ≡ Some (record { revision = page.rev; content = page.bytes.now })) }
{
    let Some(held) = held_of(table, id) else {
        return None;
    };
    let Some(known) = &held.content.times else {
        return None;
    };
    if known.times.is_empty() {
        return None;
    }
    Some(KnownPage {
        rev: held.revision,
        bytes: store.read(&held.content.piece),
        counts: known.counts,
    })
}

// What stands of an entity's record.
fn standing_in(table: &Table<KeptPage>, id: EntityId) -> Standing
    ensures { result ≡ standing_of (kept_of table.now.records id) }
{
    match table.get(id) {
        Some(record) => Standing {
            state: record.state,
            held: held_revision(record),
            reconciled: record.reconciled,
        },
        None => {
            let blank: Record<KeptPage> = Record::blank();
            Standing {
                state: blank.state,
                held: None,
                reconciled: None,
            }
        }
    }
}

// The number of the revision that a record holds.
fn held_revision(entity: &Record<KeptPage>) -> Option<u64>
    ensures { result ≡ (standing_of entity.now).held }
{
    entity.held.as_ref().map(|held| held.revision)
}

// Makes room for a record, so that the next one of the entity that is put takes no memory; none is taken where it has a record.
pub(crate) fn make_room(table: &mut Table<KeptPage>, id: EntityId) -> Result<(), OutOfMemory>
    ensures records { table.new.records ≡ table.old.records }
    ensures room { OnOk result (IsTrue (has_room table.new id)) }
    ensures refused { OnErr result (map.contains_key table.old.records id ≡ false) }
{
    if table.get(id).is_some() {
        return Ok(());
    }
    table.make_room(id)?;
    Ok(())
}
