// The records of all entities.

ghost use Rattle.std.specs.Prelude.{◌≡◌, ◌+◌, ◌^◌, ◌<◌, ◌≤◌, [], ◌∷◌, ◌++◌, None, IsTrue, OnOk, OnErr, IfOk, slice_get, length};
ghost use Rattle.std.specs.{Option.option_copied, Ordering.eq_by_cmp, List.IsDistinct};
ghost use Rattle.std.specs.FinMap as map;
ghost use Rattle.indexmap.specs.IndexMap.{get, keys, spare, IsUnique};
ghost use Rattle.sorted_sets.specs.Rising.{has};
ghost use Rattle.entity_model.specs.EntityId.{entity_cmp};
ghost use Rattle.entity_state.specs.Tabled.{records_of};
ghost use Rattle.entity_state.specs.Table.{no_records, is_there, has_room, with_room, after_putting, after_setting};

use crate::record::Record;
use crate::state::State;
use base::{List, OutOfMemory};
use entity_model::{EntityId, Event};
use indexmap::IndexMap;
use std::alloc::Global;
use std::collections::BTreeSet;
use std::hash::RandomState;
use std::marker::Model;
use std::mem;

/// The records of entities, by their ids, whose hashes are keyed, since strangers choose the ids. Contracts see the map from ids to
/// records, the ids by index, and the ids for which room is kept.
#[derive(Drop)]
pub struct Table<H> {
    records: IndexMap<EntityId, Record<H>, RandomState>,
    promised: BTreeSet<EntityId>,
}

impl<H> Model for Table<H> {
    ghost use Rattle.std.specs.Prelude.{length, ◌≤◌};
    ghost use Rattle.indexmap.specs.IndexMap.{keys, spare};
    ghost use Rattle.entity_state.specs.Tabled.{Tabled, tabled_code, records_of};

    ghost Value = { Tabled H };

    ghost coded = { tabled_code H.code };

    ghost view = { λ t. record { records = records_of t.records.entries; places = keys t.records; room = t.promised.keys } };

    ghost invariant = { λ t. length t.promised.keys ≤ spare t.records };
}

impl<H: Drop> Table<H> {
    /// The table without records. The hashes of its ids are keyed by `keys`.
    pub fn new(alloc: Global, keys: RandomState) -> Result<Table<H>, OutOfMemory>
        ensures { IfOk result (λ table. table ≡ no_records) }
    {
        Ok(Table {
            records: IndexMap::with_hasher(alloc, keys),
            promised: BTreeSet::new(alloc),
        })
    }

    /// The record of an entity.
    pub fn get(&self, id: EntityId) -> Option<&Record<H>>
        ensures { option_copied result ≡ map.get self.now.records id }
    {
        self.records.get(&id)
    }

    /// Makes room for a record of an entity, where it has none, so that the next put of this entity
    /// takes no memory. After `OutOfMemory` nothing has changed.
    pub fn make_room(&mut self, id: EntityId) -> Result<(), OutOfMemory>
        ensures ok { OnOk result (self.new ≡ with_room self.old id) }
        ensures room { OnOk result (IsTrue (has_room self.new id)) }
        ensures err { OnErr result (self.new ≡ self.old) }
    {
        if self.records.contains_key(&id) {
            return Ok(());
        }
        self.records.reserve(self.promised.len() + 1)?;
        self.promised.insert(id)?;
        Ok(())
    }

    /// Sets the record of an entity that has one or has room for one, and gives the one that was
    /// there. It takes no memory.
    pub fn put(&mut self, id: EntityId, value: Record<H>) -> Option<Record<H>>
        requires { IsTrue (has_room self.old id) }
        ensures before { result ≡ map.get self.old.records id }
        ensures after { self.new ≡ after_putting self.old id value }
    {
        match self.records.get_mut(&id) {
            Some(place) => Some(mem::replace(place, value)),
            None => {
                self.promised.remove(&id);
                insert_new(&mut self.records, id, value);
                None
            }
        }
    }

    /// Sets the state and the last reconciliation of an entity that has a record. What it holds
    /// stays.
    pub fn set_state(&mut self, id: EntityId, state: State, reconciled: Option<Event>)
        requires { IsTrue (is_there self.old id) }
        ensures { self.new ≡ after_setting self.old id state reconciled }
    {
        if let Some(record) = self.records.get_mut(&id) {
            record.set_state(state, reconciled);
        }
    }

    /// The ids of all records, in rising order.
    pub fn ids(&self, alloc: Global) -> Result<List<EntityId>, OutOfMemory>
        ensures { IfOk result (λ ids. ids ≡ map.keys self.now.records) }
    {
        let mut ids = keys_of(alloc, &self.records)?;
        ids.sort_unstable();
        Ok(List::from_vec(ids))
    }

    /// The number of records. The id of each stands at one place below it.
    pub fn len(&self) -> usize
        ensures records { result ≡ map.len self.now.records }
        ensures places { result ≡ length self.now.places }
        ensures small { result < 2 ^ 63 }
        ensures each { (id : EntityId) → has entity_cmp id self.now.places ≡ is_there self.now id }
        ensures once { IsDistinct (eq_by_cmp entity_cmp) self.now.places }
    {
        self.records.len()
    }

    /// The id at an index from 0.
    pub fn at(&self, index: usize) -> Option<EntityId>
        ensures { result ≡ slice_get self.now.places index }
    {
        let (id, _) = self.records.get_index(index)?;
        Some(*id)
    }
}

/// The ids of all records, in the order of their places.
fn keys_of<H>(
    alloc: Global,
    records: &IndexMap<EntityId, Record<H>, RandomState>,
) -> Result<Vec<EntityId>, OutOfMemory>
    ensures keys { IfOk result (λ ids. ids.items ≡ keys records.now) }
    ensures distinct { IsUnique (eq_by_cmp entity_cmp) records.now }
{
    let ids = records.keys().copied().collect(alloc)?;
    Ok(ids)
}

/// Puts a record of an entity that has none, where there is room.
fn insert_new<H: Drop>(
    records: &mut IndexMap<EntityId, Record<H>, RandomState>,
    id: EntityId,
    value: Record<H>,
)
    requires absent { get (eq_by_cmp entity_cmp) records.old id ≡ None }
    requires room { 0 < spare records.old }
    ensures records { records_of records.new.entries ≡ map.insert (records_of records.old.entries) id value }
    ensures keys { keys records.new ≡ keys records.old ++ id ∷ [] }
    ensures room { spare records.old ≤ spare records.new + 1 }
{
    let _ = records.insert(id, value);
}
