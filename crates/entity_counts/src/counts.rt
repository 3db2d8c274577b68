// How many pages name each entity that is counted.

ghost use Rattle.std.specs.Prelude.{◌≡◌, ◌+◌, ◌-◌, ◌<◌, true, IfOk, OnErr, OnOk};
ghost use Rattle.std.specs.{BTreeMap.IsOrdered, BTreeMap.keys};
ghost use Rattle.std.specs.FinMap as map;
ghost use Rattle.std.specs.Ordering.{eq_by_cmp};
ghost use Rattle.sorted_sets.specs.{Counting.one_if, Rising.has};
ghost use Rattle.entity_model.specs.{EntityId.entity_cmp, declared.id.EntityId.EntityId as TheId};
ghost use Rattle.entity_counts.specs.Naming.{counted_in, is_counted, naming_of, pages_naming, times_in, unnamed_in};

use base::OutOfMemory;
use entity_model::EntityId;
use std::alloc::Global;
use std::collections::BTreeMap;
use std::marker::Model;

/// The entities that are counted, and how many pages name each, which may be none. Only to count an entity in takes memory: its pages are
/// numbered without. Strangers choose the entities, so nothing is hashed. Contracts see the map from the entities to the numbers.
#[derive(Drop)]
pub struct EntityCounts {
    pages: BTreeMap<EntityId, u64>,
}

impl Model for EntityCounts {
    ghost use Rattle.entity_counts.specs.Naming.{Naming, naming_code, naming_of};

    ghost Value = { Naming };

    ghost coded = { naming_code };

    ghost view = { λ counts. naming_of counts.pages.entries };
}

impl EntityCounts {
    /// No entity is counted. It takes no memory.
    pub fn new(alloc: Global) -> EntityCounts
        ensures { result ≡ map.empty }
    {
        EntityCounts {
            pages: BTreeMap::new(alloc),
        }
    }

    /// Whether the entity is counted.
    pub fn is_counted(&self, id: EntityId) -> bool
        ensures { result ≡ is_counted self.now id }
    {
        self.pages.contains_key(&id)
    }

    /// How many pages name the entity: none where it isn't counted.
    pub fn pages_naming(&self, id: EntityId) -> u64
        ensures { result ≡ pages_naming self.now id }
    {
        self.pages.get(&id).copied().unwrap_or(0)
    }

    /// The entities that are counted though no page names them, in rising order.
    pub fn unnamed(&self, alloc: Global) -> Result<Vec<EntityId>, OutOfMemory>
        ensures { IfOk result (λ ids. ids.items ≡ unnamed_in self.now) }
    {
        let mut ids = keys_of(alloc, &self.pages)?;
        ids.retain(|id| self.pages_naming(*id) == 0);
        Ok(ids)
    }

    /// Counts the entity, which no page names yet, unless it is counted. After `OutOfMemory` nothing has changed.
    pub fn count_in(&mut self, id: EntityId) -> Result<(), OutOfMemory>
        ensures ok { OnOk result (self.new ≡ counted_in self.old id) }
        ensures err { OnErr result (self.new ≡ self.old) }
    {
        if !self.pages.contains_key(&id) {
            self.pages.insert(id, 0)?;
        }
        Ok(())
    }

    /// Counts the entity no longer. It takes no memory.
    pub fn count_out(&mut self, id: EntityId)
        ensures { self.new ≡ map.remove self.old id }
    {
        self.pages.remove(&id);
    }

    /// One page more names each of these entities, which are counted; where one stands there several times, as many pages more. It takes no
    /// memory.
    pub fn raise(&mut self, ids: &[EntityId])
        requires counted { (x : TheId) → has entity_cmp x ids.now ≡ true → is_counted self.old x ≡ true }
        requires few { (x : TheId) → pages_naming self.old x + times_in x ids.now < 18446744073709551616 }
        ensures pages { (x : TheId) → pages_naming self.new x ≡ pages_naming self.old x + times_in x ids.now }
        ensures same { (x : TheId) → is_counted self.new x ≡ is_counted self.old x }
    {
        raise_all(&mut self.pages, ids);
    }

    /// One page less names each of these entities; where one stands there several times, as many pages less. They go on being counted. It takes
    /// no memory.
    pub fn lower(&mut self, ids: &[EntityId])
        ensures pages { (x : TheId) → pages_naming self.new x ≡ pages_naming self.old x - times_in x ids.now }
        ensures same { (x : TheId) → is_counted self.new x ≡ is_counted self.old x }
    {
        lower_all(&mut self.pages, ids);
    }
}

// The entities that are counted, in rising order.
fn keys_of(alloc: Global, pages: &BTreeMap<EntityId, u64>) -> Result<Vec<EntityId>, OutOfMemory>
    ensures keys { IfOk result (λ ids. ids.items ≡ keys pages.now) }
    ensures ordered { IsOrdered entity_cmp pages.now }
{
    let ids = pages.keys().copied().collect(alloc)?;
    Ok(ids)
}

// One page more for each of the entities.
fn raise_all(pages: &mut BTreeMap<EntityId, u64>, ids: &[EntityId])
    requires counted { (x : TheId) → has entity_cmp x ids.now ≡ true → is_counted (naming_of pages.old.entries) x ≡ true }
    requires few { (x : TheId) → pages_naming (naming_of pages.old.entries) x + times_in x ids.now < 18446744073709551616 }
    ensures pages { (x : TheId) → pages_naming (naming_of pages.new.entries) x ≡ pages_naming (naming_of pages.old.entries) x + times_in x ids.now }
    ensures same { (x : TheId) → is_counted (naming_of pages.new.entries) x ≡ is_counted (naming_of pages.old.entries) x }
{
    for id in ids {
        raise_one(pages, *id);
    }
}

// One page less for each of the entities.
fn lower_all(pages: &mut BTreeMap<EntityId, u64>, ids: &[EntityId])
    ensures pages { (x : TheId) → pages_naming (naming_of pages.new.entries) x ≡ pages_naming (naming_of pages.old.entries) x - times_in x ids.now }
    ensures same { (x : TheId) → is_counted (naming_of pages.new.entries) x ≡ is_counted (naming_of pages.old.entries) x }
{
    for id in ids {
        lower_one(pages, *id);
    }
}

// One page more for an entity.
fn raise_one(pages: &mut BTreeMap<EntityId, u64>, id: EntityId)
    requires counted { is_counted (naming_of pages.old.entries) id ≡ true }
    requires few { pages_naming (naming_of pages.old.entries) id < 18446744073709551615 }
    ensures pages { (x : TheId) → pages_naming (naming_of pages.new.entries) x
        ≡ pages_naming (naming_of pages.old.entries) x + one_if (eq_by_cmp entity_cmp x id) }
    ensures same { (x : TheId) → is_counted (naming_of pages.new.entries) x ≡ is_counted (naming_of pages.old.entries) x }
{
    if let Some(count) = pages.get_mut(&id) {
        *count += 1;
    }
}

// One page less for an entity, if one names it.
fn lower_one(pages: &mut BTreeMap<EntityId, u64>, id: EntityId)
    ensures pages { (x : TheId) → pages_naming (naming_of pages.new.entries) x
        ≡ pages_naming (naming_of pages.old.entries) x - one_if (eq_by_cmp entity_cmp x id) }
    ensures same { (x : TheId) → is_counted (naming_of pages.new.entries) x ≡ is_counted (naming_of pages.old.entries) x }
{
    if let Some(count) = pages.get_mut(&id) {
        *count = count.saturating_sub(1);
    }
}
