// The triples of the entities of one graph.

ghost use Rattle.std.specs.Prelude.{◌≡◌, ◌<◌, ◌≤◌, cond, None, Some, Err, IfOk, OnOk, OnErr};
ghost use Rattle.std.specs.FinMap as map;
ghost use Rattle.std.specs.{List.AllByRecursion, Ordering.eq_by_cmp};
ghost use Rattle.indexmap.specs.IndexMap.{spare};
ghost use Rattle.sorted_sets.specs.Rising.{sorted};
ghost use Rattle.rdf_term.specs.{Fit.HasFitAndShortTerms, Order.triple_cmp, Pattern.rows};
ghost use Rattle.entity_model.specs.{declared.id.EntityId.EntityId as Id, EntityId.entity_cmp};
ghost use Rattle.term_pool.specs.declared.fault.PoolFault.TheVariants.{Full};
ghost use Rattle.subgraph.specs.{Entries.terms_with, Entries.union_of, Graph.keys_at, Graph.rising_keys};

use base::OutOfMemory;
use entity_model::EntityId;
use indexmap::IndexMap;
use rdf_term::Pattern;
use std::alloc::Global;
use std::hash::RandomState;
use std::marker::Model;
use triple_store::{Exchange, KeySlices, Keys, Left, Rows, Store, StoreFault, Telling, Uncounted};
use triple_texts::TripleTexts;

/// The sets of triples of the entities of a graph: a store of the triples with the number of the entities that have each, and for each entity
/// the keys of its triples there. Contracts see the sets by entity, and how many terms there may be.
#[derive(Drop)]
pub struct Graph {
    store: Store,
    owned: IndexMap<EntityId, Keys, RandomState>,
}

impl Model for Graph {
    ghost use Rattle.triple_store.specs.StoreState.{limit_of};
    ghost use Rattle.subgraph.specs.{Codes.graph_code, Entries.GraphState, Graph.IsInStep, Graph.sets_in};

    ghost Value = { GraphState };

    ghost coded = { graph_code };

    ghost view = { λ g. record { sets = sets_in g.store g.owned.entries; limit = limit_of g.store } };

    ghost invariant = { λ g. IsInStep g.store g.owned.entries };
}

impl Graph {
    /// A graph without entities, with at most so many distinct terms. The hashes of ids and of terms are keyed by `keys`.
    pub fn new(alloc: Global, keys: RandomState, limit: u32) -> Result<Graph, OutOfMemory>
        ensures { IfOk result (λ graph. graph ≡ record { sets = map.empty; limit = limit }) }
    {
        let store = Store::new(alloc, keys, limit)?;
        Ok(Graph {
            store,
            owned: IndexMap::with_hasher(alloc, keys),
        })
    }

    /// Whether an entity has a set here. It takes no memory.
    pub fn has(&self, id: EntityId) -> bool
        ensures { result ≡ map.contains_key self.now.sets id }
    {
        self.owned.contains_key(&id)
    }

    /// Sets the triples of an entity. After a fault nothing has changed. The fault is `Full` if the triples, with those of all entities
    /// here, have more distinct terms than the limit.
    pub fn set(&mut self, id: EntityId, new: &TripleTexts) -> Result<(), StoreFault>
        requires fit { AllByRecursion HasFitAndShortTerms new.now }
        ensures ok { OnOk result (self.new ≡ record self.old { sets = map.insert self.old.sets id (sorted triple_cmp new.now) }) }
        ensures err { OnErr result (self.new ≡ self.old) }
        ensures full { result ≡ Err Full → self.old.limit < terms_with (union_of self.old.sets) new.now }
        ensures within { OnOk result (terms_with (union_of self.old.sets) new.now ≤ self.old.limit) }
    {
        // A triple has at most as many owners as there are entities, so no count is saturated.
        let entities = self.owned.len();
        prove!(entities < usize::MAX);
        if self.owned.reserve(1).is_err() {
            return Err(StoreFault::OutOfMemory);
        }
        let left = Left {
            keys: keys_of(&self.owned, id),
            counts: &[],
        };
        match self
            .store
            .exchange(left, new, Telling::Nothing, &mut Uncounted)
        {
            Ok(
                Exchange {
                    keys,
                    times,
                    change,
                },
            ) => {
                drop(times);
                drop(change);
                put(&mut self.owned, id, keys);
                Ok(())
            }
            Err(fault) => Err(fault),
        }
    }

    /// Takes the set of an entity away, where it has one. It takes no memory.
    pub fn clear(&mut self, id: EntityId)
        ensures { self.new ≡ record self.old { sets = map.remove self.old.sets id } }
    {
        if let Some(keys) = take_out(&mut self.owned, id) {
            match self
                .store
                .release(keys.slices(), Telling::Nothing, &mut Uncounted)
            {
                Ok(told) => drop(told),
                Err(_) => unreachable!(),
            }
            drop(keys);
        }
    }

    /// The triples of all entities here, as slices of their texts.
    pub fn rows(&self) -> Result<Rows<'_>, OutOfMemory>
        ensures { IfOk result (λ found. found ≡ union_of self.now.sets) }
    {
        self.store.rows()
    }

    /// Those that agree with the pattern, as slices of their texts.
    pub fn matching(&self, pattern: &Pattern) -> Result<Rows<'_>, OutOfMemory>
        ensures { IfOk result (λ found. found ≡ rows (union_of self.now.sets) pattern.now) }
    {
        self.store.matching(pattern, &mut Uncounted)
    }
}

// The keys of an entity's triples.
fn keys_of(owned: &IndexMap<EntityId, Keys, RandomState>, id: EntityId) -> KeySlices<'_>
    ensures { result.rising.now ≡ rising_keys (keys_at owned.now.entries id) }
{
    match owned.get(&id) {
        Some(keys) => keys.slices(),
        None => KeySlices::none(),
    }
}

// Sets the keys of an entity, where there is room for one more. It takes no memory.
fn put(owned: &mut IndexMap<EntityId, Keys, RandomState>, id: EntityId, keys: Keys)
    requires { 0 < spare owned.old }
    ensures { (other : Id) → keys_at owned.new.entries other ≡ cond (eq_by_cmp entity_cmp id other) (Some keys) (keys_at owned.old.entries other) }
{
    drop(owned.insert(id, keys));
}

// Takes the keys of an entity out. It takes no memory.
fn take_out(owned: &mut IndexMap<EntityId, Keys, RandomState>, id: EntityId) -> Option<Keys>
    ensures before { result ≡ keys_at owned.old.entries id }
    ensures after { (other : Id) → keys_at owned.new.entries other ≡ cond (eq_by_cmp entity_cmp id other) None (keys_at owned.old.entries other) }
{
    owned.swap_remove(&id)
}
