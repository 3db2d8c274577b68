// Several graphs, in one of which at most each entity has its triples.

ghost use Rattle.std.specs.Prelude.{◌≡◌, ◌<◌, ◌≤◌, Err, IfOk, IfSome, OnOk, OnErr};
ghost use Rattle.std.specs.FinMap as map;
ghost use Rattle.std.specs.List.{AllByRecursion};
ghost use Rattle.sorted_sets.specs.Rising.{IsRising, sorted};
ghost use Rattle.rdf_term.specs.{Fit.HasFitAndShortTerms, Order.triple_cmp, Pattern.rows};
ghost use Rattle.term_pool.specs.declared.fault.PoolFault.TheVariants.{Full};
ghost use Rattle.subgraph.specs.{Entries.graph_triples, Entries.terms_with, Split.entry, Split.graph_of};

use crate::graph::Graph;
use crate::placing::{clear_in, graph_with, set_in};
use base::OutOfMemory;
use entity_model::EntityId;
use rdf_term::{Pattern, TripleSet};
use std::alloc::Global;
use std::hash::RandomState;
use std::marker::Model;
use triple_sink::emit_all;
use triple_store::{Rows, StoreFault};
use triple_texts::TripleTexts;

/// The triples of entities in several graphs, each of which has room of its own. An entity has its set of triples in one graph, or in none;
/// where two entities of a graph have the same triple, it is there once, and stays until neither has it. Contracts see the entry of each
/// entity, which is the index of its graph and its set, the number of graphs, and how many distinct terms each may have.
#[derive(Drop)]
pub struct Split {
    alloc: Global,
    graphs: Vec<Graph>,
    limit: u32,
}

impl Model for Split {
    ghost use Rattle.std.specs.Prelude.{length};
    ghost use Rattle.subgraph.specs.{Codes.split_code, Entries.SplitState, Placing.AreApart, Placing.HaveLimit, Split.entries_in};

    ghost Value = { SplitState };

    ghost coded = { split_code };

    ghost view = { λ s. record { entries = entries_in s.graphs.items; graphs = length s.graphs.items; limit = s.limit } };

    ghost invariant = { λ s. AreApart s.graphs.items × HaveLimit s.limit s.graphs.items };
}

impl Split {
    /// So many graphs without entities, each with at most so many distinct terms. The hashes of ids and of terms are keyed by `keys`.
    pub fn new(
        alloc: Global,
        keys: RandomState,
        graphs: usize,
        limit: u32,
    ) -> Result<Split, OutOfMemory>
        requires some { 1 ≤ graphs }
        requires few { graphs ≤ 17 }
        ensures { IfOk result (λ split. split ≡ record { entries = map.empty; graphs = graphs; limit = limit }) }
    {
        let mut made = Vec::with_capacity(alloc, graphs)?;
        for _ in 0..graphs {
            let Ok(graph) = Graph::new(alloc, keys, limit) else {
                return Err(OutOfMemory);
            };
            made.push(graph)?;
        }
        Ok(Split {
            alloc,
            graphs: made,
            limit,
        })
    }

    /// Sets the triples of an entity, in this graph and in no other. After a fault nothing has changed in any graph. The fault is `Full` if
    /// the triples, with those of the graph, have more distinct terms than it may have.
    pub fn set(&mut self, id: EntityId, graph: usize, new: &TripleSet) -> Result<(), StoreFault>
        requires graph { graph < self.old.graphs }
        requires fit { AllByRecursion HasFitAndShortTerms new.now }
        ensures ok { OnOk result (self.new ≡ record self.old { entries = map.insert self.old.entries id (entry graph new.now) }) }
        ensures err { OnErr result (self.new ≡ self.old) }
        ensures full { result ≡ Err Full → self.old.limit < terms_with (graph_triples self.old.entries graph) new.now }
        ensures within { OnOk result (terms_with (graph_triples self.old.entries graph) new.now ≤ self.old.limit) }
    {
        let Ok(texts) = texts_of(self.alloc(), new) else {
            return Err(StoreFault::OutOfMemory);
        };
        let done = self.set_texts(id, graph, &texts);
        drop(texts);
        done
    }

    // Where memory comes from.
    fn alloc(&self) -> Global {
        self.alloc
    }

    /// The same with triples by their texts, in any order, of which one may stand there more than once.
    pub fn set_texts(
        &mut self,
        id: EntityId,
        graph: usize,
        new: &TripleTexts,
    ) -> Result<(), StoreFault>
        requires graph { graph < self.old.graphs }
        requires fit { AllByRecursion HasFitAndShortTerms new.now }
        ensures ok { OnOk result (self.new ≡ record self.old { entries = map.insert self.old.entries id (entry graph (sorted triple_cmp new.now)) }) }
        ensures err { OnErr result (self.new ≡ self.old) }
        ensures full { result ≡ Err Full → self.old.limit < terms_with (graph_triples self.old.entries graph) new.now }
        ensures within { OnOk result (terms_with (graph_triples self.old.entries graph) new.now ≤ self.old.limit) }
    {
        set_in(&mut self.graphs, id, graph, new)
    }

    /// Takes the triples of an entity out of the graph that they are in, if it has an entry. It takes no memory.
    pub fn clear(&mut self, id: EntityId)
        ensures { self.new ≡ record self.old { entries = map.remove self.old.entries id } }
    {
        clear_in(&mut self.graphs, id);
    }

    /// The index of the graph that an entity is in, if it has an entry. It takes no memory.
    pub fn graph_of(&self, id: EntityId) -> Option<usize>
        ensures graph { result ≡ graph_of self.now.entries id }
        ensures bound { IfSome result (λ graph. graph < self.now.graphs) }
    {
        graph_with(&self.graphs, id)
    }

    /// The triples of a graph that agree with the pattern, as slices of their texts, in order.
    pub fn matching(&self, graph: usize, pattern: &Pattern) -> Result<Rows<'_>, OutOfMemory>
        requires { graph < self.now.graphs }
        ensures { IfOk result (λ found. found ≡ rows (graph_triples self.now.entries graph) pattern.now) }
    {
        self.graphs[graph].matching(pattern)
    }

    /// The triples of a graph, as slices of their texts, in order.
    pub fn rows(&self, graph: usize) -> Result<Rows<'_>, OutOfMemory>
        requires { graph < self.now.graphs }
        ensures { IfOk result (λ found. found ≡ graph_triples self.now.entries graph) }
    {
        self.graphs[graph].rows()
    }

    /// The triples of a graph that agree with the pattern, in memory of their own.
    pub fn matches(&self, graph: usize, pattern: &Pattern) -> Result<TripleSet, OutOfMemory>
        requires { graph < self.now.graphs }
        ensures { IfOk result (λ set. set ≡ rows (graph_triples self.now.entries graph) pattern.now) }
    {
        let rows = self.matching(graph, pattern)?;
        let set = rows.to_set(self.alloc);
        drop(rows);
        set
    }

    /// The triples of a graph, in memory of their own.
    pub fn all(&self, graph: usize) -> Result<TripleSet, OutOfMemory>
        requires { graph < self.now.graphs }
        ensures { IfOk result (λ set. set ≡ graph_triples self.now.entries graph) }
    {
        let rows = self.rows(graph)?;
        let set = rows.to_set(self.alloc);
        drop(rows);
        set
    }
}

// The triples of a set by their texts.
fn texts_of(alloc: Global, set: &TripleSet) -> Result<TripleTexts, OutOfMemory>
    ensures texts { IfOk result (λ texts. texts ≡ set.now) }
    ensures rising { IsRising triple_cmp set.now }
{
    let mut texts = TripleTexts::new(alloc);
    match emit_all(alloc, set.items(), &mut texts) {
        Ok(()) => Ok(texts),
        Err(refused) => {
            drop(texts);
            Err(refused)
        }
    }
}

/// Gives back the memory of a split, if there is one. So the drop of all that it may hold is proved here, and not in each crate that has one.
pub fn discard(split: Option<Split>) {
    drop(split);
}
