// The graphs, which follow a world step by step.

ghost use Rattle.std.specs.Prelude.{◌≡◌, ◌<◌, ◌≤◌, ℕ, List, Option, Some, false, IfOk, IsOk, OnOk};
ghost use Rattle.std.specs.FinMap as map;
ghost use Rattle.std.specs.List.{AllByRecursion};
ghost use Rattle.rdf_term.specs.{Fit.HasFitAndShortTerms, Order.triple_cmp};
ghost use Rattle.replay_model.specs.Records.{record_of};
ghost use Rattle.revisions.specs.Revisions.{Contents};
ghost use Rattle.sorted_sets.specs.Rising.{sorted};
ghost use Rattle.subgraph.specs.{Entries.graph_triples, Entries.terms_with, Split.entry, Split.graph_of};
ghost use Rattle.holdings.specs.Mapped.{AreTriplesOf};
ghost use Rattle.world.specs.{Applying.Applies, Routed.GivesPage};
ghost use Rattle.holders.specs.Holding.{AreHolders};
ghost use Rattle.world.specs.WorldState.{WorldState, by_two_after, next_stale, remapped};
ghost use Rattle.splitting.specs.Graphs.{AreEntriesAfter, AreEntriesAnew, AreFitFor, AreThere, Follow, HasRoomAnewIn, HasRoomIn, HaveRoom, HaveRoomAnew, IsSound, IsSoundFor, takes_memory};

use entity_model::EntityId;
use graph_routes::Routes;
use rdf_term::OutOfMemory;
use std::alloc::Global;
use std::hash::RandomState;
use std::marker::Model;
use subgraph::{Split, StoreFault};
use triple_texts::TripleTexts;
use world::{AppliedEvent, Outcome, RoutedPage};

/// Several graphs, by routes: one graph for each route, and a last one. An entity has its triples in one of them, or in none. If memory is
/// refused while they follow a step, they are lost: they hold nothing and follow nothing from then on. A graph never lacks room if the world that it follows
/// has it. Contracts see the routes; how many distinct terms each graph may have; and the entry of each entity, which is the index of its
/// graph and its triples, or none if the graphs are lost.
#[derive(Drop)]
pub struct Graphs {
    pub(crate) routes: Routes,
    pub(crate) limit: u32,
    pub(crate) split: Option<Split>,
}

impl Model for Graphs {
    ghost use Rattle.std.specs.Prelude.{◌≡◌, ◌+◌, IfSome, length, option_map};
    ghost use Rattle.subgraph.specs.Entries.{SplitState};
    ghost use Rattle.splitting.specs.{Codes.graphs_code, Graphs.GraphsState};

    ghost Value = { GraphsState };

    ghost coded = { graphs_code };

    ghost view = { λ g. record { routes = g.routes; limit = g.limit; entries = option_map (λ (s : SplitState). s.entries) g.split } };

    ghost invariant = { λ g. IfSome g.split (λ (s : SplitState). (s.graphs ≡ length g.routes + 1) × (s.limit ≡ g.limit)) };
}

impl Graphs {
    /// Graphs without entities, each with room for so many distinct terms. The hashes of ids and of terms are keyed by `keys`.
    pub fn new(
        alloc: Global,
        keys: RandomState,
        routes: Routes,
        limit: u32,
    ) -> Result<Graphs, OutOfMemory>
        ensures { IfOk result (λ graphs. graphs ≡ record { routes = routes; limit = limit; entries = Some map.empty }) }
    {
        let split = Split::new(alloc, keys, routes.graphs(), limit)?;
        Ok(Graphs {
            routes,
            limit,
            split: Some(split),
        })
    }

    /// The routes. It takes no memory.
    pub fn routes(&self) -> &Routes
        ensures { result.now ≡ self.now.routes }
    {
        &self.routes
    }

    /// Follows the application of an event, whose page is given back where it stored one: the entity has its triples in the graph that this
    /// page is routed to, and in no other, and in none where the page was deleted. This graph has room for it. Graphs that followed the world
    /// before the application follow the world after it, or are lost. Only a stored page takes memory.
    ///
    /// # Errors
    /// Memory was refused, now or at an earlier step: the graphs are lost.
    pub fn follow_application(
        &mut self,
        applied: &AppliedEvent,
        routed: Option<RoutedPage>,
    ) -> Result<(), OutOfMemory>
        requires sound { IsSound self.old.routes applied.now.outcome routed }
        requires room { HaveRoom self.old applied.now.outcome routed }
        ensures routes { self.new.routes ≡ self.old.routes }
        ensures limit { self.new.limit ≡ self.old.limit }
        ensures there { OnOk result (AreThere self.new) }
        ensures free { AreThere self.old → takes_memory applied.now.outcome routed ≡ false → IsOk result }
        ensures follow { (known : Option Contents) (folder : List ℕ) (before after : WorldState) →
            Applies known folder before.replay after.replay applied.now → after.limit ≡ before.limit →
            after.by_two ≡ by_two_after applied.now.outcome before.mapping applied.now.event.entity before.by_two → AreHolders after.by_two after.replay.played.records →
            GivesPage self.old.routes before.mapping applied.now.event.entity applied.now.outcome (record_of after.replay.played.records applied.now.event.entity).held routed →
            Follow self.old before → Follow self.new after }
    {
        let Some(split) = &mut self.split else {
            drop(routed);
            return Err(OutOfMemory);
        };
        match apply(split, applied, routed) {
            Ok(()) => Ok(()),
            Err(OutOfMemory) => {
                self.split = None;
                Err(OutOfMemory)
            }
        }
    }

    /// Follows the remapping of an entity's page: these are its triples now, in the graph that it is in, which has room for them. Nothing is
    /// asked of them if the graphs are lost. Graphs that followed the world before follow the world after it, or are lost.
    ///
    /// # Errors
    /// Memory was refused, now or at an earlier step: the graphs are lost.
    pub fn follow_remapping(
        &mut self,
        id: EntityId,
        triples: &TripleTexts,
    ) -> Result<(), OutOfMemory>
        requires fit { AreFitFor self.old triples.now }
        requires room { HaveRoomAnew self.old id triples.now }
        ensures routes { self.new.routes ≡ self.old.routes }
        ensures limit { self.new.limit ≡ self.old.limit }
        ensures there { OnOk result (AreThere self.new) }
        ensures follow { (before : WorldState) → next_stale before ≡ Some id →
            (before.limit.lean ≡ false → AreTriplesOf before.mapping id (record_of before.replay.played.records id).held triples.now) →
            AreHolders (remapped before).by_two before.replay.played.records →
            Follow self.old before → Follow self.new (remapped before) }
    {
        let Some(split) = &mut self.split else {
            return Err(OutOfMemory);
        };
        match remap(split, id, triples) {
            Ok(()) => Ok(()),
            Err(OutOfMemory) => {
                self.split = None;
                Err(OutOfMemory)
            }
        }
    }
}

// Follows the application of an event.
fn apply(
    split: &mut Split,
    applied: &AppliedEvent,
    routed: Option<RoutedPage>,
) -> Result<(), OutOfMemory>
    requires sound { IsSoundFor split.old.graphs applied.now.outcome routed }
    requires room { HasRoomIn split.old.limit split.old.entries applied.now.outcome routed }
    ensures limit { split.new.limit ≡ split.old.limit }
    ensures free { takes_memory applied.now.outcome routed ≡ false → IsOk result }
    ensures entries { OnOk result (AreEntriesAfter applied.now.outcome applied.now.event.entity routed split.old.entries split.new.entries) }
    ensures graphs { split.new.graphs ≡ split.old.graphs }
{
    match applied.outcome {
        Outcome::Stored => match routed {
            Some(page) => {
                let placed = set(split, applied.event.entity, page.graph, &page.triples);
                drop(page);
                placed
            }
            None => Ok(()),
        },
        Outcome::Dropped => {
            drop(routed);
            split.clear(applied.event.entity);
            Ok(())
        }
        Outcome::Same | Outcome::Sided(_) => {
            drop(routed);
            Ok(())
        }
    }
}

// Follows the remapping of a page.
fn remap(split: &mut Split, id: EntityId, triples: &TripleTexts) -> Result<(), OutOfMemory>
    requires fit { AllByRecursion HasFitAndShortTerms triples.now }
    requires room { HasRoomAnewIn split.old.limit split.old.entries (graph_of split.old.entries id) triples.now }
    ensures limit { split.new.limit ≡ split.old.limit }
    ensures entries { OnOk result (AreEntriesAnew (graph_of split.old.entries id) id triples.now split.old.entries split.new.entries) }
    ensures graphs { split.new.graphs ≡ split.old.graphs }
{
    match split.graph_of(id) {
        Some(graph) => set(split, id, graph, triples),
        None => Ok(()),
    }
}

// Sets the triples of an entity in a graph, which has room for them.
pub(crate) fn set(
    split: &mut Split,
    id: EntityId,
    graph: usize,
    triples: &TripleTexts,
) -> Result<(), OutOfMemory>
    requires graph { graph < split.old.graphs }
    requires fit { AllByRecursion HasFitAndShortTerms triples.now }
    requires room { terms_with (graph_triples split.old.entries graph) triples.now ≤ split.old.limit }
    ensures limit { split.new.limit ≡ split.old.limit }
    ensures entries { OnOk result (split.new.entries ≡ map.insert split.old.entries id (entry graph (sorted triple_cmp triples.now))) }
    ensures graphs { split.new.graphs ≡ split.old.graphs }
{
    match split.set_texts(id, graph, triples) {
        Ok(()) => Ok(()),
        Err(StoreFault::OutOfMemory) => Err(OutOfMemory),
        Err(StoreFault::Full) => unreachable!(),
    }
}
