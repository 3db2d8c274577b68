// Graphs that follow a world from what it holds on.

ghost use Rattle.std.specs.Prelude.{◌≡◌, ◌≤◌, ◌+◌, None, length, IfOk, IfSome, IsSome, OnOk};
ghost use Rattle.std.specs.FinMap as map;
ghost use Rattle.std.specs.List.{AllByRecursion};
ghost use Rattle.sorted_sets.specs.Rising.{sorted};
ghost use Rattle.rdf_term.specs.{Fit.HasFitAndShortTerms, Order.triple_cmp};
ghost use Rattle.entity_json.specs.Document.{unfit_of};
ghost use Rattle.entity_model.specs.Document.{IsDocumentOf, IsSmall};
ghost use Rattle.graph_routes.specs.Routing.{route_of};
ghost use Rattle.fetched_pages.specs.Meaning.{document_triples};
ghost use Rattle.world.specs.{Limit.whole, Routed.IsRouted};
ghost use Rattle.splitting.specs.Filling.{AreAmong, HaveEntries, IsReadyFor, entry_in, with_entry};
ghost use Rattle.splitting.specs.Graphs.{AreEntriesOf};

use crate::graphs::{Graphs, set};
use entity_documents::document;
use entity_json::{DocumentFault, discard};
use entity_model::{Document, EntityId};
use entity_rdf::direct_texts;
use graph_routes::{Routes, route};
use rdf_term::OutOfMemory;
use std::alloc::Global;
use std::hash::RandomState;
use subgraph::Split;
use triple_sink::Setting;
use world::{RoutedPage, World};

impl Graphs {
    /// Graphs that follow a world from what it holds on: each page that is held is read and mapped once, and its triples are in the graph
    /// that it is routed to. Each graph has room for so many distinct terms: as many as the world, which isn't lean, so none lacks it. The
    /// hashes of ids and of terms are keyed by `keys`.
    ///
    /// # Errors
    /// Memory was refused.
    pub fn of_world(
        alloc: Global,
        keys: RandomState,
        routes: Routes,
        limit: u32,
        world: &World,
    ) -> Result<Graphs, OutOfMemory>
        requires ready { IsReadyFor world.now }
        requires limit { world.now.limit ≡ whole limit }
        ensures routes { IfOk result (λ graphs. graphs.routes ≡ routes) }
        ensures limit { IfOk result (λ graphs. graphs.limit ≡ limit) }
        ensures there { IfOk result (λ graphs. IsSome graphs.entries) }
        ensures follow { IfOk result (λ graphs. IfSome graphs.entries (AreEntriesOf routes limit world.now)) }
    {
        let mut split = Split::new(alloc, keys, routes.graphs(), limit)?;
        fill(alloc, &routes, world, &mut split)?;
        Ok(Graphs {
            routes,
            limit,
            split: Some(split),
        })
    }
}

// Gives each entity the entry of what it holds.
fn fill(alloc: Global, routes: &Routes, world: &World, split: &mut Split) -> Result<(), OutOfMemory>
    requires ready { IsReadyFor world.now }
    requires fresh { split.old.entries ≡ map.empty }
    requires graphs { split.old.graphs ≡ length routes.now + 1 }
    requires limit { world.now.limit ≡ whole split.old.limit }
    ensures entries { OnOk result (AreEntriesOf routes.now split.new.limit world.now split.new.entries) }
    ensures graphs { split.new.graphs ≡ split.old.graphs }
    ensures limit { split.new.limit ≡ split.old.limit }
{
    let ids = world.entities()?;
    place_each(alloc, routes, world, ids.as_slice(), split)
}

// Gives each of these entities the entry of what it holds. No entity has an entry yet.
fn place_each(
    alloc: Global,
    routes: &Routes,
    world: &World,
    ids: &[EntityId],
    split: &mut Split,
) -> Result<(), OutOfMemory>
    requires ready { IsReadyFor world.now }
    requires fresh { split.old.entries ≡ map.empty }
    requires graphs { split.old.graphs ≡ length routes.now + 1 }
    requires limit { world.now.limit ≡ whole split.old.limit }
    ensures entries { OnOk result (HaveEntries routes.now world.now ids.now split.new.entries) }
    ensures graphs { split.new.graphs ≡ split.old.graphs }
    ensures limit { split.new.limit ≡ split.old.limit }
{
    for id in ids {
        place(alloc, routes, world, *id, split)?;
    }
    Ok(())
}

// Gives an entity the entry of what it holds, if it holds a page.
fn place(
    alloc: Global,
    routes: &Routes,
    world: &World,
    id: EntityId,
    split: &mut Split,
) -> Result<(), OutOfMemory>
    requires ready { IsReadyFor world.now }
    requires among { AreAmong routes.now world.now split.old.entries }
    requires graphs { split.old.graphs ≡ length routes.now + 1 }
    requires limit { world.now.limit ≡ whole split.old.limit }
    ensures entries { OnOk result (split.new.entries ≡ with_entry id (entry_in routes.now world.now id) split.old.entries) }
    ensures graphs { split.new.graphs ≡ split.old.graphs }
    ensures limit { split.new.limit ≡ split.old.limit }
{
    let setting = Setting {
        alloc,
        version: world.mapping(),
    };
    match world.held(id) {
        None => Ok(()),
        Some(held) => {
            let page = route_page(setting, routes, id, held.0, held.1)?;
            set(split, id, page.graph, &page.triples)
        }
    }
}

// The triples of a page of an entity, and the graph that it is routed to.
fn route_page(
    setting: Setting,
    routes: &Routes,
    id: EntityId,
    revision: u64,
    bytes: &[u8],
) -> Result<RoutedPage, OutOfMemory>
    requires { unfit_of id bytes.now ≡ None }
    ensures routed { IfOk result (IsRouted routes.now setting.version id (record { revision = revision; content = bytes.now })) }
    ensures within { IfOk result (λ page. page.graph ≤ length routes.now) }
{
    match document(setting.alloc, id, bytes) {
        Ok(document) => {
            let page = route_document(setting, routes, id, revision, &document);
            discard(document);
            page
        }
        Err(DocumentFault::Unfit(_)) => unreachable!(),
        Err(DocumentFault::OutOfMemory) => Err(OutOfMemory),
    }
}

// The triples of a document of an entity, and the graph that it is routed to.
fn route_document(
    setting: Setting,
    routes: &Routes,
    id: EntityId,
    revision: u64,
    document: &Document,
) -> Result<RoutedPage, OutOfMemory>
    requires document { IsDocumentOf id document.now }
    requires small { IsSmall document.now }
    ensures graph { IfOk result (λ page. page.graph ≡ route_of routes.now document.now) }
    ensures within { IfOk result (λ page. page.graph ≤ length routes.now) }
    ensures meant { IfOk result (λ page. sorted triple_cmp page.triples ≡ document_triples setting.version id revision document.now) }
    ensures fit { IfOk result (λ page. AllByRecursion HasFitAndShortTerms page.triples) }
{
    let triples = direct_texts(setting, id, revision, document)?;
    let Ok(graph) = route(setting.alloc, routes, document) else {
        drop(triples);
        return Err(OutOfMemory);
    };
    Ok(RoutedPage { graph, triples })
}
