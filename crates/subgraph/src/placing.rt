// Where an entity has its triples: the steps of a split over the list of its graphs.

ghost use Rattle.std.specs.Prelude.{◌≡◌, ◌<◌, ◌≤◌, ℕ, length, true, false, is_some, slice_get, None, Some, Err, IfNone, IfSome, OnErr, OnOk};
ghost use Rattle.std.specs.List.{AllByRecursion};
ghost use Rattle.sorted_sets.specs.Rising.{sorted};
ghost use Rattle.rdf_term.specs.{Fit.HasFitAndShortTerms, Order.triple_cmp};
ghost use Rattle.term_pool.specs.declared.fault.PoolFault.TheVariants.{Full};
ghost use Rattle.subgraph.specs.{Entries.terms_with, Entries.union_of, Placing.AreApart, Placing.IsPlaced, Placing.IsSetAt, Placing.set_at};
ghost use Rattle.subgraph.specs.Split.{entry};

use crate::graph::Graph;
use entity_model::EntityId;
use triple_store::StoreFault;
use triple_texts::TripleTexts;

/// Sets the triples of an entity in a graph, and takes those that it has in another away. After a fault nothing has changed: what may
/// fail comes first.
pub fn set_in(
    graphs: &mut Vec<Graph>,
    id: EntityId,
    graph: usize,
    new: &TripleTexts,
) -> Result<(), StoreFault>
    requires graph { graph < length graphs.old.items }
    requires apart { AreApart graphs.old.items }
    requires fit { AllByRecursion HasFitAndShortTerms new.now }
    ensures ok { OnOk result (IsPlaced graphs.old.items graphs.new.items id (Some (entry graph (sorted triple_cmp new.now)))) }
    ensures err { OnErr result (graphs.new.items ≡ graphs.old.items) }
    ensures full { result ≡ Err Full → IfSome (slice_get graphs.old.items graph) (λ g. g.limit < terms_with (union_of g.sets) new.now) }
    ensures within { OnOk result (IfSome (slice_get graphs.old.items graph) (λ g. terms_with (union_of g.sets) new.now ≤ g.limit)) }
{
    let before = graph_with(graphs, id);
    match set_at(graphs, graph, id, new) {
        Ok(()) => {}
        Err(fault) => return Err(fault),
    }
    let Some(before) = before else {
        return Ok(());
    };
    if before == graph {
        return Ok(());
    }
    clear_at(graphs, before, id);
    Ok(())
}

/// Takes the triples of an entity out of the graph that has them.
pub fn clear_in(graphs: &mut Vec<Graph>, id: EntityId)
    requires { AreApart graphs.old.items }
    ensures { IsPlaced graphs.old.items graphs.new.items id None }
{
    if let Some(graph) = graph_with(graphs, id) {
        clear_at(graphs, graph, id);
    }
}

/// The index of the graph that has triples of an entity.
pub fn graph_with(graphs: &[Graph], id: EntityId) -> Option<usize>
    ensures found { IfSome result (λ i. (i < length graphs.now) × (is_some (set_at graphs.now i id) ≡ true)) }
    ensures nowhere { IfNone result ((i : ℕ) → is_some (set_at graphs.now i id) ≡ false) }
{
    for (index, graph) in graphs.iter().enumerate() {
        if graph.has(id) {
            return Some(index);
        }
    }
    None
}

// Sets the triples of an entity in a graph.
fn set_at(
    graphs: &mut Vec<Graph>,
    graph: usize,
    id: EntityId,
    new: &TripleTexts,
) -> Result<(), StoreFault>
    requires graph { graph < length graphs.old.items }
    requires fit { AllByRecursion HasFitAndShortTerms new.now }
    ensures ok { OnOk result (IsSetAt graphs.old.items graphs.new.items graph id (Some (sorted triple_cmp new.now))) }
    ensures err { OnErr result (graphs.new.items ≡ graphs.old.items) }
    ensures full { result ≡ Err Full → IfSome (slice_get graphs.old.items graph) (λ g. g.limit < terms_with (union_of g.sets) new.now) }
    ensures within { OnOk result (IfSome (slice_get graphs.old.items graph) (λ g. terms_with (union_of g.sets) new.now ≤ g.limit)) }
{
    graphs[graph].set(id, new)
}

// Takes the triples of an entity in a graph away.
fn clear_at(graphs: &mut Vec<Graph>, graph: usize, id: EntityId)
    requires { graph < length graphs.old.items }
    ensures { IsSetAt graphs.old.items graphs.new.items graph id None }
{
    graphs[graph].clear(id);
}
