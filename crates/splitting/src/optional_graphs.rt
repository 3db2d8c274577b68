// Graphs, if there are any: only a split has them.

ghost use Rattle.std.specs.Prelude.{◌≡◌, ℕ, List, Option, Some, false, IfSome, IsOk, OnOk, option_copied};
ghost use Rattle.replay_model.specs.Records.{record_of};
ghost use Rattle.revisions.specs.Revisions.{Contents};
ghost use Rattle.holdings.specs.Mapped.{AreTriplesOf};
ghost use Rattle.world.specs.{Applying.Applies, Routed.GivesPage};
ghost use Rattle.holders.specs.Holding.{AreHolders};
ghost use Rattle.world.specs.WorldState.{WorldState, by_two_after, next_stale, remapped};
ghost use Rattle.splitting.specs.Graphs.{IsSound, MayBeFitFor, MayFollow, MayHaveRoom, MayHaveRoomAnew, NoneIsLost, routes_of, takes_memory};

use crate::graphs::Graphs;
use entity_model::EntityId;
use graph_routes::Routes;
use rdf_term::OutOfMemory;
use triple_texts::TripleTexts;
use world::{AppliedEvent, RoutedPage};

/// The routes of graphs, if there are graphs. It takes no memory.
pub fn routes_of(graphs: &Option<Graphs>) -> Option<&Routes>
    ensures { option_copied result ≡ routes_of graphs.now }
{
    match graphs {
        Some(graphs) => Some(graphs.routes()),
        None => None,
    }
}

/// Gives back the memory of graphs, if there are any. So the drop of all that they may hold is proved here, and not in each crate that has
/// some.
pub fn discard(graphs: Option<Graphs>) {
    drop(graphs);
}

/// Graphs, if there are some, follow the application of an event. They have room for the page that it stored.
///
/// # Errors
/// Memory was refused, now or at an earlier step: the graphs are lost.
pub fn follow_application(
    graphs: &mut Option<Graphs>,
    applied: &AppliedEvent,
    routed: Option<RoutedPage>,
) -> Result<(), OutOfMemory>
    requires sound { IfSome (routes_of graphs.old) (λ routes. IsSound routes applied.now.outcome routed) }
    requires room { MayHaveRoom graphs.old applied.now.outcome routed }
    ensures routes { routes_of graphs.new ≡ routes_of graphs.old }
    ensures there { OnOk result (NoneIsLost graphs.new) }
    ensures free { NoneIsLost graphs.old → takes_memory applied.now.outcome routed ≡ false → IsOk result }
    ensures follow { (known : Option Contents) (folder : List ℕ) (before after : WorldState) →
        Applies known folder before.replay after.replay applied.now → after.limit ≡ before.limit →
        after.by_two ≡ by_two_after applied.now.outcome before.mapping applied.now.event.entity before.by_two → AreHolders after.by_two after.replay.played.records →
        IfSome (routes_of graphs.old) (λ routes. GivesPage routes before.mapping applied.now.event.entity applied.now.outcome (record_of after.replay.played.records applied.now.event.entity).held routed) →
        MayFollow graphs.old before → MayFollow graphs.new after }
{
    match graphs {
        Some(graphs) => graphs.follow_application(applied, routed),
        None => {
            drop(routed);
            Ok(())
        }
    }
}

/// Graphs, if there are some, follow the remapping of an entity's page, which has these triples now, for which they have room. Nothing is
/// asked of these triples where there are no graphs, so the world may be lean then.
///
/// # Errors
/// Memory was refused, now or at an earlier step: the graphs are lost.
pub fn follow_remapping(
    graphs: &mut Option<Graphs>,
    id: EntityId,
    triples: &TripleTexts,
) -> Result<(), OutOfMemory>
    requires fit { MayBeFitFor graphs.old triples.now }
    requires room { MayHaveRoomAnew graphs.old id triples.now }
    ensures routes { routes_of graphs.new ≡ routes_of graphs.old }
    ensures there { OnOk result (NoneIsLost graphs.new) }
    ensures follow { (before : WorldState) → next_stale before ≡ Some id →
        (before.limit.lean ≡ false → AreTriplesOf before.mapping id (record_of before.replay.played.records id).held triples.now) →
        AreHolders (remapped before).by_two before.replay.played.records →
        MayFollow graphs.old before → MayFollow graphs.new (remapped before) }
{
    match graphs {
        Some(graphs) => graphs.follow_remapping(id, triples),
        None => Ok(()),
    }
}
