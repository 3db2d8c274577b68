// Premises of other laws: of deliveries, of what told runs save, and of the graphs of routes. Here it is shown when they hold.

ghost use Rattle.std.specs.Prelude.{◌≡◌, ◌↔◌, ◌++◌, ◌+◌, ◌<◌, ◌≤◌, ◌^◌, ℕ, true, false, length, List, Option, Some, IfSome, Ok};
ghost use Rattle.sorted_sets.specs.Rising.{Each, has};
ghost use Rattle.rdf_term.specs.{declared.triple.Triple.Triple, Order.triple_cmp};
ghost use Rattle.delivery.specs.declared.Delivery.{Delivery};
ghost use Rattle.event_line.specs.Line.{delivery_of};
ghost use Rattle.graph_routes.specs.declared.routes.Route.{Route};
ghost use Rattle.replay_model.specs.{Play.Replies, Records.Records, Union.Meaning, Union.union};
ghost use Rattle.snapshot.specs.{Deliveries.IsFitDelivery, File.IsFitSaved};
ghost use Rattle.world.specs.Routed.{routing_by};
ghost use Rattle.subgraph.specs.Laws.{routed_union};
ghost use Rattle.fetched_pages.specs.Meaning.{meaning};
ghost use Rattle.checkpoint.specs.Saved.{AreWithin};
ghost use Rattle.arguments.specs.Options.{closes, max_bytes_of};
ghost use Rattle.run_model.specs.{Course.version_at, Headline.Ending, Headline.numbers_saved, OneRun.StandsAfter, OneRun.deliveries_of};
ghost use Rattle.run_model.specs.Moment.{IsFirst, Moment, Run, horizon_at, saved_at, start_of};
ghost use Rattle.run_model.specs.{Reading.AreDeliveries, Remapping.held_triples};

use snapshot::replays_can_be_saved;
use subgraph::graphs_are_the_union;

/// What a line delivers is fit: ids of entities have numbers from 1, and all other numbers have 64 bits. So are all deliveries of an input.
pub fn delivered_lines_are_fit()
    ensures line { (line : List ℕ) (delivery : Delivery) → delivery_of line ≡ Ok delivery → IsFitDelivery delivery }
    ensures input { (limit : ℕ) (bytes : List ℕ) (ds : List Delivery) → AreDeliveries limit bytes ds → Each IsFitDelivery ds }
{}

/// What a run saves can be read back, and the counts of a first run are such that a run may go on with them. A first run's input tells its
/// bytes and may have no more than 4,294,967,295, and its horizon has 64 bits. If a run goes on from where a replay stands, all deliveries are
/// fit and fewer than 2^32, and its own counts are such that a run may go on with them.
pub fn told_worlds_can_be_saved()
    ensures first { (run : Run) (before now : Moment) (bytes : List ℕ) → IsFirst (start_of run before) → (ending : Ending run before now) → closes run.choices ≡ false →
        before.input.left ≡ Some bytes → max_bytes_of run.choices ≤ 4294967295 → IfSome (horizon_at (start_of run before)) (λ micros. micros < 2 ^ 64) →
        IsFitSaved (saved_at now.stage (numbers_saved ending)) }
    ensures within { (run : Run) (before now : Moment) (bytes : List ℕ) → IsFirst (start_of run before) → (ending : Ending run before now) →
        before.input.left ≡ Some bytes → max_bytes_of run.choices ≤ 4294967295 → AreWithin (numbers_saved ending) }
    ensures later { (h : Option ℕ) (earlier : Replies) (ds : List Delivery) (run : Run) (before now : Moment) → StandsAfter h earlier ds (start_of run before) → (ending : Ending run before now) → closes run.choices ≡ false →
        Each IsFitDelivery (ds ++ deliveries_of ending) → length (ds ++ deliveries_of ending) < 2 ^ 32 → IfSome h (λ micros. micros < 2 ^ 64) → AreWithin (numbers_saved ending) →
        IsFitSaved (saved_at now.stage (numbers_saved ending)) }
{
    replays_can_be_saved();
}

/// A triple is in one of the graphs that routes make of any records exactly if it is in the union of these records. So the graphs of a
/// split that ended with Ok are the union of what is held.
pub fn graphs_of_routes_are_the_union()
    ensures any { (routes : List Route) (means : Meaning Triple) (records : Records) (t : Triple) →
        (has triple_cmp t (union triple_cmp means records) ≡ true)
        ↔ ((graph : ℕ) × (graph < length routes + 1) × (has triple_cmp t (routed_union (routing_by routes) means records graph) ≡ true)) }
    ensures at_end { (routes : List Route) (run : Run) (before now : Moment) → (ending : Ending run before now) → (t : Triple) →
        (has triple_cmp t (held_triples now.stage.mapped now.stage.world.played.records) ≡ true)
        ↔ ((graph : ℕ) × (graph < length routes + 1)
        × (has triple_cmp t (routed_union (routing_by routes) (meaning (version_at (deliveries_of ending) (start_of run before))) now.stage.world.played.records graph) ≡ true)) }
{
    graphs_are_the_union();
}
