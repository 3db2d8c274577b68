// What follows from the contract of `run` if nothing goes wrong. Each law is the contract of a function that does nothing.

ghost use Rattle.std.specs.Prelude.{◌≡◌, ◌<◌, ◌≤◌, ◌⊎◌, ◌^◌, ℕ, true, false, length, List, [], Option, None, Some, IfSome, IsSome, ◌++◌};
ghost use Rattle.std.specs.FinMap as map;
ghost use Rattle.std.specs.List.{flat_map};
ghost use Rattle.sorted_sets.specs.Rising.{In, has, sorted};
ghost use Rattle.rdf_term.specs.Order.{triple_cmp};
ghost use Rattle.delivery.specs.declared.Delivery.{Delivery};
ghost use Rattle.entity_model.specs.{declared.event.Event.Event, declared.id.EntityId.EntityId, Event.event_cmp};
ghost use Rattle.entity_state.specs.State.{is_kept};
ghost use Rattle.replay_model.specs.Acceptance.{accepted, late, version_in_force};
ghost use Rattle.replay_model.specs.Play.{Replies, fetches, fetches_to_end};
ghost use Rattle.replay_model.specs.{ReplayState.ended, ReplayState.following, ReplayState.following_to_end, Transcript.said};
ghost use Rattle.replay_model.specs.{Records.Bytes, Records.is_settled, Records.record_of, Versions.all_by, Versions.meaning_by};
ghost use Rattle.fetched_pages.specs.Meaning.{meaning};
ghost use Rattle.holders.specs.Roomed.{room_with};
ghost use Rattle.world.specs.Limit.{stored_by};
ghost use Rattle.snapshot.specs.{File.IsFitSaved, File.saved_in_bytes, declared.counts.Counts.Counts};
ghost use Rattle.triple_store.specs.Room.{distinct};
ghost use Rattle.wq_io.specs.Streams.{after_known};
ghost use Rattle.replica.specs.declared.record.PatchRecord.{PatchRecord};
ghost use Rattle.written_laws.specs.Laws.{AreOfStream};
ghost use Rattle.patch_stream.specs.Stream.{Step, changes, steps_of_play, steps_to_end, stream, stream_text};
ghost use Rattle.graph_routes.specs.declared.routes.Route.{Route};
ghost use Rattle.arguments.specs.Options.{FollowChoices, closes, follow_max_bytes_of, max_bytes_of, max_terms_of};
ghost use Rattle.following.specs.{Following.Ending as Followed, Following.FollowMoment, Following.replica_text, Reading.AreRecords};
ghost use Rattle.checkpoint.specs.{Causes.longest_file, Saved.AreWithin};
ghost use Rattle.run_model.specs.declared.report.Report.TheVariants.{Answers, Changes};
ghost use Rattle.run_model.specs.{declared.status.Status.Status, declared.stop.Stop.Stop};
ghost use Rattle.run_model.specs.Course.{along, fetches_of_delivery, steps_of_delivery, stream_text_from, said_by};
ghost use Rattle.run_model.specs.Course.{course_to_end, led_to, version_at};
ghost use Rattle.run_model.specs.Headline.{Ending, HasFates, Stopped, numbers_saved};
ghost use Rattle.run_model.specs.Moment.{Beginning, IsFirst, Moment, Run, Stage, behind, horizon_at, standing, start_in, start_of};
ghost use Rattle.run_model.specs.OneRun.{CountsQuestions, HoldsAndNames, StandsAfter, TwoRuns, all_deliveries, all_replies, deliveries_of, first_deliveries, first_replies, horizon_of, printed_by, printed_in_all, replies_with, said_from_start, state_ended, steps_ended};
ghost use Rattle.run_model.specs.Reading.{AreDeliveries};
ghost use Rattle.run_model.specs.Resuming.{AllowsHorizon, IsNotResumed, IsResumed, ResumeEnding, with_loaded};
ghost use Rattle.run_model.specs.{Moment.kept_last, Moment.saved_at, Moment.sections_of, Stop.stop_of};
ghost use Rattle.run_model.specs.{Remapping.IsFullOfStale, Remapping.held_triples, Remapping.mapped_by, Taking.IsFull, Taking.judgement};
ghost use Rattle.session_laws.specs.Complete.{FindsDocument, IsSaving, IsStill, has_document, steps_made, triples_in};
ghost use Rattle.drill_replay.specs.Told.{terms_there};

use snapshot::{replays_can_be_saved, snapshots_read_back};
use written_laws::no_line_of_a_saved_world_is_refused;

/// A replay or a patch stream ends with Ok or OutOfMemory if the arguments are understood, each line of the input is a delivery, the input
/// is within the limit, no read or write fails, and there is room for the page that the least due event wants and for the next page to be
/// remapped.
pub fn good_input_is_replayed()
    ensures { (run : Run) (before now : Moment) (status : Status) (bytes : List ℕ) (ds : List Delivery) →
        (status ≡ Status.BadWords → ⊥) → IfSome (stop_of status) (λ stop. Stopped stop run before now) →
        before.input.left ≡ Some bytes → AreDeliveries (max_bytes_of run.choices) bytes ds →
        IsStill before.input.faults now.input.faults → IsStill before.stage.output.faults now.stage.output.faults →
        (IsSaving run.choices → IsStill before.snapshot.faults now.snapshot.faults) →
        (IsFull run.environment now.stage.world now.stage.mapped → ⊥) →
        (IsFullOfStale run.environment.limit now.stage.world.played.records now.stage.mapped → ⊥) →
        (status ≡ Status.Ok) ⊎ (status ≡ Status.OutOfMemory) }
{}

/// A first replay over told contents never runs out of room if all pages that its input may bring have together no more distinct terms than
/// the limit. These are the pages at the revisions of all delivered edits, undeletions and reconciliations as kept, if a document of the
/// entity is there, by the first version of the mapping and by each that a line brings.
pub fn told_pages_have_room()
    ensures { (run : Run) (before now : Moment) (contents : ℕ → Option Bytes) (bytes : List ℕ) (ds : List Delivery) →
        IsFirst (start_of run before) → Stopped Stop.StoreFull run before now → before.input.left ≡ Some bytes → AreDeliveries (max_bytes_of run.choices) bytes ds →
        run.environment.known ≡ Some contents → distinct (terms_there contents ds) ≤ run.environment.limit.terms → ⊥ }
{}

/// A first replay or patch stream over told contents ends with Ok or OutOfMemory if the arguments are understood, each line of the input is
/// a delivery, the input is within the limit, no read or write fails, and all pages that the input may bring have together no more distinct
/// terms than the limit.
pub fn fitting_input_is_replayed()
    ensures { (run : Run) (before now : Moment) (status : Status) (contents : ℕ → Option Bytes) (bytes : List ℕ) (ds : List Delivery) →
        IsFirst (start_of run before) → (status ≡ Status.BadWords → ⊥) → IfSome (stop_of status) (λ stop. Stopped stop run before now) →
        before.input.left ≡ Some bytes → AreDeliveries (max_bytes_of run.choices) bytes ds →
        IsStill before.input.faults now.input.faults → IsStill before.stage.output.faults now.stage.output.faults →
        (IsSaving run.choices → IsStill before.snapshot.faults now.snapshot.faults) →
        run.environment.known ≡ Some contents → distinct (terms_there contents ds) ≤ run.environment.limit.terms →
        (status ≡ Status.Ok) ⊎ (status ≡ Status.OutOfMemory) }
{}

/// If a first replay over told contents ended with Ok and no fetch failed, each entity that isn't settled is kept at a revision that the
/// source doesn't have, or at which it has no document of the entity.
pub fn unsettled_pages_have_no_document()
    ensures { (run : Run) (before now : Moment) (contents : ℕ → Option Bytes) → IsFirst (start_of run before) →
        Ending run before now → run.environment.known ≡ Some contents → IsStill before.stage.counts.faults now.stage.counts.faults →
        (x : EntityId) → is_settled (record_of now.stage.world.played.records x) ≡ false →
        (is_kept (record_of now.stage.world.played.records x).state.mode ≡ true)
        × (has_document judgement contents x (record_of now.stage.world.played.records x).state.rev ≡ false) }
{}

/// If a first replay over told contents ended with Ok and every entity is settled, the stored triples are those that the kept revisions
/// mean, as the source has them, by the version of the mapping in force at the end.
pub fn settled_pages_are_the_union()
    ensures { (run : Run) (before now : Moment) (contents : ℕ → Option Bytes) → IsFirst (start_of run before) → (ending : Ending run before now) →
        run.environment.known ≡ Some contents →
        ((x : EntityId) → is_settled (record_of now.stage.world.played.records x) ≡ true) →
        held_triples now.stage.mapped now.stage.world.played.records
        ≡ sorted triple_cmp (flat_map (λ entry. triples_in (meaning (version_at ending.replayed.deliveries (start_of run before))) contents entry.0 entry.1.state)
        (map.entries now.stage.world.played.records)) }
{}

/// If a first replay over told contents ended with Ok, no fetch failed, no delivery was late, and each accepted event that may say that its
/// page is there finds a document at its revision, the side output is empty.
pub fn found_pages_leave_no_entries()
    ensures { (run : Run) (before now : Moment) (contents : ℕ → Option Bytes) → IsFirst (start_of run before) → (ending : Ending run before now) →
        run.environment.known ≡ Some contents → IsStill before.stage.counts.faults now.stage.counts.faults →
        late (horizon_at (start_of run before)) ending.replayed.deliveries ≡ [] →
        ((e : Event) → has event_cmp e (accepted (horizon_at (start_of run before)) ending.replayed.deliveries) ≡ true → FindsDocument judgement contents e) →
        now.stage.world.played.side ≡ [] }
{}

/// A first run is the replay of its deliveries: it leads to the same state, with the end of the deliveries or without it, and has the same
/// fetches, answers, steps, stream and version in force.
pub fn first_runs_are_whole_replays()
    ensures state { (start : Beginning) → IsFirst start → (replies : Replies) (ds : List Delivery) → led_to ds start replies ≡ following (horizon_at start) replies ds }
    ensures the_end { (start : Beginning) → IsFirst start → (replies : Replies) (ds : List Delivery) → ended replies (led_to ds start replies) ≡ following_to_end (horizon_at start) replies ds }
    ensures version { (start : Beginning) → IsFirst start → (replies : Replies) (ds : List Delivery) → version_at ds start ≡ version_in_force ds }
    ensures fetches { (start : Beginning) → IsFirst start → (replies : Replies) (ds : List Delivery) →
        along fetches_of_delivery replies (standing start) ds ≡ fetches (horizon_at start) replies ds }
    ensures fetches_to_end { (start : Beginning) → IsFirst start → (replies : Replies) (ds : List Delivery) (routes : Option (List Route)) →
        (course_to_end routes ds start).fetched replies ≡ fetches_to_end (horizon_at start) replies ds }
    ensures said { (start : Beginning) → IsFirst start → (replies : Replies) (ds : List Delivery) →
        said_by None replies (standing start) ds ≡ said meaning (horizon_at start) replies ds }
    ensures said_of_graphs { (start : Beginning) → IsFirst start → (replies : Replies) (ds : List Delivery) (routes : Option (List Route)) →
        said_by routes replies (standing start) ds ≡ said_from_start routes (horizon_at start) replies ds }
    ensures steps { (start : Beginning) → IsFirst start → (replies : Replies) (ds : List Delivery) →
        along steps_of_delivery replies (standing start) ds ≡ steps_of_play (horizon_at start) replies ds }
    ensures steps_to_end { (start : Beginning) → IsFirst start → (replies : Replies) (ds : List Delivery) (routes : Option (List Route)) →
        (course_to_end routes ds start).steps replies ≡ steps_to_end (horizon_at start) replies ds }
    ensures stream { (start : Beginning) → IsFirst start → (steps : List Step) → stream_text_from start.numbered.patches steps ≡ stream_text steps }
{}

/// A follower that ended with Ok over the records of a first run's stream, in any order and each at least once, printed that it applied all
/// of them and, if asked, the triples of all that was held at the end of the run.
pub fn followers_have_what_was_held()
    ensures { (run : Run) (start end : Moment) → IsFirst (start_of run start) → (ended : Ending run start end) (choices : FollowChoices) (before now : FollowMoment) (bytes : List ℕ) (items : List PatchRecord) →
        Followed choices before now → before.input.left ≡ Some bytes → AreRecords (follow_max_bytes_of choices) bytes items None →
        AreOfStream (steps_made run start end ended) items →
        now.output.bytes ≡ after_known before.output.bytes
        (replica_text choices.export (changes (steps_made run start end ended)) (held_triples end.stage.mapped end.stage.world.played.records)) }
{}

/// The number of each record of a first run's stream fits 64 bits if its input tells its bytes, and may have no more than 4,294,967,295.
pub fn numbers_of_a_run_fit()
    ensures { (run : Run) (start end : Moment) → IsFirst (start_of run start) → (ended : Ending run start end) (bytes : List ℕ) (item : PatchRecord) →
        start.input.left ≡ Some bytes → max_bytes_of run.choices ≤ 4294967295 → In item (stream (steps_made run start end ended)) → item.number < 2 ^ 64 }
{}

/// What a first run writes of its stream are the records that a follower reads of it, within any limit that the text fits. This holds if
/// the run's input tells its bytes and may have no more than 4,294,967,295.
pub fn written_streams_are_records()
    ensures { (run : Run) (start end : Moment) → IsFirst (start_of run start) → (ended : Ending run start end) (bytes : List ℕ) (limit : ℕ) →
        start.input.left ≡ Some bytes → max_bytes_of run.choices ≤ 4294967295 →
        length (stream_text (steps_made run start end ended)) ≤ limit →
        AreRecords limit (stream_text (steps_made run start end ended)) (stream (steps_made run start end ended)) None
        × AreOfStream (steps_made run start end ended) (stream (steps_made run start end ended)) }
{}

/// If a replay that saves its world ended with Ok, a loading of the written bytes gives back this world, the version in force, and the
/// number of answers or of records. This holds for a first run and for one that goes on from where a replay stands. The numbers have to fit
/// 64 bits.
pub fn a_saved_replay_is_read_back()
    ensures later { (h : Option ℕ) (earlier : Replies) (ds : List Delivery) (run : Run) (before now : Moment) → StandsAfter h earlier ds (start_of run before) → (ending : Ending run before now) →
        closes run.choices ≡ false → IsSome before.snapshot.kept → IsFitSaved (saved_at now.stage (numbers_saved ending)) →
        IfSome (kept_last now.snapshot) (λ bytes. saved_in_bytes bytes ≡ Some (saved_at now.stage (numbers_saved ending))) }
    ensures first { (run : Run) (before now : Moment) → IsFirst (start_of run before) → (ending : Ending run before now) → closes run.choices ≡ false → IsSome before.snapshot.kept →
        IsFitSaved (saved_at now.stage (numbers_saved ending)) →
        IfSome (kept_last now.snapshot) (λ bytes. saved_in_bytes bytes ≡ Some (saved_at now.stage (numbers_saved ending))) }
{
    replays_can_be_saved();
    snapshots_read_back();
}

/// A run that begins where a replay of earlier deliveries stands leaves what one replay of all deliveries leaves: the world, the states
/// that are their fates, what is held and named, and every page mapped by the version in force. The replies to this replay are the earlier
/// ones for events that the mark had reached then, and the run's own for all others. If the run answers questions, it prints the rest of
/// what this replay prints, with the graphs of its own routes, if it has routes, whichever the earlier runs had. If it reports changes, it
/// writes the rest of this replay's stream. If it saves its world, a later run that goes on from it begins where this replay stands.
pub fn runs_go_on_as_one()
    ensures world { (h : Option ℕ) (earlier : Replies) (ds : List Delivery) (run : Run) (before now : Moment) → StandsAfter h earlier ds (start_of run before) → (ending : Ending run before now) →
        now.stage.world ≡ state_ended (closes run.choices) h (replies_with earlier ds ending) (ds ++ deliveries_of ending) }
    ensures mapped { (h : Option ℕ) (earlier : Replies) (ds : List Delivery) (run : Run) (before now : Moment) → StandsAfter h earlier ds (start_of run before) → (ending : Ending run before now) →
        now.stage.mapped ≡ mapped_by (version_in_force (ds ++ deliveries_of ending)) now.stage.world.played.records }
    ensures fates { (h : Option ℕ) (earlier : Replies) (ds : List Delivery) (run : Run) (before now : Moment) → StandsAfter h earlier ds (start_of run before) → (ending : Ending run before now) →
        HasFates (closes run.choices) h (ds ++ deliveries_of ending) now.stage.world }
    ensures holds { (h : Option ℕ) (earlier : Replies) (ds : List Delivery) (run : Run) (before now : Moment) → StandsAfter h earlier ds (start_of run before) → (ending : Ending run before now) →
        HoldsAndNames h (ds ++ deliveries_of ending) now.stage.world }
    ensures printed { (h : Option ℕ) (earlier : Replies) (ds : List Delivery) (run : Run) (before now : Moment) → StandsAfter h earlier ds (start_of run before) → (ending : Ending run before now) →
        run.environment.report ≡ Answers → CountsQuestions ds run.numbered → run.environment.routes ≡ None →
        (rest : List ℕ) × (now.stage.output.bytes ≡ after_known before.stage.output.bytes rest)
        × (said meaning h earlier ds ++ rest ≡ printed_in_all (closes run.choices) (sections_of run.choices) h (replies_with earlier ds ending) (ds ++ deliveries_of ending)) }
    ensures routed { (h : Option ℕ) (earlier : Replies) (ds : List Delivery) (run : Run) (before now : Moment) → StandsAfter h earlier ds (start_of run before) → (ending : Ending run before now) →
        run.environment.report ≡ Answers → CountsQuestions ds run.numbered →
        (rest : List ℕ) × (now.stage.output.bytes ≡ after_known before.stage.output.bytes rest)
        × (said_from_start run.environment.routes h earlier ds ++ rest ≡ printed_by run.environment.routes (closes run.choices) (sections_of run.choices) h (replies_with earlier ds ending) (ds ++ deliveries_of ending)) }
    ensures streamed { (h : Option ℕ) (earlier : Replies) (ds : List Delivery) (run : Run) (before now : Moment) → StandsAfter h earlier ds (start_of run before) → (ending : Ending run before now) →
        run.environment.report ≡ Changes → run.numbered.patches ≡ changes (steps_of_play h earlier ds) →
        (rest : List ℕ) × (now.stage.output.bytes ≡ after_known before.stage.output.bytes rest)
        × (stream_text (steps_of_play h earlier ds) ++ rest ≡ stream_text (steps_ended (closes run.choices) h (replies_with earlier ds ending) (ds ++ deliveries_of ending))) }
    ensures stands { (h : Option ℕ) (earlier : Replies) (ds : List Delivery) (run : Run) (before now : Moment) → StandsAfter h earlier ds (start_of run before) → (ending : Ending run before now) →
        closes run.choices ≡ false → StandsAfter h (replies_with earlier ds ending) (ds ++ deliveries_of ending) (start_in (numbers_saved ending) now.stage) }
    ensures counts { (h : Option ℕ) (earlier : Replies) (ds : List Delivery) (run : Run) (before now : Moment) → StandsAfter h earlier ds (start_of run before) → (ending : Ending run before now) →
        run.environment.report ≡ Answers → CountsQuestions ds run.numbered → CountsQuestions (ds ++ deliveries_of ending) (numbers_saved ending) }
    ensures patches { (h : Option ℕ) (earlier : Replies) (ds : List Delivery) (run : Run) (before now : Moment) → StandsAfter h earlier ds (start_of run before) → (ending : Ending run before now) →
        run.environment.report ≡ Changes → run.numbered.patches ≡ changes (steps_of_play h earlier ds) →
        (numbers_saved ending).patches ≡ changes (steps_ended (closes run.choices) h (replies_with earlier ds ending) (ds ++ deliveries_of ending)) }
{}

/// A first run begins where the replay of no deliveries stands.
pub fn first_runs_stand_after_nothing()
    ensures stands { (start : Beginning) → IsFirst start → (replies : Replies) → StandsAfter (horizon_at start) replies [] start }
    ensures counts { (start : Beginning) → IsFirst start → CountsQuestions [] start.numbered }
    ensures patches { (start : Beginning) → IsFirst start → (replies : Replies) → start.numbered.patches ≡ changes (steps_of_play (horizon_at start) replies []) }
{}

/// A run that goes on from the bytes that another run saved begins where that one stood, with its counts.
pub fn resumed_runs_begin_where_others_stood()
    ensures { (status : Status) (run : Run) (before now : Moment) (stage : Stage) (numbers : Counts) (bytes : List ℕ) → (resumed : IsResumed (stop_of status) run before now) →
        before.resumed.left ≡ Some bytes → saved_in_bytes bytes ≡ Some (saved_at stage numbers) →
        (h : Option ℕ) (replies : Replies) (ds : List Delivery) → StandsAfter h replies ds (start_in numbers stage) →
        StandsAfter h replies ds (start_of (behind resumed.numbers run) (with_loaded before resumed.rest resumed.world)) × (resumed.numbers ≡ numbers) }
{}

/// A run can go on from whatever a run that ended with Ok saved: it refuses no line of that snapshot unless its options name another
/// horizon, and lacks room only if there is none for what is stored of it. The numbers have to be such that a run may go on with them.
pub fn saved_worlds_are_gone_on_from()
    ensures lines { (h : Option ℕ) (earlier : Replies) (ds : List Delivery) (run : Run) (before now : Moment) → StandsAfter h earlier ds (start_of run before) → (ending : Ending run before now) →
        closes run.choices ≡ false → IsSome before.snapshot.kept → IsFitSaved (saved_at now.stage (numbers_saved ending)) → AreWithin (numbers_saved ending) →
        (later : Run) (then_before then_now : Moment) → then_before.resumed.left ≡ (kept_last now.snapshot) → AllowsHorizon later.choices h →
        (status : Status) → ResumeEnding (stop_of status) later then_before then_now → (n : ℕ) → stop_of status ≡ Some (Stop.BadSnapshot n) → ⊥ }
    ensures room { (h : Option ℕ) (earlier : Replies) (ds : List Delivery) (run : Run) (before now : Moment) → StandsAfter h earlier ds (start_of run before) → (ending : Ending run before now) →
        closes run.choices ≡ false → IsSome before.snapshot.kept → IsFitSaved (saved_at now.stage (numbers_saved ending)) → AreWithin (numbers_saved ending) →
        (later : Run) (then_before then_now : Moment) → then_before.resumed.left ≡ (kept_last now.snapshot) →
        (status : Status) → IsNotResumed (stop_of status) later then_before then_now → stop_of status ≡ Some Stop.StoreFull →
        max_terms_of later.choices < room_with (stored_by later.choices.lean (meaning_by meaning (all_by now.stage.mapped.version now.stage.world.played.records)) now.stage.world.played.records) now.stage.world.played.records [] }
{
    replays_can_be_saved();
    snapshots_read_back();
    no_line_of_a_saved_world_is_refused();
}

/// A run that goes on from what another run saved ends with Ok or OutOfMemory if the arguments are understood and name no other horizon,
/// each line of the input is a delivery, input and snapshot are within the limit, no read or write fails, and there is room for all that is
/// held, for the page that the least due event wants, and for the next page to be remapped. The numbers have to be such that a run may go
/// on with them.
pub fn good_input_goes_on_from_saved_worlds()
    ensures { (h : Option ℕ) (earlier : Replies) (ds : List Delivery) (run : Run) (before now : Moment) → StandsAfter h earlier ds (start_of run before) → (ending : Ending run before now) →
        closes run.choices ≡ false → IsSome before.snapshot.kept → IsFitSaved (saved_at now.stage (numbers_saved ending)) → AreWithin (numbers_saved ending) →
        IfSome (kept_last now.snapshot) (λ text. length text ≤ longest_file) →
        (later : Run) (then_before then_now : Moment) → then_before.resumed.left ≡ (kept_last now.snapshot) → AllowsHorizon later.choices h →
        room_with (stored_by later.choices.lean (meaning_by meaning (all_by now.stage.mapped.version now.stage.world.played.records)) now.stage.world.played.records) now.stage.world.played.records [] ≤ max_terms_of later.choices →
        (status : Status) → ResumeEnding (stop_of status) later then_before then_now → (status ≡ Status.BadWords → ⊥) →
        (bytes : List ℕ) (items : List Delivery) → then_before.input.left ≡ Some bytes → AreDeliveries (max_bytes_of later.choices) bytes items →
        IsStill then_before.resumed.faults then_now.resumed.faults → IsStill then_before.input.faults then_now.input.faults →
        IsStill then_before.stage.output.faults then_now.stage.output.faults →
        (IsSaving later.choices → IsStill then_before.snapshot.faults then_now.snapshot.faults) →
        (IsFull later.environment then_now.stage.world then_now.stage.mapped → ⊥) →
        (IsFullOfStale later.environment.limit then_now.stage.world.played.records then_now.stage.mapped → ⊥) →
        (status ≡ Status.Ok) ⊎ (status ≡ Status.OutOfMemory) }
{
    good_input_is_replayed();
    replays_can_be_saved();
    saved_worlds_are_gone_on_from();
}

/// If a first run saved its world, a second one resumed from it, and both ended with Ok, they are one run: the world is that of one replay
/// of the deliveries of both, with the first run's replies to events that its mark had reached and the second's to all others. The same
/// holds for states, holds and names. If both answer questions, the second prints the rest of what this replay prints; if it routes pages
/// to graphs, this replay does too, whatever routes the first run had. If both report changes, their records are one stream. The numbers
/// that are saved have to fit 64 bits.
pub fn two_runs_are_one()
    ensures world { (one two : Run) (before_one now_one before_two now_two : Moment) (runs : TwoRuns one two before_one now_one before_two now_two) →
        now_two.stage.world ≡ state_ended (closes two.choices) (horizon_of runs) (all_replies runs) (all_deliveries runs) }
    ensures fates { (one two : Run) (before_one now_one before_two now_two : Moment) (runs : TwoRuns one two before_one now_one before_two now_two) →
        HasFates (closes two.choices) (horizon_of runs) (all_deliveries runs) now_two.stage.world }
    ensures holds { (one two : Run) (before_one now_one before_two now_two : Moment) (runs : TwoRuns one two before_one now_one before_two now_two) →
        HoldsAndNames (horizon_of runs) (all_deliveries runs) now_two.stage.world }
    ensures printed { (one two : Run) (before_one now_one before_two now_two : Moment) (runs : TwoRuns one two before_one now_one before_two now_two) →
        one.environment.report ≡ Answers → two.environment.report ≡ Answers → two.environment.routes ≡ None →
        (rest : List ℕ) × (now_two.stage.output.bytes ≡ after_known before_two.stage.output.bytes rest)
        × (said meaning (horizon_of runs) (first_replies runs) (first_deliveries runs) ++ rest
        ≡ printed_in_all (closes two.choices) (sections_of two.choices) (horizon_of runs) (all_replies runs) (all_deliveries runs)) }
    ensures routed { (one two : Run) (before_one now_one before_two now_two : Moment) (runs : TwoRuns one two before_one now_one before_two now_two) →
        one.environment.report ≡ Answers → two.environment.report ≡ Answers →
        (rest : List ℕ) × (now_two.stage.output.bytes ≡ after_known before_two.stage.output.bytes rest)
        × (said_from_start two.environment.routes (horizon_of runs) (first_replies runs) (first_deliveries runs) ++ rest
        ≡ printed_by two.environment.routes (closes two.choices) (sections_of two.choices) (horizon_of runs) (all_replies runs) (all_deliveries runs)) }
    ensures streamed { (one two : Run) (before_one now_one before_two now_two : Moment) (runs : TwoRuns one two before_one now_one before_two now_two) →
        one.environment.report ≡ Changes → two.environment.report ≡ Changes →
        (rest : List ℕ) × (now_two.stage.output.bytes ≡ after_known before_two.stage.output.bytes rest)
        × (stream_text (steps_of_play (horizon_of runs) (first_replies runs) (first_deliveries runs)) ++ rest
        ≡ stream_text (steps_ended (closes two.choices) (horizon_of runs) (all_replies runs) (all_deliveries runs))) }
{
    a_saved_replay_is_read_back();
}
