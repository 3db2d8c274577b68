// What follows for the snapshots that a run keeps on the way.

ghost use Rattle.std.specs.Prelude.{◌≡◌, ◌+◌, ℕ, length, List, [], Option, Some, MatchOption, ◌++◌};
ghost use Rattle.std.specs.List.{AllByRecursion};
ghost use Rattle.wq_io.specs.Streams.{after_known};
ghost use Rattle.replica.specs.Laws.{HasShortNumbers};
ghost use Rattle.delivery.specs.declared.Delivery.{Delivery};
ghost use Rattle.replay_model.specs.{Acceptance.mark, Acceptance.version_in_force, Play.Replies, Records.Bytes};
ghost use Rattle.replay_parts.specs.Checkpoint.{replies_of_runs};
ghost use Rattle.snapshot.specs.File.{IsFitSaved, saved_in_bytes};
ghost use Rattle.patch_stream.specs.Stream.{changes, steps_of_play, stream_text};
ghost use Rattle.arguments.specs.Options.{closes};
ghost use Rattle.text_output.specs.declared.write.Unwritten.{Unwritten};
ghost use Rattle.run_model.specs.{declared.report.Report.TheVariants.Answers, declared.report.Report.TheVariants.Changes, declared.stop.Stop.Stop};
ghost use Rattle.run_model.specs.Headline.{Ending, HasFates, IsSnapshotBehind, StandsAtPage, Stopped, numbers_behind};
ghost use Rattle.run_model.specs.Moment.{Beginning, Moment, Run, behind, saved_at, sections_of, start_in, start_of};
ghost use Rattle.run_model.specs.OneRun.{CountsQuestions, HoldsAndNames, StandsAfter, printed_by, said_from_start, state_ended, steps_ended};
ghost use Rattle.run_model.specs.{Remapping.mapped_by, Resuming.with_loaded};
ghost use Rattle.session_laws.specs.Complete.{steps_made};
ghost use Rattle.session_laws.specs.Killed.{AreToldOnward, WasKilledAndWentOn, lines_with, replies_of_both, steps_there};
ghost use Rattle.session_laws.specs.{Live.steps_behind, Reruns.NoFetchFails, Reruns.WritesFirst, Reruns.records_from};

use snapshot::{replays_can_be_saved, snapshots_read_back};

/// Each snapshot that a run keeps on the way is that of the replay of the lines that it took until then: it is read back, its head says how
/// many they are, with those of earlier runs, and a run that goes on from it begins where this replay stands. The replies to it are the
/// earlier ones for events that the mark had reached before the run, and the run's own for all others. The numbers have to fit 64 bits.
pub fn kept_snapshots_stand_behind_their_lines()
    ensures stands { (h : Option ℕ) (earlier : Replies) (ds : List Delivery) (run : Run) (start : Beginning) → StandsAfter h earlier ds start →
        (taken : List Delivery) (text : List ℕ) (is : IsSnapshotBehind run start taken text) →
        StandsAfter h (replies_of_runs (mark ds) earlier is.played.replies) (ds ++ taken) (start_in (numbers_behind is) is.stage) }
    ensures read_back { (h : Option ℕ) (earlier : Replies) (ds : List Delivery) (run : Run) (start : Beginning) → StandsAfter h earlier ds start →
        (taken : List Delivery) (text : List ℕ) (is : IsSnapshotBehind run start taken text) →
        IsFitSaved (saved_at is.stage (numbers_behind is)) → saved_in_bytes text ≡ Some (saved_at is.stage (numbers_behind is)) }
    ensures lines { (run : Run) (start : Beginning) (taken : List Delivery) (text : List ℕ) (is : IsSnapshotBehind run start taken text) →
        (numbers_behind is).lines ≡ start.numbered.lines + length taken }
{
    replays_can_be_saved();
    snapshots_read_back();
}

/// A run that was killed and went on from a snapshot that it kept is one run: the world, the states, what is held and named, late events
/// included, and the versions of all pages are those of one replay of all lines. These are the lines that were taken before the run, those
/// that it took up to the snapshot, and those of the run that went on. What was written before, what the first one wrote up to the
/// snapshot, and what the other one wrote are the output of this replay: its records, or its answers and sections if both have the same
/// routes. What the first one wrote behind the snapshot isn't part of it. This holds for a first run and for one that begins where a replay
/// stands. The numbers of the snapshot have to fit 64 bits.
pub fn killed_runs_go_on_as_one()
    ensures world { (h : Option ℕ) (earlier : Replies) (ds : List Delivery) (run later : Run) (start : Beginning) (before now : Moment) → StandsAfter h earlier ds start → (runs : WasKilledAndWentOn run later start before now) →
        now.stage.world ≡ state_ended (closes later.choices) h (replies_of_both earlier ds runs) (lines_with ds runs) }
    ensures fates { (h : Option ℕ) (earlier : Replies) (ds : List Delivery) (run later : Run) (start : Beginning) (before now : Moment) → StandsAfter h earlier ds start → (runs : WasKilledAndWentOn run later start before now) →
        HasFates (closes later.choices) h (lines_with ds runs) now.stage.world }
    ensures holds { (h : Option ℕ) (earlier : Replies) (ds : List Delivery) (run later : Run) (start : Beginning) (before now : Moment) → StandsAfter h earlier ds start → (runs : WasKilledAndWentOn run later start before now) →
        HoldsAndNames h (lines_with ds runs) now.stage.world }
    ensures mapped { (h : Option ℕ) (earlier : Replies) (ds : List Delivery) (run later : Run) (start : Beginning) (before now : Moment) → StandsAfter h earlier ds start → (runs : WasKilledAndWentOn run later start before now) →
        now.stage.mapped ≡ mapped_by (version_in_force (lines_with ds runs)) now.stage.world.played.records }
    ensures streamed { (h : Option ℕ) (earlier : Replies) (ds : List Delivery) (run later : Run) (start : Beginning) (before now : Moment) → StandsAfter h earlier ds start → (runs : WasKilledAndWentOn run later start before now) →
        run.environment.report ≡ Changes → later.environment.report ≡ Changes → start.numbered.patches ≡ changes (steps_of_play h earlier ds) →
        (first rest : List ℕ) × (runs.kept.stage.output.bytes ≡ after_known start.output.bytes first) × (now.stage.output.bytes ≡ after_known before.stage.output.bytes rest)
        × ((stream_text (steps_of_play h earlier ds) ++ first) ++ rest ≡ stream_text (steps_ended (closes later.choices) h (replies_of_both earlier ds runs) (lines_with ds runs))) }
    ensures printed { (h : Option ℕ) (earlier : Replies) (ds : List Delivery) (run later : Run) (start : Beginning) (before now : Moment) → StandsAfter h earlier ds start → (runs : WasKilledAndWentOn run later start before now) →
        run.environment.report ≡ Answers → later.environment.report ≡ Answers → run.environment.routes ≡ later.environment.routes → CountsQuestions ds start.numbered →
        (first rest : List ℕ) × (runs.kept.stage.output.bytes ≡ after_known start.output.bytes first) × (now.stage.output.bytes ≡ after_known before.stage.output.bytes rest)
        × ((said_from_start later.environment.routes h earlier ds ++ first) ++ rest
        ≡ printed_by later.environment.routes (closes later.choices) (sections_of later.choices) h (replies_of_both earlier ds runs) (lines_with ds runs)) }
{
    kept_snapshots_stand_behind_their_lines();
}

/// If a patch stream was killed behind a snapshot that it kept, what it wrote behind the snapshot are the first of the records that the run
/// writes that went on from there, each of them whole, and then perhaps a part of the next one: whoever has the records up to the snapshot
/// gets all that came behind it again. The law takes what a killed stream wrote as a beginning of what it would have written until it ended
/// with Ok or stopped. It holds over told contents and a told input if no fetch of either fails, unless the stream stops in the record of a
/// page that a change of the mapping remaps. The head of the snapshot has to count the records of what is there, which it does if a reader
/// can give them.
pub fn killed_runs_wrote_what_is_written_again()
    ensures again { (h : Option ℕ) (earlier : Replies) (ds : List Delivery) (run later : Run) (before now again done : Moment) → StandsAfter h earlier ds (start_of run before) → (runs : WasKilledAndWentOn run later (start_of run before) again done) →
        (contents : ℕ → Option Bytes) (bytes : List ℕ) → AreToldOnward contents bytes before now again done runs →
        (stopped : Option Stop) → MatchOption stopped (Ending run before now) (λ stop. Stopped stop run before now) → ((why : Unwritten) → StandsAtPage why run before now → ⊥) →
        run.environment.report ≡ Changes → later.environment.report ≡ Changes → (old written unwritten : List ℕ) → before.stage.output.bytes ≡ Some old → again.stage.output.bytes ≡ Some [] →
        now.stage.output.bytes ≡ after_known runs.kept.stage.output.bytes (written ++ unwritten) →
        WritesFirst (records_from (numbers_behind runs.kept).patches (steps_made (behind runs.resumed.numbers later) (with_loaded again runs.resumed.rest runs.resumed.world) done runs.resumed.ending.outcome))
        runs.kept.stage.output.bytes (after_known runs.kept.stage.output.bytes written) }
    ensures counted { (run : Run) (before : Moment) (taken : List Delivery) (text : List ℕ) (kept : IsSnapshotBehind run (start_of run before) taken text) (contents : ℕ → Option Bytes) →
        run.environment.known ≡ Some contents → NoFetchFails before (record before { stage = kept.stage }) → run.environment.report ≡ Changes → (old : List ℕ) → before.stage.output.bytes ≡ Some old →
        AllByRecursion HasShortNumbers (records_from run.numbered.patches (steps_behind kept)) → AllByRecursion HasShortNumbers (records_from run.numbered.patches (steps_there contents before kept)) →
        (numbers_behind kept).patches ≡ run.numbered.patches + changes (steps_there contents before kept) }
{
    kept_snapshots_stand_behind_their_lines();
}
