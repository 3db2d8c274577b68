// Patch streams that go on from one another, and the followers of their records.

ghost use Rattle.std.specs.Prelude.{◌≡◌, ◌++◌, ℕ, Bool, false, List, [], Option, None, Some};
ghost use Rattle.sorted_sets.specs.Rising.{Each, In};
ghost use Rattle.wq_io.specs.Streams.{after_known};
ghost use Rattle.replica.specs.{declared.record.PatchRecord.PatchRecord, Laws.IsGreatest};
ghost use Rattle.patch_stream.specs.Stream.{Step, changes, stream};
ghost use Rattle.written_laws.specs.Laws.{AreOfStream};
ghost use Rattle.snapshot.specs.{declared.counts.Counts.Counts, File.IsFitSaved, File.saved_in_bytes};
ghost use Rattle.arguments.specs.Options.{FollowChoices, follow_max_bytes_of};
ghost use Rattle.following.specs.{Following.Ending as Followed, Following.FollowMoment, Following.replica_text, Reading.AreRecords};
ghost use Rattle.replay_model.specs.Records.{Bytes};
ghost use Rattle.text_output.specs.declared.write.Unwritten.{Unwritten};
ghost use Rattle.run_model.specs.{declared.report.Report.TheVariants.Changes, declared.stop.Stop.Stop};
ghost use Rattle.run_model.specs.{Headline.StandsAtPage, Remapping.held_triples, Resuming.IsResumed, Resuming.with_loaded};
ghost use Rattle.run_model.specs.Moment.{Moment, Run, Stage, behind, saved_at, snapshot_text};
ghost use Rattle.session_laws.specs.{Complete.steps_made, Live.GoOn, Live.IsOneReplay, Live.stored_at_record};
ghost use Rattle.session_laws.specs.Reruns.{AreTold, WritesFirst, records_from};

use snapshot::{replays_can_be_saved, snapshots_read_back};

/// Patch streams that go on from one another, each from the snapshot of where the one before it ended or from one that it kept before it was
/// killed, write the records of one stream, each stream up to its snapshot: those of a later one are numbered on behind those of the earlier
/// ones. They are one replay. Where the deliveries don't end, a later run begins where this replay stands, and its snapshot is read back if
/// its numbers fit 64 bits. A run that stopped wrote the first of the records that the run writes which is made again from the same
/// snapshot, over the same told input and contents, if no fetch of either fails.
pub fn patch_streams_go_on_as_one()
    ensures counts { (closed : Bool) (stage : Stage) (numbers : Counts) (steps : List Step) → GoOn closed stage numbers steps → numbers.patches ≡ changes steps }
    ensures records { (steps more : List Step) → stream (steps ++ more) ≡ stream steps ++ records_from (changes steps) more }
    ensures one { (closed : Bool) (stage : Stage) (numbers : Counts) (steps : List Step) → GoOn closed stage numbers steps → IsOneReplay closed stage numbers steps }
    ensures read_back { (stage : Stage) (numbers : Counts) (steps : List Step) → GoOn false stage numbers steps → IsFitSaved (saved_at stage numbers) → saved_in_bytes (snapshot_text numbers stage) ≡ Some (saved_at stage numbers) }
    ensures tried { (closed : Bool) (stage : Stage) (numbers : Counts) (steps : List Step) → GoOn closed stage numbers steps → (bytes lines : List ℕ) → saved_in_bytes bytes ≡ Some (saved_at stage numbers) →
        (run : Run) (before now again done : Moment) (stop : Stop) (contents : ℕ → Option Bytes) → before.resumed.left ≡ Some bytes → again.resumed.left ≡ Some bytes →
        (tried : IsResumed (Some stop) run before now) → (resumed : IsResumed None run again done) →
        AreTold run contents lines (with_loaded before tried.rest tried.world) now (with_loaded again resumed.rest resumed.world) done →
        ((why : Unwritten) → StandsAtPage why (behind tried.numbers run) (with_loaded before tried.rest tried.world) now → ⊥) → run.environment.report ≡ Changes → again.stage.output.bytes ≡ Some [] →
        WritesFirst (records_from (changes steps) (steps_made (behind resumed.numbers run) (with_loaded again resumed.rest resumed.world) done resumed.ending.outcome)) before.stage.output.bytes now.stage.output.bytes }
{
    replays_can_be_saved();
    snapshots_read_back();
}

/// A follower that ended with Ok over all records that such patch streams wrote, those of a killed one up to its snapshot, in any order and
/// each at least once, printed that it applied all of them and, if asked, the triples of all that is held where the last one stands. If
/// records were lost, these are the triples that were held after the last record before the first gap.
pub fn mirrors_have_what_is_held()
    ensures all { (closed : Bool) (stage : Stage) (numbers : Counts) (steps : List Step) → GoOn closed stage numbers steps → (choices : FollowChoices) (before now : FollowMoment) (bytes : List ℕ) (items : List PatchRecord) →
        Followed choices before now → before.input.left ≡ Some bytes → AreRecords (follow_max_bytes_of choices) bytes items None → AreOfStream steps items →
        now.output.bytes ≡ after_known before.output.bytes (replica_text choices.export (changes steps) (held_triples stage.mapped stage.world.played.records)) }
    ensures lost { (closed : Bool) (stage : Stage) (numbers : Counts) (steps : List Step) → GoOn closed stage numbers steps → (choices : FollowChoices) (before now : FollowMoment) (bytes : List ℕ) (items : List PatchRecord) (n : ℕ) →
        Followed choices before now → before.input.left ≡ Some bytes → AreRecords (follow_max_bytes_of choices) bytes items None → Each (λ item. In item (stream steps)) items → IsGreatest items n →
        now.output.bytes ≡ after_known before.output.bytes (replica_text choices.export n (stored_at_record steps n)) }
{}
