// Runs of any commands that go on from one another, and the followers of their records.

ghost use Rattle.std.specs.Prelude.{◌≡◌, ℕ, Bool, List, [], Some, None};
ghost use Rattle.sorted_sets.specs.Rising.{Each, In};
ghost use Rattle.wq_io.specs.Streams.{after_known};
ghost use Rattle.replica.specs.{declared.record.PatchRecord.PatchRecord, Laws.IsGreatest};
ghost use Rattle.patch_stream.specs.Stream.{Step};
ghost use Rattle.snapshot.specs.declared.counts.Counts.{Counts};
ghost use Rattle.arguments.specs.Options.{FollowChoices, follow_max_bytes_of};
ghost use Rattle.following.specs.{Following.Ending as Followed, Following.FollowMoment, Following.replica_text, Reading.AreRecords};
ghost use Rattle.run_model.specs.{Moment.Stage, Remapping.held_triples};
ghost use Rattle.session_laws.specs.Chains.{Numbered, RunOn, changes_of, written_from};
ghost use Rattle.session_laws.specs.Live.{stored_after};

/// Runs go on from one another's snapshots, whichever of `replay`, `patches` and `split` each is. Each change that `patches` writes has a
/// number, and so do all changes of a run that writes none, together: this number is missing in every stream. A follower that ended with Ok
/// over records that these runs wrote, in any order and repeated, printed the triples that were stored after the last number before the
/// first that it lacks; where it lacks none, these are all that is held.
pub fn followers_stop_before_a_missing_number()
    ensures counts { (closed : Bool) (stage : Stage) (numbers : Counts) (steps : List Step) (changes : List Numbered) → RunOn closed stage numbers steps changes → stored_after [] (changes_of changes) numbers.patches ≡ held_triples stage.mapped stage.world.played.records }
    ensures stops { (closed : Bool) (stage : Stage) (numbers : Counts) (steps : List Step) (changes : List Numbered) → RunOn closed stage numbers steps changes → (choices : FollowChoices) (before now : FollowMoment) (bytes : List ℕ) (items : List PatchRecord) (n : ℕ) →
        Followed choices before now → before.input.left ≡ Some bytes → AreRecords (follow_max_bytes_of choices) bytes items None → Each (λ item. In item (written_from 1 changes)) items → IsGreatest items n →
        now.output.bytes ≡ after_known before.output.bytes (replica_text choices.export n (stored_after [] (changes_of changes) n)) }
    ensures all { (closed : Bool) (stage : Stage) (numbers : Counts) (steps : List Step) (changes : List Numbered) → RunOn closed stage numbers steps changes → (choices : FollowChoices) (before now : FollowMoment) (bytes : List ℕ) (items : List PatchRecord) →
        Followed choices before now → before.input.left ≡ Some bytes → AreRecords (follow_max_bytes_of choices) bytes items None → Each (λ item. In item (written_from 1 changes)) items → IsGreatest items numbers.patches →
        now.output.bytes ≡ after_known before.output.bytes (replica_text choices.export numbers.patches (held_triples stage.mapped stage.world.played.records)) }
{}
