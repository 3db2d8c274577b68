// Runs over told contents without a failed fetch, and runs that are made again from the same place.

ghost use Rattle.std.specs.Prelude.{◌≡◌, ℕ, List, [], Option, Some};
ghost use Rattle.replay_model.specs.{Records.Bytes, Replies.failed_events};
ghost use Rattle.text_output.specs.declared.write.Unwritten.{Unwritten};
ghost use Rattle.run_model.specs.{declared.report.Report.TheVariants.Answers, declared.report.Report.TheVariants.Changes, declared.stop.Stop.Stop};
ghost use Rattle.run_model.specs.Headline.{Ending, StandsAtPage, Stopped, course_of, numbers_saved};
ghost use Rattle.run_model.specs.{Moment.Moment, Moment.Run, Moment.start_of, Report.bytes_of, OneRun.deliveries_of};
ghost use Rattle.session_laws.specs.Complete.{steps_made};
ghost use Rattle.session_laws.specs.Reruns.{AreTold, BeginAlike, NoFetchFails, WritesFirst, WritesPrefix, records_from, replies_at};

/// If the contents are told and no fetch of a run fails, the side output names no other failed fetches at its end than at its beginning, and
/// the world and the output are functions of the arguments, the deliveries, the contents and the place where the run begins: the replies are
/// what is there, but for the failed fetches that the side output named before.
pub fn runs_without_failures_are_functions()
    ensures named { (run : Run) (before now : Moment) → Ending run before now → NoFetchFails before now →
        failed_events now.stage.world.played.side ≡ failed_events before.stage.world.played.side }
    ensures world { (run : Run) (before now : Moment) (contents : ℕ → Option Bytes) → (ending : Ending run before now) → run.environment.known ≡ Some contents → NoFetchFails before now →
        now.stage.world ≡ (course_of run (deliveries_of ending) (start_of run before)).state (replies_at contents before) }
    ensures output { (run : Run) (before now : Moment) (contents : ℕ → Option Bytes) → (ending : Ending run before now) → run.environment.known ≡ Some contents → NoFetchFails before now →
        now.stage.output.bytes ≡ bytes_of run.environment.report (course_of run (deliveries_of ending) (start_of run before)) (start_of run before) (replies_at contents before) }
{}

/// A run that is made again from the same world, over the same told input and contents, leaves the same if no fetch of either fails: the same
/// world, with its pages mapped by the same versions, the same output, and, if it answers questions, the same counts.
pub fn reruns_are_the_same()
    ensures world { (run : Run) (before now again done : Moment) (contents : ℕ → Option Bytes) (bytes : List ℕ) → BeginAlike before again → AreTold run contents bytes before now again done → Ending run before now → Ending run again done →
        (now.stage.world ≡ done.stage.world) × (now.stage.mapped ≡ done.stage.mapped) }
    ensures output { (run : Run) (before now again done : Moment) (contents : ℕ → Option Bytes) (bytes : List ℕ) → BeginAlike before again → AreTold run contents bytes before now again done → Ending run before now → Ending run again done →
        before.stage.output.bytes ≡ again.stage.output.bytes → now.stage.output.bytes ≡ done.stage.output.bytes }
    ensures counts { (run : Run) (before now again done : Moment) (contents : ℕ → Option Bytes) (bytes : List ℕ) → BeginAlike before again → AreTold run contents bytes before now again done → (one : Ending run before now) → (two : Ending run again done) →
        run.environment.report ≡ Answers → numbers_saved one ≡ numbers_saved two }
{}

/// A run that stopped wrote a prefix of what the run writes that is made again from the same world, over the same told input and contents,
/// and ends with Ok, if no fetch of either fails. If it reports changes, these are the first records of the other run, each of them whole,
/// and then perhaps a part of the next one. This holds unless it stopped in the record of a page that a change of the mapping remaps.
pub fn stopped_runs_are_begun_reruns()
    ensures prefix { (run : Run) (before now again done : Moment) (contents : ℕ → Option Bytes) (bytes : List ℕ) → BeginAlike before again → AreTold run contents bytes before now again done →
        (stop : Stop) → Stopped stop run before now → ((why : Unwritten) → StandsAtPage why run before now → ⊥) → Ending run again done →
        (text : List ℕ) → again.stage.output.bytes ≡ Some [] → done.stage.output.bytes ≡ Some text → WritesPrefix text before.stage.output.bytes now.stage.output.bytes }
    ensures records { (run : Run) (before now again done : Moment) (contents : ℕ → Option Bytes) (bytes : List ℕ) → BeginAlike before again → AreTold run contents bytes before now again done →
        (stop : Stop) → Stopped stop run before now → ((why : Unwritten) → StandsAtPage why run before now → ⊥) → (ending : Ending run again done) →
        (written : List ℕ) → again.stage.output.bytes ≡ Some written → run.environment.report ≡ Changes →
        WritesFirst (records_from run.numbered.patches (steps_made run again done ending)) before.stage.output.bytes now.stage.output.bytes }
{}
