// What the clause of `run` on replays says of each command that is one.

ghost use Rattle.std.specs.Prelude.{◌≡◌, ℕ, List, Option, None, Some, IsSome};
ghost use Rattle.revisions.specs.Revisions.{Contents};
ghost use Rattle.graph_routes.specs.{declared.routes.Route.Route, Routes.AreRoutesIn};
ghost use Rattle.arguments.specs.{Options.Choices, Options.SplitChoices, Plan.plan_of};
ghost use Rattle.arguments.specs.declared.plan.Plan.TheVariants.{Patches, Replay, Split};
ghost use Rattle.run_model.specs.{declared.report.Report.TheVariants.Answers, declared.report.Report.TheVariants.Changes, declared.stop.Stop.Stop};
ghost use Rattle.run_model.specs.{Headline.ReplayEnding, Moment.Moment, Moment.run_of, Resuming.ResumeEnding};
ghost use Rattle.session_laws.specs.Plans.{EndsAsItsRun, begun_with};

/// A replay, a patch stream or a split without `--resume` ends with Ok or stops for a cause, and begins with an empty world of its options. With
/// `--resume` its snapshot is refused, or it goes on from the snapshot's world.
pub fn plans_end_as_their_runs()
    ensures replay { (words : List (List ℕ)) (contents : Option Contents) (stopped : Option Stop) (before now : Moment) → EndsAsItsRun words contents stopped before now → (choices : Choices) → plan_of words ≡ Some (Replay choices) →
        choices.resume ≡ None → ReplayEnding stopped (run_of None Answers contents choices) (begun_with choices before) now }
    ensures resumed { (words : List (List ℕ)) (contents : Option Contents) (stopped : Option Stop) (before now : Moment) → EndsAsItsRun words contents stopped before now → (choices : Choices) → plan_of words ≡ Some (Replay choices) →
        IsSome choices.resume → ResumeEnding stopped (run_of None Answers contents choices) before now }
    ensures patches { (words : List (List ℕ)) (contents : Option Contents) (stopped : Option Stop) (before now : Moment) → EndsAsItsRun words contents stopped before now → (choices : Choices) → plan_of words ≡ Some (Patches choices) →
        choices.resume ≡ None → ReplayEnding stopped (run_of None Changes contents choices) (begun_with choices before) now }
    ensures resumed_patches { (words : List (List ℕ)) (contents : Option Contents) (stopped : Option Stop) (before now : Moment) → EndsAsItsRun words contents stopped before now → (choices : Choices) → plan_of words ≡ Some (Patches choices) →
        IsSome choices.resume → ResumeEnding stopped (run_of None Changes contents choices) before now }
    ensures split { (words : List (List ℕ)) (contents : Option Contents) (stopped : Option Stop) (before now : Moment) → EndsAsItsRun words contents stopped before now → (choices : SplitChoices) → plan_of words ≡ Some (Split choices) →
        (routes : List Route) → AreRoutesIn choices.route routes → choices.replay.resume ≡ None → ReplayEnding stopped (run_of (Some routes) Answers contents choices.replay) (begun_with choices.replay before) now }
    ensures resumed_split { (words : List (List ℕ)) (contents : Option Contents) (stopped : Option Stop) (before now : Moment) → EndsAsItsRun words contents stopped before now → (choices : SplitChoices) → plan_of words ≡ Some (Split choices) →
        (routes : List Route) → AreRoutesIn choices.route routes → IsSome choices.replay.resume → ResumeEnding stopped (run_of (Some routes) Answers contents choices.replay) before now }
{}
