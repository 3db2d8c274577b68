// What follows from the contract of a run over memory: functions that do nothing.

ghost use Rattle.std.specs.Prelude.{◌≡◌, ℕ, List, None, Some};
ghost use Rattle.arguments.specs.{Plan.plan_of, declared.plan.Plan.Plan};
ghost use Rattle.run_model.specs.{Moment.Run, declared.status.Status.Status};
ghost use Rattle.run_model.specs.declared.status.Status.TheVariants.{Ok as EndedWell, ReadFault, WriteFault};
ghost use Rattle.run_model.specs.Plans.{IsRunOf};
ghost use Rattle.memory_run.specs.{Printed.IsPrinted, Printed.NamesFewFailures, Runs.IsRun, Runs.Lent};

use session_laws::{reruns_are_the_same, runs_without_failures_are_functions};

/// A replay, a patch stream or a split that begins with nothing and ends with Ok prints a function of its words, its lines and the pages.
pub fn first_runs_print_what_is_there()
    ensures { (lent : Lent) (printed : List ℕ) (kept : List (List ℕ)) → IsRun lent EndedWell printed kept →
        (plan : Plan) → plan_of lent.words ≡ Some plan → (run : Run) → IsRunOf plan (Some lent.pages) run → run.choices.resume ≡ None → IsPrinted lent run printed }
{
    runs_without_failures_are_functions();
}

/// Reading, fetching, writing and saving never fail in memory: no run ends for such a cause.
pub fn memory_has_no_faults()
    ensures reads { (lent : Lent) (printed : List ℕ) (kept : List (List ℕ)) → IsRun lent ReadFault printed kept → ⊥ }
    ensures writes { (lent : Lent) (printed : List ℕ) (kept : List (List ℕ)) → IsRun lent WriteFault printed kept → ⊥ }
{}

/// Runs over the same words, lines, snapshot and pages that end with Ok print the same. So a caller who asks again with more room gets the
/// output that had no room.
pub fn runs_again_print_the_same()
    ensures { (lent : Lent) (printed printed_again : List ℕ) (kept kept_again : List (List ℕ)) → NamesFewFailures lent →
        IsRun lent EndedWell printed kept → IsRun lent EndedWell printed_again kept_again → printed ≡ printed_again }
{
    reruns_are_the_same();
}
