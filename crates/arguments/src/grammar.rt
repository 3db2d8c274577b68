// The law of the grammar: the contract of a function that does nothing.

ghost use Rattle.std.specs.Prelude.{◌≡◌, ◌↔◌, ℕ, List, Some};
ghost use Rattle.arguments.specs.{Grammar.IsPlan, Plan.plan_of, declared.plan.Plan.Plan};

/// Words are a plan exactly if they are the name of a command and items of its table in any order, each at most once and with a value that
/// fits; the plan is what these items ask for.
pub fn plans_are_spelled()
    ensures { (words : List (List ℕ)) (plan : Plan) → (plan_of words ≡ Some plan) ↔ IsPlan words plan }
{}
