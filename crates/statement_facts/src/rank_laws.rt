// What holds of the definitions themselves. Each law is the contract of a function that does nothing.

ghost use Rattle.std.specs.Prelude.{IsTrue, List, ◌↔◌};
ghost use Rattle.entity_model.specs.declared.statement.Statement.{Statement};
ghost use Rattle.statement_facts.specs.Ranking.{is_best, IsBest};

/// A statement is best exactly where it isn't deprecated and no statement of its property is ranked higher.
#[tactic(auto, using(crate::proofs::Highest::best_words))]
pub fn best_is_ranked_highest()
    ensures { (all : List Statement) (s : Statement) → IsTrue (is_best all s) ↔ IsBest all s }
{}
