// What holds of the definitions themselves. Each law is the contract of a function that does nothing.

ghost use Rattle.std.specs.Prelude.{Bool, ◌↔◌};
ghost use Rattle.std.specs.List.{AllByRecursion};
ghost use Rattle.sorted_sets.specs.Rising.{In};
ghost use Rattle.rdf_term.specs.{declared.term.Term.Term, declared.triple.Triple.Triple, Fit.HasFitAndShortTerms, Fit.IsFitAndShort};
ghost use Rattle.entity_model.specs.{Statement.IsSmallStatement, declared.mapping.MappingVersion.MappingVersion};
ghost use Rattle.entity_model.specs.declared.statement.Statement.{Statement};
ghost use Rattle.statement_rdf.specs.{Gives.StatementGives, Statement.statement_triples};

/// The triples of a statement are exactly those that a rule of the dump format gives.
pub fn statement_triples_are_given()
    ensures { (version : MappingVersion) (entity : Term) (s : Statement) (best : Bool) (t : Triple) →
        In t (statement_triples version entity s best) ↔ StatementGives version entity s best t }
{}

/// The triples of a small statement of a subject whose term is fit and short have fit and short terms.
#[tactic(auto, using(crate::proofs::Fit::statement_triples_fit))]
pub fn statement_terms_are_fit()
    ensures { (version : MappingVersion) (entity : Term) (s : Statement) (best : Bool) → IsFitAndShort entity
        → IsSmallStatement s → AllByRecursion HasFitAndShortTerms (statement_triples version entity s best) }
{}
