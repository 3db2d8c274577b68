// What holds of the order itself. The law is the contract of a function that does nothing.

ghost use Rattle.std.specs.Prelude.{◌↔◌, List};
ghost use Rattle.sorted_sets.specs.Rising.{In, sorted};
ghost use Rattle.rdf_term.specs.{declared.triple.Triple.Triple, Order.triple_cmp};

/// The sorted list of triples has exactly the triples of the list.
#[tactic(auto, using(crate::proofs::Members::member_triples))]
pub fn sorted_triples_are_the_triples()
    ensures { (triple : Triple) (triples : List Triple) → In triple (sorted triple_cmp triples) ↔ In triple triples }
{}
