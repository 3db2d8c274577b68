// What holds of the definitions themselves. Each law is the contract of a function that does nothing.

ghost use Rattle.std.specs.Prelude.{◌≡◌, ℕ, List, IfSome};
ghost use Rattle.std.specs.List.{AllByRecursion};
ghost use Rattle.rdf_term.specs.Fit.{HasFitAndShortTerms, IsFitAndShort};
ghost use Rattle.entity_model.specs.{declared.value.QuantityParts.QuantityParts, declared.value.Value.Value};
ghost use Rattle.entity_model.specs.{declared.value.Value.TheVariants.Quantity, Value.IsSmallValue};
ghost use Rattle.entity_model.specs.{declared.mapping.MappingVersion.MappingVersion, declared.mapping.MappingVersion.TheVariants.Two};
ghost use Rattle.value_nodes.specs.{Name.node_name, Name.number_one_iri, Name.one, Name.with_unit, Nodes.node_triples, Terms.simple_term};

/// The simple term of a small value is fit and short.
#[tactic(auto, using(crate::proofs::Fit::simple_term_fit))]
pub fn simple_terms_are_fit()
    ensures { (datatype : List ℕ) (value : Value) → IsSmallValue value → IfSome (simple_term datatype value) IsFitAndShort }
{}

/// The triples of a small value's node have fit and short terms.
#[tactic(auto, using(crate::proofs::NodesFit::node_triples_fit))]
pub fn node_terms_are_fit()
    ensures { (version : MappingVersion) (value : Value) → IsSmallValue value → AllByRecursion HasFitAndShortTerms (node_triples version value) }
{}

/// In the second version of the mapping an amount of the unit `1` has the node of the same amount of the number
/// one, Q199.
#[tactic(auto, unfolding(crate::specs::Name::one, crate::specs::Name::number_one, rdf_vocabulary::specs::Prefix::prefix_text))]
pub fn unit_one_is_named_as_the_number_one()
    ensures { (quantity : QuantityParts) → node_name Two (Quantity (with_unit quantity one)) ≡ node_name Two (Quantity (with_unit quantity number_one_iri)) }
{}
