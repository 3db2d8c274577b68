// What holds of the definitions themselves. Each law is the contract of a function that does nothing.

ghost use Rattle.std.specs.Prelude.{◌↔◌, ℕ};
ghost use Rattle.sorted_sets.specs.Rising.{In, sorted};
ghost use Rattle.rdf_term.specs.{declared.triple.Triple.Triple, Order.triple_cmp};
ghost use Rattle.entity_model.specs.{declared.id.EntityId.EntityId, declared.document.Document.Document};
ghost use Rattle.entity_model.specs.declared.mapping.MappingVersion.{MappingVersion};
ghost use Rattle.entity_rdf.specs.{Dump.dump, Gives.Gives, Keeps.Keeps};
ghost use Rattle.munger.specs.Munging.{munge};

/// The triples of a document are exactly those that a rule of the dump format gives.
#[tactic(auto, using(crate::proofs::Given::dump_rules))]
pub fn dump_triples_are_given()
    ensures { (version : MappingVersion) (x : EntityId) (rev : ℕ) (document : Document) (t : Triple) → In t (dump version x rev document) ↔ Gives version x rev document t }
{}

/// The store keeps exactly what munging leaves of a triple that a rule of the dump format gives.
pub fn kept_triples_are_left_of_given_ones()
    ensures { (version : MappingVersion) (x : EntityId) (rev : ℕ) (document : Document) (t : Triple) →
        In t (munge x (sorted triple_cmp (dump version x rev document))) ↔ Keeps version x rev document t }
{}
