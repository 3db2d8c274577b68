// What holds of the definitions themselves. Each law is the contract of a function that does nothing.

ghost use Rattle.std.specs.Prelude.{◌↔◌, ℕ};
ghost use Rattle.sorted_sets.specs.Rising.{In, sorted};
ghost use Rattle.rdf_term.specs.{declared.triple.Triple.Triple, Order.triple_cmp};
ghost use Rattle.entity_model.specs.{declared.id.EntityId.EntityId, declared.mapping.MappingVersion.MappingVersion};
ghost use Rattle.entity_model.specs.declared.lexeme.Lexeme.{Lexeme};
ghost use Rattle.munger.specs.Munging.{munge};
ghost use Rattle.entity_rdf.specs.{LexemeDump.lexdump, LexemeGives.LexemeGives, LexemeKeeps.LexemeKeeps};

/// The triples of a lexeme are exactly those that a rule of the dump gives.
pub fn lexeme_triples_are_given()
    ensures { (version : MappingVersion) (x : EntityId) (rev : ℕ) (l : Lexeme) (t : Triple) → In t (lexdump version x rev l) ↔ LexemeGives version x rev l t }
{}

/// The store keeps exactly what munging leaves of a triple that a rule of the dump gives.
pub fn kept_lexeme_triples_are_left_of_given_ones()
    ensures { (version : MappingVersion) (x : EntityId) (rev : ℕ) (l : Lexeme) (t : Triple) →
        In t (munge x (sorted triple_cmp (lexdump version x rev l))) ↔ LexemeKeeps version x rev l t }
{}
