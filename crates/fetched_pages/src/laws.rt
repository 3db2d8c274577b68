// What holds of the meaning of pages. Each law is the contract of a function that does nothing.

ghost use Rattle.std.specs.Prelude.{◌↔◌, ℕ, List};
ghost use Rattle.sorted_sets.specs.Rising.{In};
ghost use Rattle.rdf_term.specs.declared.triple.Triple.{Triple};
ghost use Rattle.entity_model.specs.{declared.id.EntityId.EntityId, declared.mapping.MappingVersion.MappingVersion};
ghost use Rattle.fetched_pages.specs.{Meaning.meaning, Means.Means};

/// Bytes mean a triple exactly where they are a page of the entity with a document, a rule of the dump gives a triple for it, and
/// this one is left of that by munging.
pub fn meaning_is_by_rules()
    ensures { (version : MappingVersion) (x : EntityId) (rev : ℕ) (bytes : List ℕ) (t : Triple) →
        In t (meaning version x rev bytes) ↔ Means version x rev bytes t }
{}
