// What holds of the triples of changed documents. Each law is the contract of a function that does nothing.

ghost use Rattle.std.specs.Prelude.{ℕ};
ghost use Rattle.std.specs.List.{AllByRecursion};
ghost use Rattle.rdf_term.specs.Fit.{HasFitAndShortTerms};
ghost use Rattle.sorted_sets.specs.Merging.{Balance, IsWithin};
ghost use Rattle.entity_model.specs.{declared.id.EntityId.EntityId, declared.entity.Entity.Entity};
ghost use Rattle.entity_model.specs.{declared.document.Document.TheVariants.Entity as AnEntity, Document.IsSmall};
ghost use Rattle.entity_model.specs.declared.mapping.MappingVersion.{MappingVersion};
ghost use Rattle.entity_model.specs.Changes.{EntityChanges};
ghost use Rattle.page_rdf.specs.Counted.{AreAfter, counts_of};
ghost use Rattle.entity_rdf.specs.{Changing.kept_list, Counted.counted_kept};

/// What is kept of the new document and of the parts that are gone comes to what is kept of the old one and of the parts that came,
/// each triple as many times. A part says how many statements and links its whole document has.
pub fn kept_triples_balance()
    ensures balance { (version : MappingVersion) (x : EntityId) (old_rev new_rev : ℕ) (old new gone come : Entity) → EntityChanges old new gone come →
        Balance (kept_list version x new_rev new) (counted_kept version x old_rev (counts_of old) gone) (kept_list version x old_rev old) (counted_kept version x new_rev (counts_of new) come) }
    ensures gone { (version : MappingVersion) (x : EntityId) (rev : ℕ) (old new gone come : Entity) → EntityChanges old new gone come →
        IsWithin (counted_kept version x rev (counts_of old) gone) (kept_list version x rev old) }
    ensures come { (version : MappingVersion) (x : EntityId) (rev : ℕ) (old new gone come : Entity) → EntityChanges old new gone come →
        IsWithin (counted_kept version x rev (counts_of new) come) (kept_list version x rev new) }
{}

/// The counts of the new document are those of the old one, less those of the parts that are gone, and those of the parts that came.
pub fn counts_change()
    ensures { (old new gone come : Entity) → EntityChanges old new gone come → AreAfter (counts_of old) (counts_of gone) (counts_of come) (counts_of new) }
{}

/// The triples that are kept of parts that came have fit and short terms where the new document is small.
pub fn parts_are_fit()
    ensures { (version : MappingVersion) (x : EntityId) (rev : ℕ) (old new gone come : Entity) → EntityChanges old new gone come → IsSmall (AnEntity new) →
        AllByRecursion HasFitAndShortTerms (counted_kept version x rev (counts_of new) come) }
{}
