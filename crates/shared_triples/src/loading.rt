// The laws of pages that come one after the other.

ghost use Rattle.std.specs.Prelude.{◌≡◌, ◌||◌, List, ◌++◌, fold};
ghost use Rattle.std.specs.{FinMap.get, FinMap.find, FinMap.insert, List.list_any};
ghost use Rattle.sorted_sets.specs.Rising.{difference, has, sorted};
ghost use Rattle.rdf_term.specs.{declared.triple.Triple.Triple, Order.triple_cmp};
ghost use Rattle.entity_model.specs.{declared.id.EntityId.EntityId, EntityId.entity_cmp};
ghost use Rattle.entity_state.specs.declared.record.Record.{Record};
ghost use Rattle.replay_model.specs.{Records.Bytes, Records.Records, Union.Meaning, Union.triples_at, Union.union};
ghost use Rattle.shared_triples.specs.{Lean.AreNew, Lean.IsLean, Lean.own_of, Lean.strangers, Lean.triples_of};
ghost use Rattle.shared_triples.specs.Loading.{HasKeysOnce, LeanState, loaded, loaded_from, loaded_one, ready_for};

/// Whatever pages are put in, one after the other, the counts are in step after each; and counted are exactly the entities that were, and
/// those that triples on the page of another belong to. What each page adds to the union and removes from it is what its own triples gain
/// and lose, merged with what gets its first owner and loses its last, once the entities that it names are counted in.
pub fn any_pages_can_be_loaded()
    ensures from_scratch { (meaning : Meaning Triple) (entries : List (EntityId × Record Bytes)) →
        IsLean meaning (loaded meaning entries).counted (loaded meaning entries).count (loaded meaning entries).records }
    ensures onward { (meaning : Meaning Triple) (s : LeanState) (entries : List (EntityId × Record Bytes)) →
        IsLean meaning s.counted s.count s.records →
        IsLean meaning (loaded_from meaning s entries).counted (loaded_from meaning s entries).count (loaded_from meaning s entries).records }
    ensures adds { (meaning : Meaning Triple) (s : LeanState) (entry : EntityId × Record Bytes) →
        IsLean meaning s.counted s.count s.records →
        (came : List Triple) → AreNew (ready_for meaning s entry).count (loaded_one meaning s entry).count came →
        difference triple_cmp (union triple_cmp meaning (loaded_one meaning s entry).records) (union triple_cmp meaning s.records)
        ≡ sorted triple_cmp (difference triple_cmp (triples_at (own_of (ready_for meaning s entry).counted meaning) entry)
        (triples_of (own_of (ready_for meaning s entry).counted meaning) s.records entry.0) ++ came) }
    ensures removes { (meaning : Meaning Triple) (s : LeanState) (entry : EntityId × Record Bytes) →
        IsLean meaning s.counted s.count s.records →
        (gone : List Triple) → AreNew (loaded_one meaning s entry).count (ready_for meaning s entry).count gone →
        difference triple_cmp (union triple_cmp meaning s.records) (union triple_cmp meaning (loaded_one meaning s entry).records)
        ≡ sorted triple_cmp (difference triple_cmp (triples_of (own_of (ready_for meaning s entry).counted meaning) s.records entry.0)
        (triples_at (own_of (ready_for meaning s entry).counted meaning) entry) ++ gone) }
    ensures records { (meaning : Meaning Triple) (s : LeanState) (entries : List (EntityId × Record Bytes)) →
        (loaded_from meaning s entries).records
        ≡ fold (λ (records : Records) (entry : EntityId × Record Bytes). insert records entry.0 entry.1) s.records entries }
    ensures any_order { (meaning : Meaning Triple) (records : Records) (entries : List (EntityId × Record Bytes)) → HasKeysOnce entries →
        ((x : EntityId) → find entity_cmp x entries ≡ get records x) → (loaded meaning entries).records ≡ records }
    ensures counted { (meaning : Meaning Triple) (s : LeanState) (entries : List (EntityId × Record Bytes)) (x : EntityId) →
        has entity_cmp x (loaded_from meaning s entries).counted
        ≡ (has entity_cmp x s.counted || list_any (λ entry. has entity_cmp x (strangers entry.0 (triples_at meaning entry))) entries) }
{}
