// The laws of pages beside a store of what they share.

ghost use Rattle.std.specs.Prelude.{◌≡◌, ◌≢◌, ℕ, ◌+◌, ◌<◌, ◌&&◌, ◌||◌, not, true, false, Some, List, [], ◌++◌};
ghost use Rattle.std.specs.{FinMap.FinMap, FinMap.contains_key, FinMap.empty, FinMap.insert, FinMap.keys, Ordering.eq_by_cmp};
ghost use Rattle.sorted_sets.specs.{Counting.one_if, Rising.difference, Rising.has, Rising.sorted};
ghost use Rattle.rdf_term.specs.{declared.triple.Triple.Triple, Order.triple_cmp};
ghost use Rattle.entity_model.specs.{declared.id.EntityId.EntityId, EntityId.entity_cmp};
ghost use Rattle.entity_state.specs.declared.record.Record.{Record};
ghost use Rattle.replay_model.specs.{Records.Bytes, Records.Records, Union.Meaning, Union.triples_held, Union.union};
ghost use Rattle.shared_triples.specs.Home.{home_of};
ghost use Rattle.shared_triples.specs.Lean.{AreCounted, AreNew, Exchanges, IsLean, OthersHoldAlike, count_in, is_present, own_of, stored_of, strangers, triples_of};

/// A triple is in the union exactly where it has a count or stands in the page of the entity that it belongs to, which isn't counted. A
/// triple that belongs to an entity that isn't counted has no count, and no other entity's page has it.
pub fn pages_and_counts_give_the_union()
    ensures present { (meaning : Meaning Triple) (counted : List EntityId) (count : Triple → ℕ) (records : Records) →
        IsLean meaning counted count records →
        (t : Triple) → has triple_cmp t (union triple_cmp meaning records) ≡ is_present meaning counted count records t }
    ensures alone { (meaning : Meaning Triple) (counted : List EntityId) (count : Triple → ℕ) (records : Records) →
        IsLean meaning counted count records →
        (t : Triple) (x : EntityId) → home_of t ≡ Some x → has entity_cmp x counted ≡ false → count t ≡ 0 }
    ensures no_other { (meaning : Meaning Triple) (counted : List EntityId) (count : Triple → ℕ) (records : Records) →
        IsLean meaning counted count records →
        (t : Triple) (x y : EntityId) → home_of t ≡ Some x → has entity_cmp x counted ≡ false → y ≢ x →
        has triple_cmp t (triples_of meaning records y) ≡ false }
{}

/// Where what x holds, or what it means, changes and all others hold the same, the union gains what the page of x gains of its own triples
/// and the triples that have a count then and had none, and loses the same the other way round. No triple is in both parts, so that the
/// record of the change is the two parts merged. A store that keeps a count of each stored triple, and none of 0, tells the second part by
/// the keys that it has then and hadn't.
pub fn pages_and_counts_tell_the_change()
    ensures gained { (x : EntityId) (counted : List EntityId) (m n : Meaning Triple) (p q : Triple → ℕ) (before after : Records) →
        IsLean m counted p before → IsLean n counted q after → OthersHoldAlike x m before n after → (came : List Triple) →
        AreNew p q came → (t : Triple) →
        has triple_cmp t (difference triple_cmp (union triple_cmp n after) (union triple_cmp m before))
        ≡ (has triple_cmp t (difference triple_cmp (triples_of (own_of counted n) after x) (triples_of (own_of counted m) before x))
        || has triple_cmp t came) }
    ensures lost { (x : EntityId) (counted : List EntityId) (m n : Meaning Triple) (p q : Triple → ℕ) (before after : Records) →
        IsLean m counted p before → IsLean n counted q after → OthersHoldAlike x m before n after → (gone : List Triple) →
        AreNew q p gone → (t : Triple) →
        has triple_cmp t (difference triple_cmp (union triple_cmp m before) (union triple_cmp n after))
        ≡ (has triple_cmp t (difference triple_cmp (triples_of (own_of counted m) before x) (triples_of (own_of counted n) after x))
        || has triple_cmp t gone) }
    ensures gained_once { (x : EntityId) (counted : List EntityId) (m n : Meaning Triple) (p q : Triple → ℕ) (before after : Records) →
        IsLean m counted p before → IsLean n counted q after → OthersHoldAlike x m before n after → (came : List Triple) →
        AreNew p q came → (t : Triple) →
        has triple_cmp t (difference triple_cmp (triples_of (own_of counted n) after x) (triples_of (own_of counted m) before x)) ≡ true →
        has triple_cmp t came ≡ false }
    ensures lost_once { (x : EntityId) (counted : List EntityId) (m n : Meaning Triple) (p q : Triple → ℕ) (before after : Records) →
        IsLean m counted p before → IsLean n counted q after → OthersHoldAlike x m before n after → (gone : List Triple) →
        AreNew q p gone → (t : Triple) →
        has triple_cmp t (difference triple_cmp (triples_of (own_of counted m) before x) (triples_of (own_of counted n) after x)) ≡ true →
        has triple_cmp t gone ≡ false }
    ensures told { (counted : List EntityId) (m n : Meaning Triple) (p q : Triple → ℕ) (before after : Records) →
        IsLean m counted p before → IsLean n counted q after →
        AreNew p q (difference triple_cmp (union triple_cmp (stored_of counted n) after) (union triple_cmp (stored_of counted m) before)) }
    ensures told_by_keys { (old new : FinMap triple_cmp ℕ) →
        ((t : Triple) → contains_key old t ≡ true → 0 < count_in old t) → ((t : Triple) → contains_key new t ≡ true → 0 < count_in new t) →
        AreNew (count_in old) (count_in new) (difference triple_cmp (keys new) (keys old)) }
    ensures adds { (x : EntityId) (counted : List EntityId) (m n : Meaning Triple) (p q : Triple → ℕ) (before after : Records) →
        IsLean m counted p before → IsLean n counted q after → OthersHoldAlike x m before n after → (came : List Triple) → AreNew p q came →
        difference triple_cmp (union triple_cmp n after) (union triple_cmp m before)
        ≡ sorted triple_cmp (difference triple_cmp (triples_of (own_of counted n) after x) (triples_of (own_of counted m) before x) ++ came) }
    ensures removes { (x : EntityId) (counted : List EntityId) (m n : Meaning Triple) (p q : Triple → ℕ) (before after : Records) →
        IsLean m counted p before → IsLean n counted q after → OthersHoldAlike x m before n after → (gone : List Triple) → AreNew q p gone →
        difference triple_cmp (union triple_cmp m before) (union triple_cmp n after)
        ≡ sorted triple_cmp (difference triple_cmp (triples_of (own_of counted m) before x) (triples_of (own_of counted n) after x) ++ gone) }
{}

/// The counts stay in step: without pages none has a count; where x is counted in, the triples of its page that stood there alone have one
/// owner more; where it is counted out, as may be done once no other page has a triple that belongs to it, they have one less; and where
/// the record of x is put in, what is stored of its page comes in the place of what was, if all other entities that the page names are
/// counted. The meaning of the page of x may change then, and no other.
pub fn counts_stay_in_step()
    ensures start { (meaning : Meaning Triple) (counted : List EntityId) → IsLean meaning counted (λ t. 0) empty }
    ensures count_in { (meaning : Meaning Triple) (counted counted_after : List EntityId) (x : EntityId) →
        ((y : EntityId) → has entity_cmp y counted_after ≡ (eq_by_cmp entity_cmp y x || has entity_cmp y counted)) →
        (count count_after : Triple → ℕ) (records : Records) → IsLean meaning counted count records →
        ((t : Triple) → count_after t ≡ count t + one_if (has triple_cmp t (triples_of (own_of counted meaning) records x))) →
        IsLean meaning counted_after count_after records }
    ensures count_out { (meaning : Meaning Triple) (counted counted_after : List EntityId) (x : EntityId) →
        has entity_cmp x counted ≡ true →
        ((y : EntityId) → has entity_cmp y counted_after ≡ (not (eq_by_cmp entity_cmp y x) && has entity_cmp y counted)) →
        (count count_after : Triple → ℕ) (records : Records) → IsLean meaning counted count records →
        ((y : EntityId) → has entity_cmp x (strangers y (triples_of meaning records y)) ≡ false) →
        ((t : Triple) → count_after t + one_if (has triple_cmp t (triples_of (own_of counted_after meaning) records x)) ≡ count t) →
        IsLean meaning counted_after count_after records }
    ensures put_in { (m n : Meaning Triple) (x : EntityId) → ((y : EntityId) → y ≢ x → (rev : ℕ) (bytes : Bytes) →
        n y rev bytes ≡ m y rev bytes) →
        (records : Records) (r : Record Bytes) (counted : List EntityId) (count count_after : Triple → ℕ) → IsLean m counted count records →
        AreCounted counted (strangers x (triples_held n x r.held)) →
        Exchanges count count_after (triples_of (stored_of counted m) records x) (triples_held (stored_of counted n) x r.held) →
        IsLean n counted count_after (insert records x r) }
    ensures alike { (m n : Meaning Triple) (x : EntityId) → ((y : EntityId) → y ≢ x → (rev : ℕ) (bytes : Bytes) →
        n y rev bytes ≡ m y rev bytes) →
        (records : Records) (r : Record Bytes) → OthersHoldAlike x m records n (insert records x r) }
    ensures remap { (m n : Meaning Triple) (x : EntityId) → ((y : EntityId) → y ≢ x → (rev : ℕ) (bytes : Bytes) →
        n y rev bytes ≡ m y rev bytes) →
        (records : Records) (counted : List EntityId) (count count_after : Triple → ℕ) → IsLean m counted count records →
        AreCounted counted (strangers x (triples_of n records x)) →
        Exchanges count count_after (triples_of (stored_of counted m) records x) (triples_of (stored_of counted n) records x) →
        IsLean n counted count_after records }
    ensures alike_remapped { (m n : Meaning Triple) (x : EntityId) → ((y : EntityId) → y ≢ x → (rev : ℕ) (bytes : Bytes) →
        n y rev bytes ≡ m y rev bytes) →
        (records : Records) → OthersHoldAlike x m records n records }
{}
