// The laws of the union and its owners.

ghost use Rattle.std.specs.Prelude.{◌≡◌, ◌+◌, ℕ, List, Option, true, false, nat_lt};
ghost use Rattle.std.specs.{Cmp.IsTotalOrder, declared.cmp.Ordering.Ordering, FinMap.insert};
ghost use Rattle.sorted_sets.specs.Rising.{has, difference, IsRising};
ghost use Rattle.delivery.specs.declared.Delivery.{Delivery};
ghost use Rattle.entity_model.specs.{declared.event.Event.Event, declared.id.EntityId.EntityId};
ghost use Rattle.entity_model.specs.{declared.mapping.MappingVersion.MappingVersion, Event.event_cmp};
ghost use Rattle.entity_state.specs.declared.record.Record.{Record};
ghost use Rattle.replay_model.specs.{Acceptance.accepted, Acceptance.version_in_force, Play.Replies, Play.play_to_end};
ghost use Rattle.replay_model.specs.Records.{Bytes, Records, record_of};
ghost use Rattle.replay_model.specs.Union.{Meaning, triples_held, union, owners};

/// When a record is put in, a triple that its entity gains has one owner more, one that it loses has one less, and
/// every other has as many as before.
pub fn owners_change_by_one<Triple>()
    ensures gained { (order : Triple → Triple → Ordering) (meaning : Meaning Triple) → IsTotalOrder order →
        (records : Records) (x : EntityId) (r : Record Bytes) (t : Triple) →
        has order t (difference order (triples_held meaning x r.held) (triples_held meaning x (record_of records x).held)) ≡ true →
        owners order meaning (insert records x r) t ≡ owners order meaning records t + 1 }
    ensures lost { (order : Triple → Triple → Ordering) (meaning : Meaning Triple) → IsTotalOrder order →
        (records : Records) (x : EntityId) (r : Record Bytes) (t : Triple) →
        has order t (difference order (triples_held meaning x (record_of records x).held) (triples_held meaning x r.held)) ≡ true →
        owners order meaning (insert records x r) t + 1 ≡ owners order meaning records t }
    ensures kept { (order : Triple → Triple → Ordering) (meaning : Meaning Triple) → IsTotalOrder order →
        (records : Records) (x : EntityId) (r : Record Bytes) (t : Triple) →
        has order t (difference order (triples_held meaning x r.held) (triples_held meaning x (record_of records x).held)) ≡ false →
        has order t (difference order (triples_held meaning x (record_of records x).held) (triples_held meaning x r.held)) ≡ false →
        owners order meaning (insert records x r) t ≡ owners order meaning records t }
{}

/// The union has exactly the triples that have an owner, each once, in rising order.
pub fn union_is_what_has_owners<Triple>()
    ensures owned { (order : Triple → Triple → Ordering) (meaning : Meaning Triple) → IsTotalOrder order →
        (records : Records) (t : Triple) →
        has order t (union order meaning records) ≡ nat_lt 0 (owners order meaning records t) }
    ensures rising { (order : Triple → Triple → Ordering) (meaning : Meaning Triple) → IsTotalOrder order →
        (records : Records) → IsRising order (union order meaning records) }
{}

/// Two closed lists of deliveries with the same accepted events and the same version of the mapping in force at their end
/// give the same union and the same owners, wherever their watermarks and changes of the version stand.
pub fn same_events_and_version_give_same_union<Triple>()
    ensures union { (order : Triple → Triple → Ordering) (meaning : MappingVersion → Meaning Triple) (h : Option ℕ) (replies : Replies) (ds es : List Delivery) →
        ((e : Event) → has event_cmp e (accepted h ds) ≡ has event_cmp e (accepted h es)) →
        version_in_force ds ≡ version_in_force es →
        union order (meaning (version_in_force ds)) (play_to_end h replies ds).records
        ≡ union order (meaning (version_in_force es)) (play_to_end h replies es).records }
    ensures owners { (order : Triple → Triple → Ordering) (meaning : MappingVersion → Meaning Triple) (h : Option ℕ) (replies : Replies) (ds es : List Delivery) →
        ((e : Event) → has event_cmp e (accepted h ds) ≡ has event_cmp e (accepted h es)) →
        version_in_force ds ≡ version_in_force es →
        (t : Triple) →
        owners order (meaning (version_in_force ds)) (play_to_end h replies ds).records t
        ≡ owners order (meaning (version_in_force es)) (play_to_end h replies es).records t }
{}
