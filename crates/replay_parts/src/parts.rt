// The laws of a replay that is split by entity.

ghost use Rattle.std.specs.Prelude.{◌≡◌, ◌↔◌, ℕ, Bool, true, false, not, ◌||◌, List, [], ◌∷◌, ◌++◌, Option, cond, None, flat_map, sum_by, count_by, ◌<◌};
ghost use Rattle.std.specs.{Cmp.IsTotalOrder, FinMap.get, FinMap.IsAntisymmetric, List.list_any, declared.cmp.Ordering.Ordering};
ghost use Rattle.sorted_sets.specs.Rising.{has};
ghost use Rattle.rdf_term.specs.{declared.pattern.Pattern.Pattern, declared.triple.Triple.Triple, Order.triple_cmp};
ghost use Rattle.delivery.specs.declared.Delivery.{Delivery};
ghost use Rattle.entity_model.specs.{declared.id.EntityId.EntityId, declared.mapping.MappingVersion.MappingVersion};
ghost use Rattle.entity_state.specs.Record.{blank};
ghost use Rattle.entity_state.specs.{declared.entry.Entry.Entry, Entry.entity_of};
ghost use Rattle.replay_model.specs.Acceptance.{Arrival, arrivals, mark, version_in_force};
ghost use Rattle.replay_model.specs.{Entries.is_open_in, Play.Fetch, Play.Replies, Play.fetches, Play.fetches_to_end, Play.played};
ghost use Rattle.replay_model.specs.{Records.Records, Records.record_of, ReplayState.following, ReplayState.following_to_end};
ghost use Rattle.replay_model.specs.Transcript.{Sections, asks, matches, said, said_at, transcript};
ghost use Rattle.replay_model.specs.Union.{Meaning, owners, union};
ghost use Rattle.replay_parts.specs.Parts.{AgreeOnPart, IsPartition, Part, closing_together, is_in_part, merged, numbered_parts, part_of_fetches, part_of_played, part_of_records, part_of_side, part_of_state, parts_modulo, records_together, replies_of_parts, routed, rows_played, rows_together, said_together, union_played, union_together};

/// A replay of the deliveries that go to a part is the part of the replay of all deliveries: of the events that are kept or wait, of the
/// records, of the side output and of the fetches it has those of its entities, in their order, and its entries are open where the
/// whole's are. The mark, the version in force and the numbers of questions are those of the whole. A part may be replied to by another
/// source, as long as this one replies alike to the events of its entities.
pub fn replay_of_a_part_is_the_part_of_a_replay()
    ensures state { (contains : EntityId → Bool) (own replies : Replies) → AgreeOnPart contains own replies → (h : Option ℕ) (ds : List Delivery) →
        following h own (routed contains ds) ≡ part_of_state contains (following h replies ds) }
    ensures the_end { (contains : EntityId → Bool) (own replies : Replies) → AgreeOnPart contains own replies → (h : Option ℕ) (ds : List Delivery) →
        following_to_end h own (routed contains ds) ≡ part_of_state contains (following_to_end h replies ds) }
    ensures played { (contains : EntityId → Bool) (own replies : Replies) → AgreeOnPart contains own replies → (h : Option ℕ) (closed : Bool) (ds : List Delivery) →
        played h closed own (routed contains ds) ≡ part_of_played contains (played h closed replies ds) }
    ensures record { (contains : EntityId → Bool) (own replies : Replies) → AgreeOnPart contains own replies → (h : Option ℕ) (closed : Bool) (ds : List Delivery) (x : EntityId) →
        record_of (played h closed own (routed contains ds)).records x ≡ cond (contains x) (record_of (played h closed replies ds).records x) blank }
    ensures entry { (contains : EntityId → Bool) (own replies : Replies) → AgreeOnPart contains own replies → (h : Option ℕ) (closed : Bool) (ds : List Delivery) (x : EntityId) →
        get (played h closed own (routed contains ds)).records x ≡ cond (contains x) (get (played h closed replies ds).records x) None }
    ensures side { (contains : EntityId → Bool) (own replies : Replies) → AgreeOnPart contains own replies → (h : Option ℕ) (closed : Bool) (ds : List Delivery) →
        (played h closed own (routed contains ds)).side ≡ part_of_side contains (played h closed replies ds).side }
    ensures open { (contains : EntityId → Bool) (own replies : Replies) → AgreeOnPart contains own replies → (h : Option ℕ) (closed : Bool) (ds : List Delivery) (entry : Entry) →
        contains (entity_of entry) ≡ true →
        is_open_in (played h closed own (routed contains ds)).records entry ≡ is_open_in (played h closed replies ds).records entry }
    ensures fetches { (contains : EntityId → Bool) (own replies : Replies) → AgreeOnPart contains own replies → (h : Option ℕ) (ds : List Delivery) →
        fetches h own (routed contains ds) ≡ part_of_fetches contains (fetches h replies ds) }
    ensures fetches_to_end { (contains : EntityId → Bool) (own replies : Replies) → AgreeOnPart contains own replies → (h : Option ℕ) (ds : List Delivery) →
        fetches_to_end h own (routed contains ds) ≡ part_of_fetches contains (fetches_to_end h replies ds) }
    ensures mark { (contains : EntityId → Bool) (ds : List Delivery) → mark (routed contains ds) ≡ mark ds }
    ensures version { (contains : EntityId → Bool) (ds : List Delivery) → version_in_force (routed contains ds) ≡ version_in_force ds }
    ensures asked { (contains : EntityId → Bool) (ds : List Delivery) → asks (routed contains ds) ≡ asks ds }
    ensures matched { (contains : EntityId → Bool) (ds : List Delivery) → matches (routed contains ds) ≡ matches ds }
{}

/// A part answers at the questions of the whole, with their numbers, from the deliveries that went to it before; at the other deliveries it
/// prints nothing.
pub fn part_answers_where_the_whole_does()
    ensures { (meaning : MappingVersion → Meaning Triple) (contains : EntityId → Bool) (own : Replies) (h : Option ℕ) (ds : List Delivery) →
        said meaning h own (routed contains ds)
        ≡ flat_map (λ (a : Arrival). said_at meaning h own (record { before = routed contains a.before; delivery = a.delivery })) (arrivals ds) }
{}

/// The union of all records is made of the unions of parts that cover all entities: a triple is in the whole's exactly where it is in
/// one part's, and the parts' unions, merged, are the whole's. Where each entity is in exactly one part, a triple has as many owners as
/// it has in all parts. Two parts may share a triple, so the parts' triples may be more than the whole's.
pub fn union_is_made_of_the_parts<Triple>()
    ensures has { (order : Triple → Triple → Ordering) (meaning : Meaning Triple) → IsTotalOrder order → (records : Records) (parts : List (EntityId → Bool)) →
        ((x : EntityId) → list_any (λ (contains : EntityId → Bool). contains x) parts ≡ true) → (t : Triple) →
        has order t (union order meaning records) ≡ list_any (λ contains. has order t (union order meaning (part_of_records contains records))) parts }
    ensures union { (order : Triple → Triple → Ordering) (meaning : Meaning Triple) → IsTotalOrder order → IsAntisymmetric order → (records : Records) (parts : List (EntityId → Bool)) →
        ((x : EntityId) → list_any (λ (contains : EntityId → Bool). contains x) parts ≡ true) →
        union order meaning records ≡ merged order (λ contains. union order meaning (part_of_records contains records)) parts }
    ensures owners { (order : Triple → Triple → Ordering) (meaning : Meaning Triple) → IsTotalOrder order → (records : Records) (parts : List (EntityId → Bool)) →
        ((x : EntityId) → count_by (λ (contains : EntityId → Bool). contains x) parts ≡ 1) → (t : Triple) →
        owners order meaning records t ≡ sum_by (λ contains. owners order meaning (part_of_records contains records) t) parts }
    ensures two { (order : Triple → Triple → Ordering) (meaning : Meaning Triple) → IsTotalOrder order → (records : Records) (contains : EntityId → Bool) (t : Triple) →
        has order t (union order meaning records)
        ≡ (has order t (union order meaning (part_of_records contains records)) || has order t (union order meaning (part_of_records (λ x. not (contains x)) records))) }
    ensures numbered { (order : Triple → Triple → Ordering) (meaning : Meaning Triple) → IsTotalOrder order → (records : Records) (number : EntityId → ℕ) (t : Triple) →
        (has order t (union order meaning records) ≡ true)
        ↔ ((k : ℕ) × (has order t (union order meaning (part_of_records (is_in_part number k) records)) ≡ true)) }
{}

/// The parts of a partition together print what one replay of all deliveries prints: the rows of each ask, merged and counted again, are
/// its answer, the bindings over the parts' triples together are the answer to a match, and the triples and records after the end are its
/// export and its states. So together they print what it prints, but for the side output, which comes in the order of the parts.
pub fn parts_together_print_what_the_whole_prints()
    ensures rows { (meaning : MappingVersion → Meaning Triple) (replies : Replies) (parts : List Part) → IsPartition replies parts →
        (h : Option ℕ) (before : List Delivery) (pattern : Pattern) →
        rows_played meaning h replies before pattern ≡ rows_together meaning h parts before pattern }
    ensures row { (meaning : MappingVersion → Meaning Triple) (replies : Replies) (parts : List Part) → IsPartition replies parts →
        (h : Option ℕ) (before : List Delivery) (pattern : Pattern) (t : Triple) →
        has triple_cmp t (rows_played meaning h replies before pattern)
        ≡ list_any (λ (part : Part). has triple_cmp t (rows_played meaning h part.replies (routed part.contains before) pattern)) parts }
    ensures union { (meaning : MappingVersion → Meaning Triple) (replies : Replies) (parts : List Part) → IsPartition replies parts →
        (h : Option ℕ) (closed : Bool) (ds : List Delivery) →
        union_played meaning h closed replies ds ≡ union_together meaning h closed parts ds }
    ensures triple { (meaning : MappingVersion → Meaning Triple) (replies : Replies) (parts : List Part) → IsPartition replies parts →
        (h : Option ℕ) (closed : Bool) (ds : List Delivery) (t : Triple) →
        has triple_cmp t (union_played meaning h closed replies ds)
        ≡ list_any (λ (part : Part). has triple_cmp t (union_played meaning h closed part.replies (routed part.contains ds))) parts }
    ensures said { (meaning : MappingVersion → Meaning Triple) (replies : Replies) (parts : List Part) → IsPartition replies parts →
        (h : Option ℕ) (ds : List Delivery) →
        said meaning h replies ds ≡ said_together meaning h parts ds }
    ensures all { (meaning : MappingVersion → Meaning Triple) (replies : Replies) (parts : List Part) → IsPartition replies parts →
        (h : Option ℕ) (sections : Sections) (ds : List Delivery) → sections.side ≡ false →
        transcript meaning h sections replies ds ≡ said_together meaning h parts ds ++ closing_together meaning h sections parts ds }
{}

/// The parts of a partition together have what the whole has: their records, put together, are its records, and of the entries and the
/// fetches that pass any test they have as many as it has.
pub fn parts_together_have_what_the_whole_has()
    ensures records { (replies : Replies) (parts : List Part) → IsPartition replies parts → (h : Option ℕ) (closed : Bool) (ds : List Delivery) →
        (played h closed replies ds).records ≡ records_together h closed parts ds }
    ensures side { (replies : Replies) (parts : List Part) → IsPartition replies parts → (h : Option ℕ) (closed : Bool) (ds : List Delivery) (test : Entry → Bool) →
        count_by test (played h closed replies ds).side
        ≡ sum_by (λ (part : Part). count_by test (played h closed part.replies (routed part.contains ds)).side) parts }
    ensures fetches { (replies : Replies) (parts : List Part) → IsPartition replies parts → (h : Option ℕ) (ds : List Delivery) (test : Fetch → Bool) →
        count_by test (fetches_to_end h replies ds)
        ≡ sum_by (λ (part : Part). count_by test (fetches_to_end h part.replies (routed part.contains ds))) parts }
{}

/// Three splits of the entities are partitions: a set of entities and all others, each replied to as the whole; the parts by a number of
/// each entity, whatever each of them is replied; and the parts by an entity's number modulo their count. If the numbers of the parts have
/// no greatest, a triple is still in the whole exactly if it is in some part.
pub fn splits_by_entity_are_partitions()
    ensures two { (replies : Replies) (contains : EntityId → Bool) →
        IsPartition replies (record { contains = contains; replies = replies } ∷ record { contains = λ x. not (contains x); replies = replies } ∷ []) }
    ensures numbered { (number : EntityId → ℕ) (replies_to : ℕ → Replies) (count : ℕ) → ((x : EntityId) → number x < count) →
        IsPartition (replies_of_parts number replies_to) (numbered_parts number replies_to count) }
    ensures modulo { (replies : Replies) (count : ℕ) → 0 < count → IsPartition replies (parts_modulo count replies) }
    ensures some_number { (meaning : MappingVersion → Meaning Triple) (number : EntityId → ℕ) (replies_to : ℕ → Replies) (h : Option ℕ) (closed : Bool) (ds : List Delivery) (t : Triple) →
        (has triple_cmp t (union_played meaning h closed (replies_of_parts number replies_to) ds) ≡ true)
        ↔ ((k : ℕ) × (has triple_cmp t (union_played meaning h closed (replies_to k) (routed (is_in_part number k) ds)) ≡ true)) }
{}
