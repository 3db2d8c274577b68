// The laws of states, entries and records. Each is the contract of a function that does nothing.

ghost use Rattle.std.specs.Prelude.{◌≡◌, ℕ, Bool, true, false, not, List, ◌∷◌, ◌++◌, Option, None};
ghost use Rattle.std.specs.List.{list_any};
ghost use Rattle.sorted_sets.specs.Rising.{has};
ghost use Rattle.entity_model.specs.{declared.event.Event.Event, declared.id.EntityId.EntityId, Event.event_cmp};
ghost use Rattle.entity_state.specs.{State.is_kept, Standing.is_reconciliation};
ghost use Rattle.entity_state.specs.declared.entry.Entry.{Entry};
ghost use Rattle.delivery.specs.declared.Delivery.{Delivery};
ghost use Rattle.replay_model.specs.Acceptance.{accepted, late, due, known};
ghost use Rattle.replay_model.specs.Entries.{HoldsUnlessOpen, late_events, is_later, is_open_by, is_open_late, has_open_revision};
ghost use Rattle.replay_model.specs.Fate.{fate, events_of, in_order};
ghost use Rattle.replay_model.specs.Play.{Played, Replies, apply, nothing_played, played, play_to_end};
ghost use Rattle.replay_model.specs.Records.{record_of, is_settled};

/// After each delivery and after the end, the state of each entity is the fate of its due events in their order.
pub fn state_is_fate()
    ensures { (h : Option ℕ) (closed : Bool) (replies : Replies) (ds : List Delivery) (x : EntityId) →
        (record_of (played h closed replies ds).records x).state ≡ fate (in_order (events_of x (due h closed ds))) }
{}

/// After each delivery and after the end, the late entries are the events of the late deliveries, one for each, in the
/// order of these.
pub fn late_entries_are_late_events()
    ensures { (h : Option ℕ) (closed : Bool) (replies : Replies) (ds : List Delivery) →
        late_events (played h closed replies ds).side ≡ late h ds }
{}

/// After each delivery and after the end, an entity holds what its state wants exactly where no revision entry of it
/// is open, and a page that isn't kept holds nothing. It is so before the first delivery, and an application with any
/// reply and each further entry keep it.
pub fn settled_unless_open()
    ensures settled { (h : Option ℕ) (closed : Bool) (replies : Replies) (ds : List Delivery) (x : EntityId) →
        is_settled (record_of (played h closed replies ds).records x)
        ≡ not (has_open_revision (played h closed replies ds).records (played h closed replies ds).side x) }
    ensures empty { (h : Option ℕ) (closed : Bool) (replies : Replies) (ds : List Delivery) (x : EntityId) →
        is_kept (record_of (played h closed replies ds).records x).state.mode ≡ false →
        (record_of (played h closed replies ds).records x).held ≡ None }
    ensures start { HoldsUnlessOpen nothing_played }
    ensures application { (replies : Replies) (p : Played) (e : Event) → HoldsUnlessOpen p → HoldsUnlessOpen (apply replies p e) }
    ensures entries { (p : Played) (more : List Entry) → HoldsUnlessOpen p →
        HoldsUnlessOpen (record { records = p.records; side = p.side ++ more }) }
{}

/// Two closed lists of deliveries with the same accepted events give the same records, wherever their watermarks stand.
pub fn same_events_give_same_records()
    ensures { (h : Option ℕ) (replies : Replies) (ds es : List Delivery) →
        ((e : Event) → has event_cmp e (accepted h ds) ≡ has event_cmp e (accepted h es)) →
        (play_to_end h replies ds).records ≡ (play_to_end h replies es).records }
{}

/// A reconciliation makes the events before it irrelevant: they may be left out, and others added.
pub fn reconciliation_forgets()
    ensures left_out { (before after : List Event) (r : Event) → is_reconciliation r.kind ≡ true →
        fate (before ++ r ∷ after) ≡ fate (r ∷ after) }
    ensures added { (e : Event) (es : List Event) → list_any (is_later e) es ≡ true →
        fate (in_order (e ∷ es)) ≡ fate (in_order es) }
{}

/// Where no late event of an entity is open, its state is also the fate of all its known events, late ones included.
pub fn state_is_fate_of_known()
    ensures { (h : Option ℕ) (closed : Bool) (replies : Replies) (ds : List Delivery) (x : EntityId) →
        list_any (is_open_late (due h closed ds)) (events_of x (late h ds)) ≡ false →
        (record_of (played h closed replies ds).records x).state ≡ fate (in_order (events_of x (known closed ds))) }
{}

/// A late event is open, as none of the due events settles it, exactly where its entry is open by the record of its
/// entity.
pub fn open_late_by_record()
    ensures { (h : Option ℕ) (closed : Bool) (replies : Replies) (ds : List Delivery) (e : Event) →
        is_open_late (due h closed ds) e
        ≡ is_open_by (record_of (played h closed replies ds).records e.entity) (Entry.Late e) }
{}
