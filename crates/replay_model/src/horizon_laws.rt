// The laws of the horizon: what it changes, and what a buffer with one answers.

ghost use Rattle.std.specs.Prelude.{◌≡◌, ℕ, ℤ, Bool, not, ◌&&◌, cond, List, [], ◌∷◌, ◌++◌, Option, None, filter, is_none};
ghost use Rattle.sorted_sets.specs.Rising.{has};
ghost use Rattle.entity_model.specs.{declared.event.Event.Event, Event.event_cmp};
ghost use Rattle.delivery.specs.declared.Delivery.{Delivery};
ghost use Rattle.reorder_buffer.specs.declared.taken.Taken.TheVariants.{New, Repeat, Late};
ghost use Rattle.reorder_buffer.specs.Buffered.{Buffered, nothing_taken_within, answer_to, after_taking, after_raising, after_closing, after_dropping};
ghost use Rattle.reorder_buffer.specs.Watermarks.{floor, is_below};
ghost use Rattle.replay_model.specs.Acceptance.{accepted, due, events, is_late, is_repeat, known, late, mark};
ghost use Rattle.replay_model.specs.{Entries.late_event, Play.Replies, Play.fetches, Play.fetches_to_end, Play.played};
ghost use Rattle.replay_model.specs.ReplayState.{HasTakenIn, following};

/// A horizon changes late entries alone: the accepted events are those without one, and so are the records, from which
/// states, answers and export are made. The known events are the late and the due ones, whatever the horizon. The entries that
/// aren't late and the fetches, each in their order, are those without a horizon too.
pub fn horizon_leaves_records()
    ensures accepted { (h : Option ℕ) (ds : List Delivery) → accepted h ds ≡ accepted None ds }
    ensures records { (h : Option ℕ) (closed : Bool) (replies : Replies) (ds : List Delivery) →
        (played h closed replies ds).records ≡ (played None closed replies ds).records }
    ensures known { (h : Option ℕ) (closed : Bool) (ds : List Delivery) (e : Event) →
        has event_cmp e (known closed ds) ≡ has event_cmp e (late h ds ++ due h closed ds) }
    ensures entries { (h : Option ℕ) (closed : Bool) (replies : Replies) (ds : List Delivery) →
        filter (λ entry. is_none (late_event entry)) (played h closed replies ds).side
        ≡ filter (λ entry. is_none (late_event entry)) (played None closed replies ds).side }
    ensures fetches { (h : Option ℕ) (replies : Replies) (ds : List Delivery) → fetches h replies ds ≡ fetches None replies ds }
    ensures fetches_to_end { (h : Option ℕ) (replies : Replies) (ds : List Delivery) →
        fetches_to_end h replies ds ≡ fetches_to_end None replies ds }
{}

/// Over any deliveries, a buffer keeps exactly the delivered events that aren't below the floor, and answers to each event
/// whether its delivery is a repeat, late or accepted.
pub fn buffer_answers_by_deliveries()
    ensures kept { (h : Option ℕ) (replies : Replies) (ds : List Delivery) (e : Event) →
        has event_cmp e (following h replies ds).buffer.kept ≡ (not (is_below (floor h (mark ds)) e.time) && has event_cmp e (events ds)) }
    ensures answers { (h : Option ℕ) (replies : Replies) (ds : List Delivery) (e : Event) →
        answer_to (following h replies ds).buffer e ≡ cond (is_repeat h ds e) Repeat (cond (is_late h ds e) Late New) }
{}

/// Whatever calls a buffer has had, in whatever order, with drops or without, closed or not, it keeps exactly the taken events
/// that aren't below the floor, and answers to each event whether its delivery is a repeat, late or accepted.
pub fn buffer_answers_by_calls()
    ensures start { (h : Option ℕ) → HasTakenIn h [] (nothing_taken_within h) }
    ensures take { (h : Option ℕ) (ds : List Delivery) (b : Buffered) (e : Event) →
        HasTakenIn h ds b → HasTakenIn h (ds ++ Delivery.Event e ∷ []) (after_taking b e) }
    ensures raise { (h : Option ℕ) (ds : List Delivery) (b : Buffered) (w : ℤ) →
        HasTakenIn h ds b → HasTakenIn h (ds ++ Delivery.Watermark w ∷ []) (after_raising b w) }
    ensures close { (h : Option ℕ) (ds : List Delivery) (b : Buffered) → HasTakenIn h ds b → HasTakenIn h ds (after_closing b) }
    ensures drop { (h : Option ℕ) (ds : List Delivery) (b : Buffered) → HasTakenIn h ds b → HasTakenIn h ds (after_dropping b) }
    ensures answers { (h : Option ℕ) (ds : List Delivery) (b : Buffered) (e : Event) →
        HasTakenIn h ds b → answer_to b e ≡ cond (is_repeat h ds e) Repeat (cond (is_late h ds e) Late New) }
{}
