// The laws of a replay over a source of revisions.

ghost use Rattle.std.specs.Prelude.{◌≡◌, ℕ, ◌+◌, cond, length, ℤ, Bool, true, Result, [], ◌∷◌, ◌++◌, List, Option, Some, None};
ghost use Rattle.sorted_sets.specs.Rising.{Each};
ghost use Rattle.entity_model.specs.{declared.event.Event.Event, declared.id.EntityId.EntityId};
ghost use Rattle.entity_model.specs.declared.mapping.MappingVersion.{MappingVersion};
ghost use Rattle.entity_state.specs.declared.entry.Cause.{Cause};
ghost use Rattle.delivery.specs.declared.Delivery.{Delivery};
ghost use Rattle.reorder_buffer.specs.Buffered.{first_due};
ghost use Rattle.replay_model.specs.{Records.Bytes, Records.record_of, Play.Replies, Play.Fetch, Play.played};
ghost use Rattle.replay_model.specs.Replies.{GivesDocument, Judgement, source_replies, failed_events, HoldsWhatIsThere, TellsWhatIsThere};
ghost use Rattle.replay_model.specs.ReplayState.{ReplayState, nothing_delivered_within, after_event, after_mark, after_end, after_applying, following, following_to_end};
ghost use Rattle.replay_model.specs.Transcript.{Question, asking};
ghost use Rattle.replay_model.specs.Explained.{Explained, ExplainedAfter, ExplainedToEnd, IsHonest, is_fetching, revision_wanted};

/// Over a source with told contents, an entity holds what the source has, which is a document of it, and each entry
/// says of a revision what is so: nothing is there, no document is there, or the fetch failed.
pub fn told_contents_are_held_and_named()
    ensures held { (unfit : Judgement) (contents : ℕ → Option Bytes) (failed : List Event) (h : Option ℕ) (closed : Bool) (ds : List Delivery) (x : EntityId) →
        HoldsWhatIsThere unfit contents x (record_of (played h closed (source_replies unfit contents failed) ds).records x).held }
    ensures entries { (unfit : Judgement) (contents : ℕ → Option Bytes) (failed : List Event) (h : Option ℕ) (closed : Bool) (ds : List Delivery) →
        Each (TellsWhatIsThere unfit contents failed) (played h closed (source_replies unfit contents failed) ds).side }
{}

/// A replay over a source is a play with some replies; where the contents are told, with those of the contents and of
/// the failed events that its side output names. It makes as many fetches as the play.
pub fn replay_over_source_is_a_play()
    ensures some_replies { (unfit : Judgement) (known : Option (ℕ → Option Bytes)) (play_of : Replies → ReplayState) (fetches_of : Replies → List Fetch) (made : ℕ) (w : ReplayState) →
        (explained : Explained unfit known play_of fetches_of made w) → first_due w.buffer ≡ None →
        (w ≡ play_of explained.replies) × (made ≡ length (fetches_of explained.replies)) }
    ensures source { (unfit : Judgement) (known : Option (ℕ → Option Bytes)) (play_of : Replies → ReplayState) (fetches_of : Replies → List Fetch) (made : ℕ) (w : ReplayState) →
        Explained unfit known play_of fetches_of made w → first_due w.buffer ≡ None →
        (contents : ℕ → Option Bytes) → known ≡ Some contents →
        (w ≡ play_of (source_replies unfit contents (failed_events w.played.side)))
        × (made ≡ length (fetches_of (source_replies unfit contents (failed_events w.played.side)))) }

    ensures start { (unfit : Judgement) (known : Option (ℕ → Option Bytes)) (h : Option ℕ) → ExplainedAfter h unfit known [] 0 (nothing_delivered_within h) }
    ensures event { (unfit : Judgement) (known : Option (ℕ → Option Bytes)) (h : Option ℕ) (ds : List Delivery) (made : ℕ) (w : ReplayState) →
        ExplainedAfter h unfit known ds made w → first_due w.buffer ≡ None →
        (e : Event) → ExplainedAfter h unfit known (ds ++ Delivery.Event e ∷ []) made (after_event w e) }
    ensures event_rests { (unfit : Judgement) (known : Option (ℕ → Option Bytes)) (h : Option ℕ) (ds : List Delivery) (made : ℕ) (w : ReplayState) →
        ExplainedAfter h unfit known ds made w → first_due w.buffer ≡ None →
        (e : Event) → first_due (after_event w e).buffer ≡ None }
    ensures watermark { (unfit : Judgement) (known : Option (ℕ → Option Bytes)) (h : Option ℕ) (ds : List Delivery) (made : ℕ) (w : ReplayState) →
        ExplainedAfter h unfit known ds made w → first_due w.buffer ≡ None →
        (m : ℤ) → ExplainedAfter h unfit known (ds ++ Delivery.Watermark m ∷ []) made (after_mark w m) }
    ensures ask { (unfit : Judgement) (known : Option (ℕ → Option Bytes)) (h : Option ℕ) (ds : List Delivery) (made : ℕ) (w : ReplayState) →
        ExplainedAfter h unfit known ds made w → first_due w.buffer ≡ None →
        (q : Question) → ExplainedAfter h unfit known (ds ++ asking q ∷ []) made w }
    ensures mapping { (unfit : Judgement) (known : Option (ℕ → Option Bytes)) (h : Option ℕ) (ds : List Delivery) (made : ℕ) (w : ReplayState) →
        ExplainedAfter h unfit known ds made w → first_due w.buffer ≡ None →
        (v : MappingVersion) → ExplainedAfter h unfit known (ds ++ Delivery.Mapping v ∷ []) made w }
    ensures the_end { (unfit : Judgement) (known : Option (ℕ → Option Bytes)) (h : Option ℕ) (ds : List Delivery) (made : ℕ) (w : ReplayState) →
        ExplainedAfter h unfit known ds made w → first_due w.buffer ≡ None → ExplainedToEnd h unfit known ds made (after_end w) }

    // One due event is applied, with any reply that gives a document or none where the contents aren't told.
    ensures next { (unfit : Judgement) (known : Option (ℕ → Option Bytes)) (play_of : Replies → ReplayState) (fetches_of : Replies → List Fetch) (made : ℕ) (w : ReplayState) (e : Event) (reply : Result Bytes Cause) →
        Explained unfit known play_of fetches_of made w → first_due w.buffer ≡ Some e →
        ((contents : ℕ → Option Bytes) → known ≡ Some contents → is_fetching w e ≡ true → IsHonest unfit contents e (revision_wanted w e) reply) →
        GivesDocument unfit e.entity reply →
        Explained unfit known play_of fetches_of (made + cond (is_fetching w e) 1 0) (after_applying (λ q r. reply) w (Some e)) }
{}
