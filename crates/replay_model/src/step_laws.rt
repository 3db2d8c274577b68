// The laws of a replay that takes each delivery as it comes.

ghost use Rattle.std.specs.Prelude.{◌≡◌, ℕ, ◌+◌, [], ◌∷◌, ◌++◌, List, Option, None};
ghost use Rattle.rdf_term.specs.declared.triple.Triple.{Triple};
ghost use Rattle.delivery.specs.declared.Delivery.{Delivery};
ghost use Rattle.entity_model.specs.declared.mapping.MappingVersion.{MappingVersion};
ghost use Rattle.reorder_buffer.specs.Buffered.{first_due};
ghost use Rattle.replay_model.specs.Acceptance.{mapping_of, version_in_force};
ghost use Rattle.replay_model.specs.Play.{Replies, fetches, fetches_to_end, risen_by};
ghost use Rattle.replay_model.specs.ReplayState.{ReplayState, nothing_delivered_within, after_end, after_next, after_due, delivered, ended, following, following_to_end, fetches_next, fetches_due, fetches_delivered};
ghost use Rattle.replay_model.specs.{Transcript.said, Transcript.said_at, Union.Meaning};

/// A replay that takes each delivery as it comes, with a horizon or none, has, after each and after the end, the state that the whole list
/// gives, and no event is due in it.
pub fn replay_follows_deliveries()
    ensures start { (h : Option ℕ) (replies : Replies) → following h replies [] ≡ nothing_delivered_within h }
    ensures each_delivery { (h : Option ℕ) (replies : Replies) (ds : List Delivery) (d : Delivery) →
        following h replies (ds ++ d ∷ []) ≡ delivered replies (following h replies ds) d }
    ensures the_end { (h : Option ℕ) (replies : Replies) (ds : List Delivery) →
        following_to_end h replies ds ≡ ended replies (following h replies ds) }
    ensures nothing_due { (h : Option ℕ) (replies : Replies) (ds : List Delivery) → first_due (following h replies ds).buffer ≡ None }
{}

/// To apply all due events is to apply the least one until none is left.
pub fn due_events_one_by_one()
    ensures next { (replies : Replies) (w : ReplayState) → after_due replies (after_next replies w) ≡ after_due replies w }
    ensures none_left { (replies : Replies) (w : ReplayState) → first_due w.buffer ≡ None → after_due replies w ≡ w }
{}

/// The fetches of a replay are those of its deliveries, and these are those of its due events, one after the other;
/// a count in 64 bits rises by them as by their number.
pub fn fetches_one_by_one()
    ensures each_delivery { (h : Option ℕ) (replies : Replies) (ds : List Delivery) (d : Delivery) →
        fetches h replies (ds ++ d ∷ []) ≡ fetches h replies ds ++ fetches_delivered replies (following h replies ds) d }
    ensures the_end { (h : Option ℕ) (replies : Replies) (ds : List Delivery) →
        fetches_to_end h replies ds ≡ fetches h replies ds ++ fetches_due replies (after_end (following h replies ds)) }
    ensures next { (replies : Replies) (w : ReplayState) →
        fetches_due replies w ≡ fetches_next w ++ fetches_due replies (after_next replies w) }
    ensures none_left { (replies : Replies) (w : ReplayState) → first_due w.buffer ≡ None → fetches_due replies w ≡ [] }
    ensures risen { (m n count : ℕ) → risen_by m (risen_by n count) ≡ risen_by (n + m) count }
{}

/// What is printed at a list of deliveries is what was printed before the last and what is printed at it.
pub fn output_grows_by_deliveries()
    ensures { (h : Option ℕ) (meaning : MappingVersion → Meaning Triple) (replies : Replies) (ds : List Delivery) (d : Delivery) →
        said meaning h replies (ds ++ d ∷ []) ≡ said meaning h replies ds ++ said_at meaning h replies (record { before = ds; delivery = d }) }
{}

/// The first version of the mapping is in force before the first delivery, a delivery that brings a version puts it in force,
/// and any other leaves the version in force as it is.
pub fn version_follows_deliveries()
    ensures start { version_in_force [] ≡ MappingVersion.One }
    ensures mapping { (ds : List Delivery) (v : MappingVersion) → version_in_force (ds ++ Delivery.Mapping v ∷ []) ≡ v }
    ensures others { (ds : List Delivery) (d : Delivery) → mapping_of d ≡ None → version_in_force (ds ++ d ∷ []) ≡ version_in_force ds }
{}
