// What holds of the stream of a replay. Each law is the contract of a function that does nothing.

ghost use Rattle.std.specs.Prelude.{◌≡◌, ◌+◌, ◌*◌, ◌<◌, ◌≤◌, ◌^◌, ℕ, false, is_some, length, List, [], Option};
ghost use Rattle.sorted_sets.specs.Rising.{In};
ghost use Rattle.rdf_term.specs.Order.{triple_cmp};
ghost use Rattle.delivery.specs.declared.Delivery.{Delivery};
ghost use Rattle.replay_model.specs.{Acceptance.version_in_force, Play.Replies, Play.play_to_end, Union.union};
ghost use Rattle.fetched_pages.specs.Meaning.{meaning};
ghost use Rattle.replica.specs.declared.record.PatchRecord.{PatchRecord};
ghost use Rattle.replica.specs.Replica.{Follows, ReplicaState, numbered};
ghost use Rattle.patch_stream.specs.Stream.{steps_to_end, stream};
ghost use Rattle.written_laws.specs.Laws.{AreOfStream, CanBeRead, IsChain};

/// Each step of a replay begins where the one before it ended: the first where nothing is stored, and the last ends at the triples of all
/// that is held at the end, by the version of the mapping that is in force then.
pub fn steps_of_a_play_are_a_chain()
    ensures { (h : Option ℕ) (replies : Replies) (ds : List Delivery) → IsChain [] (steps_to_end h replies ds) (union triple_cmp (meaning (version_in_force ds)) (play_to_end h replies ds).records) }
{}

/// A replica that received the records of a replay's stream, in any order, each of them once or more, has the triples of all that is held at
/// the end of the replay, once no record is due.
pub fn a_replica_of_a_stream_has_its_union()
    ensures { (h : Option ℕ) (replies : Replies) (ds : List Delivery) (items : List PatchRecord) (state : ReplicaState) →
        AreOfStream (steps_to_end h replies ds) items → Follows items state → is_some (numbered (state.applied + 1) items) ≡ false →
        state.triples ≡ union triple_cmp (meaning (version_in_force ds)) (play_to_end h replies ds).records }
{}

/// A replay of n deliveries makes at most n × n + n steps: each event is applied once at most, and each change of the mapping remaps no
/// more pages than events were applied.
pub fn steps_of_a_play_are_few()
    ensures { (h : Option ℕ) (replies : Replies) (ds : List Delivery) → length (steps_to_end h replies ds) ≤ length ds * length ds + length ds }
{}

/// So the number of each record of a stream fits 64 bits where the number of deliveries fits 32 bits.
pub fn numbers_of_records_fit()
    ensures { (h : Option ℕ) (replies : Replies) (ds : List Delivery) (item : PatchRecord) → length ds < 2 ^ 32 → In item (stream (steps_to_end h replies ds)) → item.number < 2 ^ 64 }
{}

/// The texts of a stream's records can be read, each record with its number and its triples, where the number of deliveries fits 32 bits.
pub fn records_of_a_stream_can_be_read()
    ensures { (h : Option ℕ) (replies : Replies) (ds : List Delivery) → length ds < 2 ^ 32 → CanBeRead (steps_to_end h replies ds) }
{}
