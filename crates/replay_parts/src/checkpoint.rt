// The laws of a replay that goes on from where one stopped.

ghost use Rattle.std.specs.Prelude.{◌≡◌, ℕ, [], ◌++◌, List, Option, fold};
ghost use Rattle.rdf_term.specs.declared.triple.Triple.{Triple};
ghost use Rattle.delivery.specs.declared.Delivery.{Delivery};
ghost use Rattle.entity_model.specs.declared.mapping.MappingVersion.{MappingVersion};
ghost use Rattle.replay_model.specs.{Acceptance.mark, Play.Replies, Play.fetches, Play.fetches_to_end};
ghost use Rattle.replay_model.specs.ReplayState.{delivered, ended, following, following_to_end};
ghost use Rattle.replay_model.specs.{Transcript.Sections, Transcript.said, Transcript.transcript, Union.Meaning};
ghost use Rattle.replay_parts.specs.Checkpoint.{advanced_by, checkpoint, checkpoint_at_start, fetches_from, fetches_to_end_from, replies_of_runs, said_from, transcript_from};

/// A replay goes on from a checkpoint: where two lists of deliveries lead is where the second leads from the checkpoint after the first,
/// one delivery after the other.
pub fn replay_goes_on_from_a_checkpoint()
    ensures start { (h : Option ℕ) (replies : Replies) → checkpoint h replies [] ≡ checkpoint_at_start h }
    ensures state { (h : Option ℕ) (replies : Replies) (a b : List Delivery) →
        following h replies (a ++ b) ≡ fold (delivered replies) (following h replies a) b }
    ensures the_end { (h : Option ℕ) (replies : Replies) (a b : List Delivery) →
        following_to_end h replies (a ++ b) ≡ ended replies (fold (delivered replies) (following h replies a) b) }
    ensures all { (h : Option ℕ) (replies : Replies) (a b : List Delivery) →
        checkpoint h replies (a ++ b) ≡ advanced_by replies (checkpoint h replies a) b }
{}

/// What is printed at two lists of deliveries is what is printed at the first, and then what the second prints from the checkpoint: of
/// the first, nothing but the checkpoint counts. The same holds of all that is printed, with the sections after the end, and of the
/// fetches.
pub fn output_goes_on_from_a_checkpoint()
    ensures said { (h : Option ℕ) (meaning : MappingVersion → Meaning Triple) (replies : Replies) (a b : List Delivery) →
        said meaning h replies (a ++ b) ≡ said meaning h replies a ++ said_from meaning replies (checkpoint h replies a) b }
    ensures all { (h : Option ℕ) (meaning : MappingVersion → Meaning Triple) (sections : Sections) (replies : Replies) (a b : List Delivery) →
        transcript meaning h sections replies (a ++ b)
        ≡ said meaning h replies a ++ transcript_from meaning sections replies (checkpoint h replies a) b }
    ensures fetches { (h : Option ℕ) (replies : Replies) (a b : List Delivery) →
        fetches h replies (a ++ b) ≡ fetches h replies a ++ fetches_from replies (following h replies a) b }
    ensures fetches_to_end { (h : Option ℕ) (replies : Replies) (a b : List Delivery) →
        fetches_to_end h replies (a ++ b) ≡ fetches h replies a ++ fetches_to_end_from replies (following h replies a) b }
{}

/// A run that stops and a second one that goes on from its checkpoint are one run, even where the second's fetches give other replies:
/// the one whose replies are the first's to events that the mark had reached at the stop, and the second's to all others.
pub fn two_runs_are_one()
    ensures checkpoint { (h : Option ℕ) (first second : Replies) (a b : List Delivery) →
        checkpoint h (replies_of_runs (mark a) first second) (a ++ b) ≡ advanced_by second (checkpoint h first a) b }
    ensures the_end { (h : Option ℕ) (first second : Replies) (a b : List Delivery) →
        following_to_end h (replies_of_runs (mark a) first second) (a ++ b) ≡ ended second (advanced_by second (checkpoint h first a) b).state }
    ensures said { (h : Option ℕ) (meaning : MappingVersion → Meaning Triple) (first second : Replies) (a b : List Delivery) →
        said meaning h (replies_of_runs (mark a) first second) (a ++ b) ≡ said meaning h first a ++ said_from meaning second (checkpoint h first a) b }
    ensures all { (h : Option ℕ) (meaning : MappingVersion → Meaning Triple) (sections : Sections) (first second : Replies) (a b : List Delivery) →
        transcript meaning h sections (replies_of_runs (mark a) first second) (a ++ b)
        ≡ said meaning h first a ++ transcript_from meaning sections second (checkpoint h first a) b }
{}
