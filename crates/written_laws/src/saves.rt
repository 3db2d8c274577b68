// What holds of what is saved and loaded. The law is the contract of a function that does nothing.

ghost use Rattle.std.specs.Prelude.{◌≡◌, ◌≢◌, ℕ, List, ◌<◌, [], Some, length, take};
ghost use Rattle.fetched_pages.specs.Meaning.{meaning};
ghost use Rattle.holders.specs.Roomed.{room_with};
ghost use Rattle.world.specs.{Limit.Limit, Limit.stored_by, WorldState.WorldState};
ghost use Rattle.snapshot.specs.{File.IsFitSaved, File.file_text, File.saved_in_bytes, Waiting.IsAtRest, Whole.Saved, declared.counts.Counts.Counts as TheCounts};
ghost use Rattle.checkpoint.specs.{Causes.IsFileOverfull, Causes.IsNoSnapshot, Loading.IsLoadable, Saved.saved_of, Saved.world_of};
ghost use Rattle.replay_model.specs.Versions.{all_by, meaning_by};

use snapshot::snapshots_read_back;

/// No line of what was written is refused or missing, if the world is one that a replay may have between two lines; and a line lacks room
/// only if what is stored of the world's triples does. So a loading of these bytes ends with Ok if they can be read and are no more than a file may have, and
/// there is room and memory.
pub fn no_line_of_a_saved_world_is_refused()
    ensures lines { (w : WorldState) (counts : TheCounts) (n : ℕ) → IsLoadable w counts → ¬ (IsNoSnapshot (file_text (saved_of w counts)) n) }
    ensures room { (w : WorldState) (counts : TheCounts) (room : Limit) → IsLoadable w counts → IsFileOverfull room (file_text (saved_of w counts)) →
        room.terms < room_with (stored_by room.lean (meaning_by meaning w.by_two) w.replay.played.records) w.replay.played.records [] }
{}

/// Of the bytes of a file that is no snapshot, one line is refused: the first one that may not come. So two loadings that refuse a line name
/// the same one.
pub fn one_line_is_refused()
    ensures { (bytes : List ℕ) (m n : ℕ) → IsNoSnapshot bytes m → IsNoSnapshot bytes n → m ≡ n }
{}

/// What is read of the bytes that were written of a world gives this world back, with the counts, where its buffer rests and every page
/// is mapped by the version in force; so a loading of these bytes with the same limit answers with this world. Of a shorter prefix of the
/// bytes nothing is read.
pub fn a_saved_world_is_loaded_as_it_was()
    ensures back { (w : WorldState) (counts : TheCounts) (s : Saved) → IsAtRest w.replay.buffer → IsFitSaved (saved_of w counts) →
        w.by_two ≡ all_by w.mapping w.replay.played.records → saved_in_bytes (file_text (saved_of w counts)) ≡ Some s →
        (world_of w.limit s ≡ w) × (s.counts ≡ counts) }
    ensures cut { (w : WorldState) (counts : TheCounts) (k : ℕ) (s : Saved) → IsFitSaved (saved_of w counts) →
        k < length (file_text (saved_of w counts)) → saved_in_bytes (take k (file_text (saved_of w counts))) ≢ Some s }
{
    snapshots_read_back();
}
