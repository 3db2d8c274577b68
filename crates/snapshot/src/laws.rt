// Laws of the lines of a snapshot.

ghost use Rattle.std.specs.Prelude.{◌≡◌, ◌<◌, ◌^◌, IfSome, ℕ, ℤ, List, [], ◌++◌, Option, Some, None, filter, fold, length, take};
ghost use Rattle.wq_io.specs.Lines.{IsOneLine};
ghost use Rattle.sorted_sets.specs.Rising.{Each};
ghost use Rattle.std.specs.Str.{IsUtf8};
ghost use Rattle.entity_json.specs.Document.{unfit_of};
ghost use Rattle.entity_model.specs.{declared.id.EntityId.EntityId, EntityId.entity_cmp};
ghost use Rattle.delivery.specs.declared.Delivery.{Delivery};
ghost use Rattle.reorder_buffer.specs.Buffered.{Buffered, after_raising, after_taking, nothing_taken_within};
ghost use Rattle.replay_model.specs.{Acceptance.mark, Records.Bytes, Entries.HoldsUnlessOpen, Play.Played, Play.Replies, ReplayState.following};
ghost use Rattle.std.specs.FinMap as finite;
ghost use Rattle.entity_state.specs.declared.record.Record.{Record};
ghost use Rattle.snapshot.specs.{declared.line.Line.Line, Fit.AreFitCounts, Fit.IsFitLine, LineText.line_text, LineText.line_of};
ghost use Rattle.snapshot.specs.{Whole.Saved, Whole.lines_before_end, Whole.snapshot_lines, Whole.saved_in, Deliveries.IsFitDelivery};
ghost use Rattle.snapshot.specs.{File.IsFitSaved, File.file_text, File.saved_in_bytes, Waiting.IsAtRest, Waiting.at_mark, Waiting.not_reached};

/// The text of a line is one line, and is read as that line.
pub fn lines_read_back()
    ensures one_line { (line : Line) → IsOneLine (line_text line) }
    ensures reads_back { (line : Line) → IsFitLine line → line_of (line_text line) ≡ Some line }
{}

/// The lines of a snapshot, and their bytes, are read as what was saved. No shorter prefix of the lines or of the bytes is read as anything.
pub fn snapshots_read_back()
    ensures lines { (s : Saved) → IsAtRest s.state.buffer → saved_in (snapshot_lines s) ≡ Some s }
    ensures bytes { (s : Saved) → IsAtRest s.state.buffer → IsFitSaved s → saved_in_bytes (file_text s) ≡ Some s }
    ensures lines_cut { (s : Saved) (n : ℕ) → n < length (snapshot_lines s) → saved_in (take n (snapshot_lines s)) ≡ None }
    ensures bytes_cut { (s : Saved) (k : ℕ) → IsFitSaved s → k < length (file_text s) → saved_in_bytes (take k (file_text s)) ≡ None }
{}

/// The state after any deliveries can be saved; and the remembered events that wait are those that the mark hasn't reached, so that taking
/// them again makes its buffer.
pub fn replays_can_be_saved()
    ensures fits { (s : Saved) (h : Option ℕ) (replies : Replies) (ds : List Delivery) → s.state ≡ following h replies ds → AreFitCounts s.counts →
        IfSome h (λ n. n < 2 ^ 64) → Each IsFitDelivery ds → length (lines_before_end s) < 2 ^ 64 → IsFitSaved s }
    ensures waiting { (h : Option ℕ) (replies : Replies) (ds : List Delivery) →
        (following h replies ds).buffer.waiting ≡ filter (not_reached (mark ds)) (following h replies ds).buffer.kept }
    ensures at_rest { (h : Option ℕ) (replies : Replies) (ds : List Delivery) → IsAtRest (following h replies ds).buffer }
    ensures unmarked { (h : Option ℕ) → nothing_taken_within h ≡ at_mark h None [] }
    ensures marked { (h : Option ℕ) (m : ℤ) → after_raising (nothing_taken_within h) m ≡ at_mark h (Some m) [] }
    ensures taken_again { (b : Buffered) → IsAtRest b → fold after_taking (at_mark b.horizon b.mark []) b.kept ≡ b }
{}

/// While the records of a replay go in one after the other, behind its whole side output, each entity holds what its state wants exactly
/// where no open entry tells of it.
pub fn records_go_in_behind_entries()
    ensures { (p : Played) (done todo : List (EntityId × Record Bytes)) → HoldsUnlessOpen p → finite.entries p.records ≡ done ++ todo →
        HoldsUnlessOpen (record { records = finite.from_entries {R = entity_cmp} done; side = p.side }) }
{}

/// A page that is a document of an entity is UTF-8, so that a JSON string holds it.
pub fn documents_are_text()
    ensures { (x : EntityId) (bytes : List ℕ) → unfit_of x bytes ≡ None → IsUtf8 bytes }
{}
