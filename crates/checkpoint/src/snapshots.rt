// Where snapshots are kept.

ghost use Rattle.std.specs.Prelude.{◌≡◌, ℕ, ◌≤◌, List, Option, IfSome, MatchResult};
ghost use Rattle.wq_io.specs.Streams.{Rose, after_known};
ghost use Rattle.checkpoint.specs.Keeping.{nothing_written, with_written};

use text_output::Unwritten;

/// Where snapshots are kept, one after the other: each is begun, written, and then kept whole.
pub trait Snapshots {
    // the bytes of each snapshot that was kept, in their order, where they are told; whether they are told never changes
    ghost kept: { Self → Option (List (List ℕ)) };

    // the bytes of the snapshot that is being written, where they are told
    ghost written: { Self → Option (List ℕ) };

    // how many calls failed, as far as 64 bits count them
    ghost faults: { Self → ℕ };

    // the most calls that ever fail, where it is told; calls don't change it
    ghost most_faults: { Self → Option ℕ };

    /// Begins a snapshot, of which nothing is written yet.
    fn begin(&mut self) -> Result<(), Unwritten>
        ensures outcome { MatchResult result (λ _. written self.new ≡ nothing_written (kept self.old)) (λ why. why ≡ Unwritten.WriteFault → Rose (faults self.old) (faults self.new)) }
        ensures same { kept self.new ≡ kept self.old }
        ensures later { faults self.old ≤ faults self.new }
        ensures most { most_faults self.new ≡ most_faults self.old };

    /// Writes all of the bytes, after those that were already written of the snapshot.
    fn write(&mut self, bytes: &[u8]) -> Result<(), Unwritten>
        ensures outcome { MatchResult result (λ _. written self.new ≡ after_known (written self.old) bytes.now) (λ why. why ≡ Unwritten.WriteFault → Rose (faults self.old) (faults self.new)) }
        ensures same { kept self.new ≡ kept self.old }
        ensures later { faults self.old ≤ faults self.new }
        ensures most { most_faults self.new ≡ most_faults self.old };

    /// Keeps the snapshot that was written. After a fault it isn't kept, and those that were kept before stay as they were.
    fn keep(&mut self) -> Result<(), Unwritten>
        ensures outcome { MatchResult result (λ _. kept self.new ≡ with_written (kept self.old) (written self.old))
            (λ why. (kept self.new ≡ kept self.old) × (why ≡ Unwritten.WriteFault → Rose (faults self.old) (faults self.new))) }
        ensures later { faults self.old ≤ faults self.new }
        ensures most { most_faults self.new ≡ most_faults self.old };

    /// Discards what was written and isn't kept.
    fn discard(&mut self)
        ensures same { kept self.new ≡ kept self.old }
        ensures quiet { faults self.new ≡ faults self.old }
        ensures most { most_faults self.new ≡ most_faults self.old };

    ghost within_most: { (s : Self) → IfSome (most_faults s) (λ most. faults s ≤ most) };
}
