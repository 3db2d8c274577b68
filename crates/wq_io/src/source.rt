// What bytes are read from.

ghost use Rattle.std.specs.Prelude.{◌≡◌, ℕ, ◌<◌, ◌≤◌, List, Option, length, IfOk, IfSome, OnErr};
ghost use Rattle.wq_io.specs.Streams.{LastRead, ReadTakes, Rose, after_read, given_by};

use thiserror::Error;

/// A call to the outside failed.
#[derive(Clone, Copy, Debug, PartialEq, Eq, Error)]
#[error("the call failed")]
pub struct Failed;

/// What bytes are read from.
pub trait Source {
    // the bytes left, where they are told; whether they are told never changes
    ghost left: { Self → Option (List ℕ) };

    // the last call of `read`, where it is told; whether it is told never changes
    ghost last: { Self → Option LastRead };

    // how many calls failed, as far as 64 bits count them
    ghost faults: { Self → ℕ };

    // the most calls that ever fail, where it is told; calls don't change it
    ghost most_faults: { Self → Option ℕ };

    /// Moves bytes into the front of `buf` and answers their number; 0 is the end. `Failed` says that the call to the outside failed; no byte
    /// was moved then.
    fn read(&mut self, buf: &mut [u8]) -> Result<usize, Failed>
        requires { 0 < length buf.old }
        ensures bound { IfOk result (λ n. n ≤ length buf.new) }
        ensures bytes { ReadTakes (left self.old) (left self.new) result buf.new }
        ensures last { last self.new ≡ after_read (length buf.old) (given_by result) (last self.old) }
        ensures later { faults self.old ≤ faults self.new }
        ensures cause { OnErr result (Rose (faults self.old) (faults self.new)) }
        ensures most { most_faults self.new ≡ most_faults self.old };

    ghost within_most: { (s : Self) → IfSome (most_faults s) (λ most. faults s ≤ most) };
}
