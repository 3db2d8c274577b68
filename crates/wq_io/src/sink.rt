// What bytes are written to.

ghost use Rattle.std.specs.Prelude.{◌≡◌, ℕ, ◌<◌, ◌≤◌, Bool, false, List, Option, Ok, length, IfOk, IfErr, IfSome};
ghost use Rattle.wq_io.specs.{Streams.WritePuts, Streams.Rose, declared.sink.NoWrite.TheVariants.Failed as CallFailed};

use thiserror::Error;

/// Why a write took nothing.
#[derive(Clone, Copy, Debug, PartialEq, Eq, Error)]
pub enum NoWrite {
    /// The call failed.
    #[error("the call failed")]
    Failed,
    /// A request for memory was refused.
    #[error("out of memory")]
    OutOfMemory,
}

/// What bytes are written to.
pub trait Sink {
    // the bytes held, where they are told; whether they are told never changes
    ghost held: { Self → Option (List ℕ) };

    // whether bytes were taken that no `flush` has handed on to the outside
    ghost waits: { Self → Bool };

    // how many calls failed, as far as 64 bits count them
    ghost faults: { Self → ℕ };

    // the most calls that ever fail, where it is told; calls don't change it
    ghost most_faults: { Self → Option ℕ };

    /// Takes bytes from the front of `bytes`, at least one, and answers their number; they may reach the outside with the next `flush` only.
    /// After a fault none was taken: `Failed` says that the call to the outside failed, and `OutOfMemory` that a request for memory was
    /// refused.
    fn write(&mut self, bytes: &[u8]) -> Result<usize, NoWrite>
        requires { 0 < length bytes.now }
        ensures bound { IfOk result (λ n. (0 < n) × (n ≤ length bytes.now)) }
        ensures bytes { WritePuts (held self.old) (held self.new) result bytes.now }
        ensures later { faults self.old ≤ faults self.new }
        ensures cause { IfErr result (λ e. e ≡ CallFailed → Rose (faults self.old) (faults self.new)) }
        ensures most { most_faults self.new ≡ most_faults self.old };

    /// Hands all bytes that were taken on to the outside: none waits after Ok. A sink that tells its bytes has none to hand on.
    fn flush(&mut self) -> Result<(), NoWrite>
        ensures handed { IfOk result (λ _. waits self.new ≡ false) }
        ensures told { IfSome (held self.old) (λ _. result ≡ Ok tt) }
        ensures bytes { held self.new ≡ held self.old }
        ensures later { faults self.old ≤ faults self.new }
        ensures cause { IfErr result (λ e. e ≡ CallFailed → Rose (faults self.old) (faults self.new)) }
        ensures most { most_faults self.new ≡ most_faults self.old };

    ghost told_at_once: { (s : Self) → IfSome (held s) (λ _. waits s ≡ false) };

    ghost within_most: { (s : Self) → IfSome (most_faults s) (λ most. faults s ≤ most) };
}
