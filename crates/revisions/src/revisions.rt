// The trait of the outside for revisions.

ghost use Rattle.std.specs.Prelude.{◌≡◌, ℕ, ◌≤◌, Option, Some, IfSome, IfErr, MatchResult};
ghost use Rattle.revisions.specs.Revisions.{Contents, AgreesWith, HasCause, counted};

use std::alloc::Global;
use thiserror::Error;

/// Why a fetch gave no bytes.
#[derive(Clone, Copy, Debug, PartialEq, Eq, Error)]
pub enum NoRevision {
    /// Nothing is there.
    #[error("no such revision")]
    Missing,
    /// The call failed.
    #[error("the fetch failed")]
    Failed,
    /// A request for memory was refused.
    #[error("out of memory")]
    OutOfMemory,
}

/// A source of the pages' revisions.
pub trait Revisions {
    // what is at each place and revision, where it is told; whether it is told never changes, nor do calls change it
    ghost contents: { Self → Option Contents };

    // how many calls were made, failed, and found nothing, as far as 64 bits count them
    ghost calls: { Self → ℕ };

    ghost faults: { Self → ℕ };

    ghost misses: { Self → ℕ };

    // the most calls that ever fail, where it is told; calls don't change it
    ghost most_faults: { Self → Option ℕ };

    /// The bytes of revision `rev` in the folder `place`. `Missing` says that nothing is there, `Failed` that the call to the outside failed,
    /// and `OutOfMemory` that a request for memory was refused.
    fn fetch(&mut self, alloc: Global, place: &str, rev: u64) -> Result<Vec<u8>, NoRevision>
        ensures told { contents self.new ≡ contents self.old }
        ensures called { calls self.new ≡ counted (calls self.old) }
        ensures bytes { IfSome (contents self.old) (λ there.
            MatchResult result (λ v. there place.now rev ≡ Some v.items) (λ e. AgreesWith e (there place.now rev))) }
        ensures cause { IfErr result (λ e.
            HasCause e (misses self.old) (misses self.new) (faults self.old) (faults self.new)) }
        ensures more_faults { faults self.old ≤ faults self.new }
        ensures more_misses { misses self.old ≤ misses self.new }
        ensures most { most_faults self.new ≡ most_faults self.old };

    ghost within_most: { (s : Self) → IfSome (most_faults s) (λ most. faults s ≤ most) };
}
