// Why a pool takes no term.

use thiserror::Error;

/// Why a term isn't taken.
#[derive(Clone, Copy, Debug, PartialEq, Eq, Error)]
pub enum PoolFault {
    /// The limit on distinct terms is reached.
    #[error("the pool is full")]
    Full,
    /// A request for memory was refused, or the term has 2^48 - 1 uses, the most that are counted.
    #[error("out of memory")]
    OutOfMemory,
}
