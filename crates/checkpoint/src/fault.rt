// Why nothing was loaded.

ghost use Rattle.std.specs.Prelude.{◌≡◌};
ghost use Rattle.checkpoint.specs.{Fault.fault_of, declared.fault.LoadFault.TheVariants.OutOfMemory as LoadOutOfMemory};

use rdf_term::OutOfMemory;
use thiserror::Error;
use wq_io::LineFault;

/// Why no world was loaded.
#[derive(Clone, Copy, Debug, Error)]
pub enum LoadFault {
    /// The source failed.
    #[error("read fault")]
    ReadFault,
    /// The file has more than 1,099,511,627,776 bytes.
    #[error("snapshot too long")]
    TooLong,
    /// The line with this number, counted from 1, may not come there, has more than 67,108,864 bytes, or is the last one and lacks its line
    /// feed. If the lines end too early, the number is one more than that of the last line.
    #[error("snapshot: line {0}")]
    BadLine(u64),
    /// What is stored of the pages' triples has more distinct terms than the limit. A world that isn't lean stores them all.
    #[error("the store is full")]
    Full,
    /// A request for memory was refused.
    #[error("out of memory")]
    OutOfMemory,
}

impl From<LineFault> for LoadFault {
    ghost from_gives = { λ fault e. e ≡ fault_of fault };

    fn from(fault: LineFault) -> LoadFault {
        match fault {
            LineFault::ReadFault => LoadFault::ReadFault,
            LineFault::TooLong => LoadFault::TooLong,
            LineFault::LineLong(number) => LoadFault::BadLine(number),
            LineFault::OutOfMemory => LoadFault::OutOfMemory,
        }
    }
}

impl From<OutOfMemory> for LoadFault {
    ghost from_gives = { λ _ e. e ≡ LoadOutOfMemory };

    fn from(_refused: OutOfMemory) -> LoadFault {
        LoadFault::OutOfMemory
    }
}
