// Why a follower stopped.

ghost use Rattle.std.specs.Prelude.{◌≡◌};
ghost use Rattle.following.specs.{Stop.stop_of_record, declared.stop.FollowStop.TheVariants.OutOfMemory as FollowOutOfMemory};

use rdf_term::OutOfMemory;
use replica::{PatchFault, ReplicaFault};
use text_output::Unwritten;
use wq_io::LineFault;

/// Why a line of records is refused.
#[derive(Clone, Copy, PartialEq, Eq)]
pub enum RecordCause {
    /// The line has more than 134,217,728 bytes.
    LineLong,
    /// A record has to begin here, and the line is no first line of one.
    Head,
    /// A triple has to stand here, and the line isn't the canonical text of one with fit and short terms.
    Triple,
    /// The triple isn't greater than the one before it in its part, or stands in both parts.
    Order,
    /// The input ends inside a record.
    Short,
}

/// Why a follower stopped.
#[derive(Clone, Copy, PartialEq, Eq)]
pub enum FollowStop {
    /// The line with this number, from 1, is refused.
    BadLine(u64, RecordCause),
    /// The input could not be read.
    ReadFault,
    /// The output could not be written.
    WriteFault,
    /// The input has more bytes than it may have.
    TooLong,
    /// There is no room for the terms of a record that is due.
    StoreFull,
    /// A request for memory was refused.
    OutOfMemory,
}

impl From<OutOfMemory> for FollowStop {
    ghost from_gives = { λ _ stop. stop ≡ FollowOutOfMemory };

    fn from(_refused: OutOfMemory) -> FollowStop {
        FollowStop::OutOfMemory
    }
}

impl From<LineFault> for FollowStop {
    ghost use Rattle.std.specs.Prelude.{◌≡◌};
    ghost use Rattle.following.specs.Stop.{stop_of_line};

    ghost from_gives = { λ fault stop. stop ≡ stop_of_line fault };

    fn from(fault: LineFault) -> FollowStop {
        match fault {
            LineFault::ReadFault => FollowStop::ReadFault,
            LineFault::TooLong => FollowStop::TooLong,
            LineFault::LineLong(number) => FollowStop::BadLine(number, RecordCause::LineLong),
            LineFault::OutOfMemory => FollowStop::OutOfMemory,
        }
    }
}

impl From<ReplicaFault> for FollowStop {
    ghost use Rattle.std.specs.Prelude.{◌≡◌};
    ghost use Rattle.following.specs.Stop.{stop_of_store};

    ghost from_gives = { λ fault stop. stop ≡ stop_of_store fault };

    fn from(fault: ReplicaFault) -> FollowStop {
        match fault {
            ReplicaFault::Full => FollowStop::StoreFull,
            ReplicaFault::OutOfMemory => FollowStop::OutOfMemory,
        }
    }
}

impl From<Unwritten> for FollowStop {
    ghost use Rattle.std.specs.Prelude.{◌≡◌};
    ghost use Rattle.following.specs.Stop.{stop_of_unwritten};

    ghost from_gives = { λ why stop. stop ≡ stop_of_unwritten why };

    fn from(why: Unwritten) -> FollowStop {
        match why {
            Unwritten::WriteFault => FollowStop::WriteFault,
            Unwritten::OutOfMemory => FollowStop::OutOfMemory,
        }
    }
}

impl FollowStop {
    // Why a follower stopped at the line with this number, which the reader of records refused.
    pub fn at_line(number: u64, fault: PatchFault) -> FollowStop
        ensures { result ≡ stop_of_record number fault }
    {
        match fault {
            PatchFault::Head => FollowStop::BadLine(number, RecordCause::Head),
            PatchFault::Triple => FollowStop::BadLine(number, RecordCause::Triple),
            PatchFault::Order => FollowStop::BadLine(number, RecordCause::Order),
            PatchFault::OutOfMemory => FollowStop::OutOfMemory,
        }
    }
}
