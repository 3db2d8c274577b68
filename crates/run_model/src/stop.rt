// Why a run stopped.

ghost use Rattle.std.specs.Prelude.{◌≡◌, Some};
ghost use Rattle.run_model.specs.{Stop.cause_of_record, Stop.stop_of, declared.stop.Stop.TheVariants.OutOfMemory as StopOutOfMemory};

use crate::status::Status;
use checkpoint::LoadFault;
use event_line::LineCause;
use following::{FollowStop, RecordCause};
use rdf_term::OutOfMemory;
use text_output::Unwritten;
use triple_store::StoreFault;
use wq_io::LineFault;

/// At which step a delivery stopped.
#[derive(Clone, Copy, PartialEq, Eq)]
pub enum Halt {
    /// The least due event wasn't applied, and stays due; or a page wasn't remapped.
    Unapplied(StoreFault),
    /// The last event that was applied, or the last remapped page, wasn't printed wholly.
    Unprinted(Unwritten),
}

/// Why a run stopped that was begun, or that was to go on from a snapshot.
#[derive(Clone, Copy, PartialEq, Eq)]
pub enum Stop {
    /// The line with this number, from 1, is refused.
    BadLine(u64, LineCause),
    /// The input, or the snapshot to go on from, could not be read.
    ReadFault,
    /// The output, or the snapshot, could not be written.
    WriteFault,
    /// The input, or the snapshot to go on from, has more bytes than it may have.
    TooLong,
    /// There is no room for the terms of a page, of a record, or of the snapshot to go on from.
    StoreFull,
    /// A request for memory was refused.
    OutOfMemory,
    /// The line of the snapshot with this number, from 1, is refused.
    BadSnapshot(u64),
}

impl From<OutOfMemory> for Halt {
    ghost use Rattle.std.specs.Prelude.{◌≡◌};
    ghost use Rattle.run_model.specs.declared.stop.Halt.TheVariants.{Unapplied};
    ghost use Rattle.term_pool.specs.declared.fault.PoolFault.TheVariants.{OutOfMemory as PoolOutOfMemory};

    ghost from_gives = { λ _ halt. halt ≡ Unapplied PoolOutOfMemory };

    fn from(_refused: OutOfMemory) -> Halt {
        Halt::Unapplied(StoreFault::OutOfMemory)
    }
}

impl From<OutOfMemory> for Stop {
    ghost from_gives = { λ _ stop. stop ≡ StopOutOfMemory };

    fn from(_refused: OutOfMemory) -> Stop {
        Stop::OutOfMemory
    }
}

impl From<Unwritten> for Stop {
    ghost use Rattle.std.specs.Prelude.{◌≡◌};
    ghost use Rattle.run_model.specs.Stop.{stop_of_unwritten};

    ghost from_gives = { λ why stop. stop ≡ stop_of_unwritten why };

    fn from(why: Unwritten) -> Stop {
        match why {
            Unwritten::WriteFault => Stop::WriteFault,
            Unwritten::OutOfMemory => Stop::OutOfMemory,
        }
    }
}

impl From<StoreFault> for Stop {
    ghost use Rattle.std.specs.Prelude.{◌≡◌};
    ghost use Rattle.run_model.specs.Stop.{stop_of_unapplied};

    ghost from_gives = { λ why stop. stop ≡ stop_of_unapplied why };

    fn from(why: StoreFault) -> Stop {
        match why {
            StoreFault::Full => Stop::StoreFull,
            StoreFault::OutOfMemory => Stop::OutOfMemory,
        }
    }
}

impl From<Halt> for Stop {
    ghost use Rattle.std.specs.Prelude.{◌≡◌};
    ghost use Rattle.run_model.specs.Stop.{stop_of_halt};

    ghost from_gives = { λ halt stop. stop ≡ stop_of_halt halt };

    fn from(halt: Halt) -> Stop {
        match halt {
            Halt::Unapplied(why) => Stop::from(why),
            Halt::Unprinted(why) => Stop::from(why),
        }
    }
}

impl From<LineFault> for Stop {
    ghost use Rattle.std.specs.Prelude.{◌≡◌};
    ghost use Rattle.run_model.specs.Stop.{stop_of_fault};

    ghost from_gives = { λ fault stop. stop ≡ stop_of_fault fault };

    fn from(fault: LineFault) -> Stop {
        match fault {
            LineFault::ReadFault => Stop::ReadFault,
            LineFault::TooLong => Stop::TooLong,
            LineFault::LineLong(number) => Stop::BadLine(number, LineCause::LineLong),
            LineFault::OutOfMemory => Stop::OutOfMemory,
        }
    }
}

impl From<FollowStop> for Stop {
    ghost use Rattle.std.specs.Prelude.{◌≡◌};
    ghost use Rattle.run_model.specs.Stop.{stop_of_follow};

    ghost from_gives = { λ why stop. stop ≡ stop_of_follow why };

    fn from(why: FollowStop) -> Stop {
        match why {
            FollowStop::BadLine(number, cause) => Stop::BadLine(number, cause_of_record(cause)),
            FollowStop::ReadFault => Stop::ReadFault,
            FollowStop::WriteFault => Stop::WriteFault,
            FollowStop::TooLong => Stop::TooLong,
            FollowStop::StoreFull => Stop::StoreFull,
            FollowStop::OutOfMemory => Stop::OutOfMemory,
        }
    }
}

impl From<LoadFault> for Stop {
    ghost use Rattle.std.specs.Prelude.{◌≡◌};
    ghost use Rattle.run_model.specs.Stop.{stop_of_load};

    ghost from_gives = { λ fault stop. stop ≡ stop_of_load fault };

    fn from(fault: LoadFault) -> Stop {
        match fault {
            LoadFault::ReadFault => Stop::ReadFault,
            LoadFault::TooLong => Stop::TooLong,
            LoadFault::BadLine(number) => Stop::BadSnapshot(number),
            LoadFault::Full => Stop::StoreFull,
            LoadFault::OutOfMemory => Stop::OutOfMemory,
        }
    }
}

// Why a line of records is refused, as a cause of a line.
fn cause_of_record(cause: RecordCause) -> LineCause
    ensures { result ≡ cause_of_record cause }
{
    match cause {
        RecordCause::LineLong => LineCause::LineLong,
        RecordCause::Head => LineCause::Head,
        RecordCause::Triple => LineCause::Triple,
        RecordCause::Order => LineCause::Order,
        RecordCause::Short => LineCause::Short,
    }
}

impl Stop {
    // The status of a run that stopped so.
    pub fn status(self) -> Status
        ensures stops { stop_of result ≡ Some self }
        ensures refused { self ≡ Stop.OutOfMemory → result ≡ Status.OutOfMemory }
    {
        match self {
            Stop::BadLine(number, cause) => Status::BadLine(number, cause),
            Stop::ReadFault => Status::ReadFault,
            Stop::WriteFault => Status::WriteFault,
            Stop::TooLong => Status::TooLong,
            Stop::StoreFull => Status::StoreFull,
            Stop::OutOfMemory => Status::OutOfMemory,
            Stop::BadSnapshot(number) => Status::BadSnapshot(number),
        }
    }
}
