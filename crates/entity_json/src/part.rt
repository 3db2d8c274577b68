// Why a part of a page isn't read.

ghost use Rattle.std.specs.Prelude.{◌≡◌, Option};
ghost use Rattle.entity_json.specs.Finds.{Finds, Makes};
ghost use Rattle.entity_json.specs.Reading.Steps.{put};
ghost use Rattle.entity_json.specs.declared.part.PartFault.TheVariants.{OutOfMemory as PartOutOfMemory};

use base::{List, OutOfMemory};
use std::alloc::{AllocError, AllocFailed};

/// Why a page, or a part of one, isn't read.
#[derive(Clone, Copy)]
pub enum PartFault {
    /// It breaks a rule of pages.
    Shape,
    /// A request for memory was refused.
    OutOfMemory,
}

impl From<OutOfMemory> for PartFault {
    ghost from_gives = { λ _ e. e ≡ PartOutOfMemory };

    fn from(_refused: OutOfMemory) -> PartFault {
        PartFault::OutOfMemory
    }
}

impl From<AllocError> for PartFault {
    ghost from_gives = { λ _ e. e ≡ PartOutOfMemory };

    fn from(_refused: AllocError) -> PartFault {
        PartFault::OutOfMemory
    }
}

impl<T: Drop> From<AllocFailed<T>> for PartFault {
    ghost from_gives = { λ _ e. e ≡ PartOutOfMemory };

    fn from(_refused: AllocFailed<T>) -> PartFault {
        PartFault::OutOfMemory
    }
}

// The part, where what it lacked was read into it.
pub fn finish<T: Drop>(filled: Result<(), PartFault>, part: T) -> Result<T, PartFault>
    ensures { (there : Option T) → Makes filled part there → Finds result there }
{
    match filled {
        Ok(()) => Ok(part),
        Err(fault) => Err(fault),
    }
}

// Puts the part at the end of the list, where it was found.
pub fn put<T: Drop>(found: Result<T, PartFault>, out: &mut List<T>) -> Result<(), PartFault>
    ensures { (there : Option T) → Finds found there → Makes result out.new (put out.old there) }
{
    out.push(found?)?;
    Ok(())
}
