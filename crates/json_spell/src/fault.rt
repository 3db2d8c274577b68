// What a text is refused for.

ghost use Rattle.std.specs.Prelude.{◌≡◌};
ghost use Rattle.json_spell.specs.declared.fault.JsonFault.TheVariants.{OutOfMemory as JsonOutOfMemory};

use base::OutOfMemory;
use std::alloc::{AllocError, AllocFailed};
use thiserror::Error;

/// Why bytes were not read.
#[derive(Clone, Copy, Debug, Error)]
pub enum JsonFault {
    /// Outside of strings, the opening brackets exceed the closing ones by more than 64 at some byte: a limit on the depth
    /// of nesting, which RFC 8259, section 9, allows.
    #[error("brackets open deeper than 64")]
    Deep,
    /// The bytes are no JSON text of RFC 8259 in UTF-8 without a byte order mark, or a string escapes a surrogate alone.
    #[error("not a JSON text")]
    NotJson,
    /// A request for memory was refused.
    #[error("out of memory")]
    OutOfMemory,
}

impl From<OutOfMemory> for JsonFault {
    ghost from_gives = { λ _ e. e ≡ JsonOutOfMemory };

    fn from(_refused: OutOfMemory) -> JsonFault {
        JsonFault::OutOfMemory
    }
}

impl From<AllocError> for JsonFault {
    ghost from_gives = { λ _ e. e ≡ JsonOutOfMemory };

    fn from(_refused: AllocError) -> JsonFault {
        JsonFault::OutOfMemory
    }
}

impl<T: Drop> From<AllocFailed<T>> for JsonFault {
    ghost from_gives = { λ _ e. e ≡ JsonOutOfMemory };

    fn from(_refused: AllocFailed<T>) -> JsonFault {
        JsonFault::OutOfMemory
    }
}
