// Why bytes give no document.

ghost use Rattle.std.specs.Prelude.{◌≡◌};
ghost use Rattle.entity_json.specs.Faults.{of_json, of_part};

use crate::part::PartFault;
use entity_model::Unfit;
use json_spell::JsonFault;
use thiserror::Error;

/// Why bytes give no document.
#[derive(Clone, Copy, Debug, Error)]
pub enum DocumentFault {
    /// The bytes are no document of the entity.
    #[error("the page is unfit")]
    Unfit(Unfit),
    /// A request for memory was refused.
    #[error("out of memory")]
    OutOfMemory,
}

impl From<JsonFault> for DocumentFault {
    ghost from_gives = { λ fault e. e ≡ of_json fault };

    fn from(fault: JsonFault) -> DocumentFault {
        match fault {
            JsonFault::Deep => DocumentFault::Unfit(Unfit::Deep),
            JsonFault::NotJson => DocumentFault::Unfit(Unfit::NotJson),
            JsonFault::OutOfMemory => DocumentFault::OutOfMemory,
        }
    }
}

impl From<PartFault> for DocumentFault {
    ghost from_gives = { λ fault e. e ≡ of_part fault };

    fn from(fault: PartFault) -> DocumentFault {
        match fault {
            PartFault::Shape => DocumentFault::Unfit(Unfit::Shape),
            PartFault::OutOfMemory => DocumentFault::OutOfMemory,
        }
    }
}
