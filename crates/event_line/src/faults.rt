// Why a line is refused.

ghost use Rattle.std.specs.Prelude.{◌≡◌};
ghost use Rattle.event_line.specs.declared.faults.DeliveryFault.TheVariants.{Bad as Refused, OutOfMemory as DeliveryOutOfMemory};

use rdf_term::OutOfMemory;
use thiserror::Error;

/// Why a line delivers nothing. The causes after the first are in the order in which they are looked for.
#[derive(Clone, Copy, PartialEq, Eq, Debug)]
pub enum LineCause {
    /// The line has more than 65,536 bytes. It isn't read, so reading never gives this cause.
    LineLong,
    /// The line isn't UTF-8, or it isn't one JSON text (RFC 8259) whose arrays and objects are nested at
    /// most 127 deep and whose numbers are finite in double precision.
    NotJson,
    /// The JSON isn't an object with exactly one of the keys `kind`, `watermark`, `ask`, `mapping` and `match`.
    NoForm,
    /// `kind` isn't `edit`, `delete`, `undelete` or `reconcile`.
    Kind,
    /// `entity` isn't the text of an id.
    Entity,
    /// `rev` isn't a whole number from 1 to 18,446,744,073,709,551,615, written in digits alone.
    Rev,
    /// `time`, or `watermark`, isn't the text of a time.
    Time,
    /// `mode` of a reconciliation isn't `kept` or `deleted`.
    Mode,
    /// `ask` isn't a list of exactly three texts of which each is `?` or a term's by the grammar of N-Triples.
    Pattern,
    /// `mapping` isn't the whole number 1 or 2, written in digits alone.
    Mapping,
    /// `match` isn't a list of one to eight lists of exactly three texts, of which each is a variable (`?` and 1 to 16 letters from a to z)
    /// or a term's by the grammar of N-Triples.
    Match,
    /// A record of changes has to begin here, and the line is no first line of one. It is no cause of an event file, nor are those below.
    Head,
    /// A triple of a record has to stand here, and the line isn't the canonical text of one with fit and short terms.
    Triple,
    /// The triple isn't greater than the one before it in its part of the record, or stands in both parts.
    Order,
    /// The input ends inside a record.
    Short,
}

/// Why a line gave no delivery.
#[derive(Clone, Copy, Debug, Error)]
pub enum DeliveryFault {
    /// The line delivers nothing.
    #[error("bad line: {0:?}")]
    Bad(LineCause),
    /// A request for memory was refused.
    #[error("out of memory")]
    OutOfMemory,
}

impl From<LineCause> for DeliveryFault {
    ghost from_gives = { λ cause e. e ≡ Refused cause };

    fn from(cause: LineCause) -> DeliveryFault {
        DeliveryFault::Bad(cause)
    }
}

impl From<OutOfMemory> for DeliveryFault {
    ghost from_gives = { λ _ e. e ≡ DeliveryOutOfMemory };

    fn from(_refused: OutOfMemory) -> DeliveryFault {
        DeliveryFault::OutOfMemory
    }
}
