// What the application of an event led to, or the remapping of a page.

ghost use Rattle.std.specs.Prelude.{◌≡◌};
ghost use Rattle.world.specs.{Applying.fault_of_store, declared.applied.WorldFault.TheVariants.OutOfMemory as WorldOutOfMemory};

use entity_model::{EntityId, Event, MappingVersion};
use entity_state::Cause;
use parts_exchange::PartsChange;
use rdf_term::OutOfMemory;
use thiserror::Error;
use triple_store::{StoreFault, Telling, Told};
use triple_texts::TripleTexts;

/// What the application of an event did to what its entity holds.
#[derive(Clone, Copy)]
pub enum Outcome {
    /// Nothing.
    Same,
    /// A revision was fetched and is held.
    Stored,
    /// The page was deleted, and nothing is held.
    Dropped,
    /// A fetch gave no document, and the side output says why.
    Sided(Cause),
}

/// How what an entity holds is changed: by which version its page is mapped, and what is told of the change of the stored triples.
#[derive(Clone, Copy)]
pub struct Handling {
    pub version: MappingVersion,
    pub telling: Telling,
}

/// What is told of how a step changed the triples of all that is held.
#[derive(Drop)]
pub enum StepChange {
    /// What was asked for.
    Told(Told),
    /// The change, in a lean world: the lines of triples that stand in one page alone, and those of the stored ones.
    Parts(PartsChange),
}

/// An event that was applied.
#[derive(Clone, Copy)]
pub struct AppliedEvent {
    pub event: Event,
    pub outcome: Outcome,
}

/// The triples of a page by their texts, of which one may stand there more than once, and the graph that the page is routed to, by its
/// index from 0.
#[derive(Drop)]
pub struct RoutedPage {
    pub graph: usize,
    pub triples: TripleTexts,
}

/// What the application of an event did to what its entity holds; what is told of its change of the stored triples; and the page that it
/// stored, where it is routed.
#[derive(Drop)]
pub struct HeldChange {
    pub outcome: Outcome,
    pub change: StepChange,
    pub routed: Option<RoutedPage>,
}

/// An event that was applied; what is told of its change of the stored triples: nothing too where no page came or went; and the page that
/// was stored, if there are routes.
#[derive(Drop)]
pub struct AppliedStep {
    pub applied: AppliedEvent,
    pub change: StepChange,
    pub routed: Option<RoutedPage>,
}

/// An entity whose held page was remapped; what is told of its change of the stored triples; and the triples of the page then, by their
/// texts, of which one may stand there more than once, unless the world is lean.
#[derive(Drop)]
pub struct RemappedStep {
    pub entity: EntityId,
    pub change: StepChange,
    pub triples: TripleTexts,
}

/// Why no event was applied, or no page remapped.
#[derive(Clone, Copy, Debug, Error)]
pub enum WorldFault {
    /// No event is due.
    #[error("no event is due")]
    Nothing,
    /// The triples of all held pages and of the page that was fetched, or remapped, have together more distinct terms than the limit. The
    /// event stays due, and the page stays mapped as it was.
    #[error("the store is full")]
    Full,
    /// A request for memory was refused. The event stays due, and the page stays mapped as it was.
    #[error("out of memory")]
    OutOfMemory,
}

impl From<OutOfMemory> for WorldFault {
    ghost from_gives = { λ _ e. e ≡ WorldOutOfMemory };

    fn from(_refused: OutOfMemory) -> WorldFault {
        WorldFault::OutOfMemory
    }
}

impl From<StoreFault> for WorldFault {
    ghost from_gives = { λ fault e. e ≡ fault_of_store fault };

    fn from(fault: StoreFault) -> WorldFault {
        match fault {
            StoreFault::Full => WorldFault::Full,
            StoreFault::OutOfMemory => WorldFault::OutOfMemory,
        }
    }
}
