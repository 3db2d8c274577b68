// The entries of the side output, and which of them still matter.

ghost use Rattle.std.specs.Prelude.{◌≡◌};
ghost use Rattle.entity_state.specs.Entry.{entity_of, is_open};

use crate::state::{Mode, State};
use entity_model::{EntityId, Event, Unfit};

/// Why a revision is not held although the state of its entity wants it.
#[derive(Clone, Copy, PartialEq, Eq)]
pub enum Cause {
    /// The source has no such revision.
    Missing,
    /// The source could not be read.
    Failed,
    /// The bytes of the revision are no document of the entity.
    Unfit(Unfit),
}

/// An entry of the side output.
#[derive(Clone, Copy, PartialEq, Eq)]
pub enum Entry {
    /// An event that came when the watermark had reached its time.
    Late(Event),
    /// An applied event, the revision that was fetched for it, and why it is not held.
    Revision(Event, u64, Cause),
}

impl Entry {
    /// The entity of the entry's event.
    pub fn entity(&self) -> EntityId
        ensures { result ≡ entity_of self.now }
    {
        match self {
            Entry::Late(event) | Entry::Revision(event, _, _) => event.entity,
        }
    }
}

/// Says whether an entry still matters, given what is known of its event's entity: its state, the
/// revision that it holds and the last of its applied reconciliations.
/// A late event matters until a reconciliation is applied that is after it in the order of events;
/// a revision matters while the state wants this revision and it is not held.
pub fn is_open(entry: &Entry, state: State, held: Option<u64>, reconciled: Option<Event>) -> bool
    ensures { result ≡ is_open entry.now state held reconciled }
{
    match entry {
        Entry::Late(event) => match reconciled {
            Some(last) => !event.key_before(&last),
            None => true,
        },
        Entry::Revision(_, revision, _) => {
            state.mode == Mode::Kept && state.rev == *revision && held != Some(*revision)
        }
    }
}
