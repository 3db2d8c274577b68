// What is read of a record where an event is applied.

ghost use Rattle.std.specs.Prelude.{◌≡◌};
ghost use Rattle.entity_state.specs.Standing.{is_reconciliation, reconciled_after, standing_after, standing_wants};

use crate::state::{Mode, State, step};
use entity_model::{Event, Kind};

/// The state of an entity, the number of the revision that it holds, and its last reconciliation.
#[derive(Clone, Copy)]
pub struct Standing {
    /// What the applied events of the entity say of its page.
    pub state: State,
    /// The number of the revision that is held.
    pub held: Option<u64>,
    /// The last of the applied reconciliations, in the order of events.
    pub reconciled: Option<Event>,
}

impl Standing {
    /// The same after an event, before anything is fetched.
    pub fn after(self, event: &Event) -> Standing
        ensures { result ≡ standing_after self event.now }
    {
        Standing {
            state: step(self.state, event),
            held: self.held,
            reconciled: later_reconciliation(self.reconciled, event),
        }
    }

    /// Whether the state is of a page that is there at a revision that isn't held.
    pub fn wants(&self) -> bool
        ensures { result ≡ standing_wants self.now }
    {
        match self.state.mode {
            Mode::Kept => self.held != Some(self.state.rev),
            Mode::Unknown | Mode::Deleted => false,
        }
    }
}

// The last reconciliation in the order of events.
fn later_reconciliation(last: Option<Event>, event: &Event) -> Option<Event>
    ensures { result ≡ reconciled_after last event.now }
{
    if !reconciles(event.kind) {
        return last;
    }
    match last {
        None => Some(*event),
        Some(other) => Some(if other.key_before(event) {
            *event
        } else {
            other
        }),
    }
}

// Whether an event of the kind says what the wiki has.
fn reconciles(kind: Kind) -> bool
    ensures { result ≡ is_reconciliation kind }
{
    matches!(kind, Kind::ReconcileDeleted | Kind::ReconcileKept)
}
