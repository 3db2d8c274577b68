// The state of an entity, and what an event makes of it.

ghost use Rattle.std.specs.Prelude.{◌≡◌};
ghost use Rattle.entity_state.specs.State.{state_after, unknown};

use entity_model::{Event, Kind};

/// Whether an entity's page is there.
#[derive(Clone, Copy, PartialEq, Eq)]
pub enum Mode {
    /// No event said so yet.
    Unknown,
    /// The page is there.
    Kept,
    /// The page was deleted.
    Deleted,
}

/// What the events of an entity that were applied so far say of its page.
#[derive(Clone, Copy, PartialEq, Eq)]
pub struct State {
    /// Whether the page is there.
    pub mode: Mode,
    /// The revision that the state is of; 0 before the first event.
    pub rev: u64,
}

impl State {
    /// The state of an entity before its first event.
    pub fn unknown() -> State
        ensures { result ≡ unknown }
    {
        State {
            mode: Mode::Unknown,
            rev: 0,
        }
    }
}

/// The state after one more event. An event that is behind the state leaves it as it is, and a
/// reconciliation always decides it.
pub fn step(state: State, event: &Event) -> State
    ensures { result ≡ state_after state event.now }
{
    let rev = event.rev;
    let kept = State {
        mode: Mode::Kept,
        rev,
    };
    let deleted = State {
        mode: Mode::Deleted,
        rev,
    };
    match event.kind {
        Kind::Edit if state.rev < rev => kept,
        Kind::Delete if state.rev <= rev => deleted,
        Kind::Undelete if state.rev < rev => kept,
        Kind::Undelete if state.rev == rev && state.mode == Mode::Deleted => kept,
        Kind::ReconcileDeleted => deleted,
        Kind::ReconcileKept => kept,
        Kind::Edit | Kind::Delete | Kind::Undelete => state,
    }
}
