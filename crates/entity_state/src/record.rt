// The record of an entity.

ghost use Rattle.std.specs.Prelude.{◌≡◌};

use crate::state::State;
use entity_model::Event;

/// A revision of an entity's page that was fetched.
#[derive(Drop)]
pub struct Held<H> {
    /// Its number.
    pub revision: u64,
    /// What was fetched.
    pub content: H,
}

/// What is kept of one entity.
#[derive(Drop)]
pub struct Record<H> {
    /// What its applied events say of its page.
    pub state: State,
    /// The revision that it holds.
    pub held: Option<Held<H>>,
    /// The last of its applied reconciliations, in the order of events.
    pub reconciled: Option<Event>,
}

impl<H> Record<H> {
    ghost use Rattle.entity_state.specs.Record.{blank, with_state};

    /// The record of an entity before its first event.
    pub fn blank() -> Record<H>
        ensures { result ≡ blank }
    {
        Record {
            state: State::unknown(),
            held: None,
            reconciled: None,
        }
    }

    /// Sets the state and the last reconciliation. What is held stays.
    pub fn set_state(&mut self, state: State, reconciled: Option<Event>)
        ensures { self.new ≡ with_state self.old state reconciled }
    {
        self.state = state;
        self.reconciled = reconciled;
    }
}
