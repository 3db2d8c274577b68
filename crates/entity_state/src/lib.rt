//! The state of an entity, which its events decide one by one in their order, and the record that the
//! program keeps of an entity: its state, the revision that it holds, and the last reconciliation.
//! `standing` is what is read of a record where an event is applied.
//!
//! `side` is the side output: a list of what could not be applied as it came, late events and revisions that
//! could not be fetched or used. `entry` says which of its entries are open, by the state of their entity.
#![tactic(auto)]

mod entry;
mod record;
mod side;
mod standing;
mod state;
mod table;

pub use entry::{Cause, Entry, is_open};
pub use record::{Held, Record};
pub use side::Side;
pub use standing::Standing;
pub use state::{Mode, State, step};
pub use table::Table;
