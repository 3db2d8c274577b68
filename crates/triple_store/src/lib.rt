//! The triples of all entities, each with the number of its owners.
//!
//! `store` has the store: the catalog of what is stored, which is the crate `triple_catalog`, and the region with the texts of the terms,
//! each once, and with texts of the caller's own beside them. `updates` has the calls that give triples owners and take them away, and
//! `queries` those that ask. `telling` finds what an exchange changed, in its middle. `times` tells how many times each triple of an owner
//! is left after some are gone.
#![tactic(auto)]

mod queries;
mod store;
mod telling;
mod times;
mod updates;

pub use comparison_steps::{StepCounter, Uncounted};
pub use slot_keys::{KeySlices, Keys, Left};
pub use store::Store;
pub use telling::{Change, Telling, Told};
/// Why a store takes no triples: the limit on distinct terms is reached, or memory was refused.
pub use term_pool::PoolFault as StoreFault;
pub use triple_catalog::{Rows, TripleLines};
pub use updates::Exchange;
