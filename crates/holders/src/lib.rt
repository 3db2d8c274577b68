//! What any kind of holdings stands on: the entities that hold a page, by the version of the mapping that it is mapped by; and what contracts
//! see of what is held, however it is kept: the records, the room for terms, and the change that a step makes of the triples.
//!
//! - `holders`: the entities that hold a page, by version.
//! - `discarding`: the memory of a store is given back.
#![tactic(auto)]

mod discarding;
mod holders;

pub use discarding::discard_store;
pub use holders::{Holders, other};
