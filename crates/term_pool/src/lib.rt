//! Terms that are counted, each once, with their texts in a region.
//!
//! `slot` has the name of a term that is there, `fault` why a term isn't taken, `slots` what stands in a slot, `counting`
//! how often its term is used, `hash` the keyed hash by which terms are found, `index` the way from hashes to slots, and
//! `pool` the terms themselves. `finding` finds a term whose text isn't written: `walk` hands its canonical text on piece by
//! piece, to the hash and to `matcher`, which compares it with a text.
#![tactic(auto)]

mod counting;
mod fault;
mod finding;
mod hash;
mod index;
mod matcher;
mod pool;
mod slot;
mod slots;
mod walk;

pub use fault::PoolFault;
pub use pool::Pool;
pub use slot::Slot;
