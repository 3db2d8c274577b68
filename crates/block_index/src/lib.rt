//! A sorted set of keys in small blocks, whose calls count their comparisons.
//!
//! `index` has the set: its keys, of any type that is compared in counted steps, stand in rising order in blocks of 1 to 128,
//! and the blocks in groups of 64 to 128, so a change moves few keys and few blocks, and touches at most two neighbouring blocks. Below it, `block` has one block and `group` one
//! group, `search` finds a key's position by three binary searches, `edit` puts a key in or takes it out at a
//! position, `taking` copies the keys of a range, and `counting` says how many stand between two positions.
#![tactic(auto)]

mod block;
mod counting;
mod edit;
mod group;
mod index;
mod search;
mod taking;

pub use index::BlockIndex;
