//! Blocks of keys that take less memory than their slots.
//!
//! The keys of a block are near each other. In a `frame` each is one number of few bits, which says how far its three slots are above the
//! least ones; `parts` takes such numbers apart, and `spread` chooses the frame. `cell` has the sizes in which a number is kept, `packed`
//! a run of numbers of one size, and `search` finds a number among cells. `rows` has the run of the smallest size that has all keys of a
//! block, or the keys as they are. `block` is the block: a list of keys, which are read, searched, put in and taken out by index.
#![tactic(auto)]

mod block;
mod cell;
mod frame;
mod packed;
mod parts;
mod rows;
mod search;
mod spread;

pub use block::{Block, Halves, MOST};
