//! The arguments: which of them are understood, and what they ask for.
//!
//! `table` has the items of each command, with the kinds of their values; `items` reads the arguments by a table; `options` has what a
//! replay, a patch stream, a follower and a split are asked for; `plan` reads a whole command; `numbers` reads a number in its range.
//! `grammar` says which arguments are a plan. `matching` hands the items of a plan to clap, and takes their values from its matches.
//! Only that takes memory, so refusing arguments needs no memory.
#![tactic(auto)]

mod grammar;
mod items;
mod matching;
mod numbers;
mod options;
mod plan;
mod table;

pub use grammar::plans_are_spelled;
pub use matching::ItemWords;
pub use options::{FollowOptions, ReplayOptions, SplitOptions};
pub use plan::{Plan, read_plan};
