//! What holds of what a run writes: a snapshot, and the stream of its changes. Each law is the contract of a function that does nothing.
//!
//! `saves` is on what a checkpoint saves and loads. `streams` is on the stream of a replay: each step begins where the last one ended, how
//! many there are, what a replica has that received their records, and that these can be read.
#![tactic(auto)]

mod saves;
mod streams;

pub use saves::{
    a_saved_world_is_loaded_as_it_was, no_line_of_a_saved_world_is_refused, one_line_is_refused,
};
pub use streams::{
    a_replica_of_a_stream_has_its_union, numbers_of_records_fit, records_of_a_stream_can_be_read,
    steps_of_a_play_are_a_chain, steps_of_a_play_are_few,
};
