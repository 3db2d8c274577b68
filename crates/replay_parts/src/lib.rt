//! The laws of a replay that is split by entity, and of a replay that stops and goes on.
//!
//! The definitions are in `specs/`. There is no code: each law is the contract of a function that does nothing.
#![tactic(auto)]

mod checkpoint;
mod parts;

pub use checkpoint::{
    output_goes_on_from_a_checkpoint, replay_goes_on_from_a_checkpoint, two_runs_are_one,
};
pub use parts::{
    part_answers_where_the_whole_does, parts_together_have_what_the_whole_has,
    parts_together_print_what_the_whole_prints, replay_of_a_part_is_the_part_of_a_replay,
    splits_by_entity_are_partitions, union_is_made_of_the_parts,
};
