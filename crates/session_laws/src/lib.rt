//! What follows from the contract of `session::run` if nothing goes wrong, and of several runs together. A law is the contract of a function
//! that does nothing.
//!
//! `laws` is on one run, and on two of which one goes on from what the other saved. `kept` is on snapshots that a run keeps on the way, and
//! on a run that was killed and went on from one. `reruns` is on runs that are made again from the same place, `live` on patch streams that
//! go on from one another and their followers, `chains` on runs of any commands that do, `premises` on when the premises of others hold, and
//! `plans` on the commands that are replays.
#![tactic(auto)]

mod chains;
mod kept;
mod laws;
mod live;
mod plans;
mod premises;
mod reruns;

pub use chains::followers_stop_before_a_missing_number;
pub use kept::{
    kept_snapshots_stand_behind_their_lines, killed_runs_go_on_as_one,
    killed_runs_wrote_what_is_written_again,
};
pub use laws::{
    a_saved_replay_is_read_back, first_runs_are_whole_replays, first_runs_stand_after_nothing,
    fitting_input_is_replayed, followers_have_what_was_held, found_pages_leave_no_entries,
    good_input_goes_on_from_saved_worlds, good_input_is_replayed, numbers_of_a_run_fit,
    resumed_runs_begin_where_others_stood, runs_go_on_as_one, saved_worlds_are_gone_on_from,
    settled_pages_are_the_union, told_pages_have_room, two_runs_are_one,
    unsettled_pages_have_no_document, written_streams_are_records,
};
pub use live::{mirrors_have_what_is_held, patch_streams_go_on_as_one};
pub use plans::plans_end_as_their_runs;
pub use premises::{
    delivered_lines_are_fit, graphs_of_routes_are_the_union, told_worlds_can_be_saved,
};
pub use reruns::{
    reruns_are_the_same, runs_without_failures_are_functions, stopped_runs_are_begun_reruns,
};
