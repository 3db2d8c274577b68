//! What a replay means: which deliveries are accepted, late and due, which state each entity has, what is held
//! and named in the side output, what the store's triples are and what is printed.
//!
//! The definitions are in `specs/`. They go over whole lists, and the code of the crates above never does. `words` has the words that are
//! printed of events and causes.
#![tactic(auto)]

mod horizon_laws;
mod laws;
mod source_laws;
mod step_laws;
mod union_laws;
mod version_laws;
mod words;

pub use horizon_laws::{
    buffer_answers_by_calls, buffer_answers_by_deliveries, horizon_leaves_records,
};
pub use laws::{
    late_entries_are_late_events, open_late_by_record, reconciliation_forgets,
    same_events_give_same_records, settled_unless_open, state_is_fate, state_is_fate_of_known,
};
pub use source_laws::{replay_over_source_is_a_play, told_contents_are_held_and_named};
pub use step_laws::{
    due_events_one_by_one, fetches_one_by_one, output_grows_by_deliveries,
    replay_follows_deliveries, version_follows_deliveries,
};
pub use union_laws::{
    owners_change_by_one, same_events_and_version_give_same_union, union_is_what_has_owners,
};
pub use version_laws::{
    documents_are_by_the_version_in_force, one_version_gives_its_union,
    what_is_held_decides_the_union,
};
pub use words::{cause_word, kind_word};
