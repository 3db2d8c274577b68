//! The stream of a replay: a record for each step that changes which triples are stored.
//!
//! `specs/Stream.antt` says what the steps of a replay are, and which records they give. `printing` prints the record of a step, and `laws`
//! says when a step changes something and what the text of its change is. The crate `written_laws` has what holds of whole streams.
#![tactic(auto)]

mod laws;
mod printing;

pub use laws::{changes_are_told_by_records, changes_differ};
pub use printing::{changes_something, print_step};
