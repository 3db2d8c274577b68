//! The lines of an event file: read one by one.
//!
//! `line` reads one line, which is a JSON object (RFC 8259): an event of an entity's page, a watermark, a
//! question or a change of the mapping's version. `plain` reads a line in the form that most lines have
//! where it stands, by its `pieces` and without a JSON value. `query` reads a question of several patterns,
//! `term` the terms of questions, and `time` the times of events and watermarks. `faults` has the causes for
//! which a line is refused.
#![tactic(auto)]

mod faults;
mod line;
mod pieces;
mod plain;
mod query;
mod term;
mod time;

pub use faults::{DeliveryFault, LineCause};
pub use line::delivery;
