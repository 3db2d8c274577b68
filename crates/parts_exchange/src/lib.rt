//! The parts of a page come in the place of those that its entity had, and it is told what that changes of the triples of all pages.
//!
//! `exchanging` has the call, and `laws` what it tells. `merging` merges the lines of both parts of a change.
#![tactic(auto)]

mod exchanging;
mod laws;
mod merging;

pub use exchanging::{HadParts, PartsChange, PartsExchange, exchange_difference, exchange_parts};
pub use laws::parts_tell_the_change;
pub use merging::{NextLine, merged_lines, next_line};
