//! The drill: deliveries and pages that are made from a number, so that a replay runs without any input; what is told of it at its end, and
//! what its pages mean.
//!
//! A drill of size N has the items Q1 to QN, each with two revisions. `stream` has the deliveries of an item,
//! `pages` the bytes of a revision, and `source` the revisions as a source.
//!
//! `counts` counts the deliveries that were taken; `summary` adds what stands at the end of their replay, and
//! makes the seven lines. `laws` says how long a drill is, by which version of the mapping, and that there is room for all of its pages.
//! `page_laws` says which JSON values the pages are, and how many terms their triples have. `specs/Told.antt` has the pages that deliveries
//! may bring where it is known what the source has.
#![tactic(auto)]

mod counts;
mod laws;
mod page_laws;
mod pages;
mod source;
mod stream;
mod summary;

pub use counts::DrillCounts;
pub use laws::{drill_has_room, drill_has_this_length, drill_is_by_the_first_version};
pub use page_laws::{pages_are_json_texts, pages_have_few_terms};
pub use source::DrillRevisions;
pub use stream::deliveries;
pub use summary::{Summary, summarize, summary_lines};
