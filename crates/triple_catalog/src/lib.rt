//! The triples that some entity owns, as slots of a dictionary of terms, with the number of the owners of each.
//!
//! `catalog` is a pool of terms and an index of triples of slots, over a region that each call is lent. `interning` uses the terms of a
//! triple once more, all or none, and once less. On these `changing` gives a triple one owner more or less; triple by triple `coming` takes
//! in the triples of one owner, whose keys `finding` finds, and `releasing` takes them away. The lists of an owner's keys are those of the
//! crate `slot_keys`. `matching` has the slots of a triple and those that a pattern wants. `rows` finds the triples that agree with a
//! pattern, as slices of their texts, and `ranking` puts all triples in order; `reading` reads triples back from these. `lines` has the
//! lines of the triples with one owner. `comparing` has the order of texts, which all these and the crates above compare by.
#![tactic(auto)]

mod catalog;
mod changing;
mod coming;
mod comparing;
mod finding;
mod interning;
mod lines;
mod matching;
mod ranking;
mod reading;
mod releasing;
mod rows;

pub use catalog::Catalog;
pub use coming::Swap;
pub use comparing::compare_texts;
pub use interning::Hints;
pub use lines::{TripleLines, line_size};
pub use rows::Rows;
