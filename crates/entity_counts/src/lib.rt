//! The entities that are counted, with how many pages name each.
//!
//! The definitions are in `specs/`, and `counts` has the type.
#![tactic(auto)]

mod counts;

pub use counts::EntityCounts;
