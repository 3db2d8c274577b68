//! Triples of slots with the numbers of their owners, found by each pattern in one range.
//!
//! The crate `slot_keys` has a triple of slots and its three turns; nothing here knows the terms that slots stand for. `pattern`
//! has what triples are asked for by. `orders` has the set of triples in three indexes, by subject, by predicate and by object first,
//! so that each of the eight kinds of patterns is one range of one of them. `counted` has the map from triples to their counts of owners: a triple of one owner is only in
//! the indexes, and `counting` has the counts of those with more.
#![tactic(auto)]

mod counted;
mod counting;
mod orders;
mod pattern;

pub use counted::SlotIndex;
pub use pattern::SlotPattern;
