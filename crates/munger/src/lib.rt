//! Munging: which triples of a page's dump the store keeps, and under which subject, after the data differences that the Wikidata Query
//! Service documents for its Streaming Updater.
//!
//! `iris` compares borrowed terms with IRIs, `verdict` judges a triple, and `naming` gives blank nodes IRIs. `sink`
//! has the sink that munges what it hands on, and `munging` munges a set with it.
#![tactic(auto)]

mod iris;
mod munging;
mod naming;
mod sink;
mod verdict;

pub use munging::munge;
pub use sink::Munged;
pub use verdict::Page;
