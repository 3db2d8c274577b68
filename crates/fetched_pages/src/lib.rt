//! Fetched pages: a revision is fetched, judged as a page of its entity, and mapped to its triples, or to those that it changes.
//!
//! - `fetching`: the fetch of a revision, and what is told of its page.
//! - `meaning`: the triples of a page; `comparing`: those that a page changes of the one that its entity holds.
//! - `parting`: the triples of a page in two parts.
//! - `apart`: what a page and the one that its entity holds have of their own, in two parts.
//! - `judging`: a page whose triples are wanted in two parts is judged.
//! - `laws`: what bytes mean is what the rules say.
#![tactic(auto)]

mod apart;
mod comparing;
mod fetching;
mod judging;
mod laws;
mod meaning;
mod parting;

pub use comparing::{ChangedPage, ChangedTexts, KnownPage};
pub use fetching::{
    Beside, FetchedPage, HeldPage, Mapped, Page, PartsBeside, Reply, Wanted, fetch, judge, texts_in,
};
pub use laws::meaning_is_by_rules;
pub use parting::{DifferingPage, PartedPage, parts_in};
