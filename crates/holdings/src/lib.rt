//! What the entities hold, where all triples that the held pages mean are stored, each with the number of its owners.
//!
//! - `holdings`: the records of the entities, and the store of all triples and texts, with what they tell.
//! - `page_changes` and `remapping`: changes of what is held, with the store in step; the second for a held page that is remapped.
//! - `swapping`: the exchange of a page's triples in the store.
//! - `kept`: what is kept of a page, with how many times each of its triples comes, where that is known.
#![tactic(auto)]

mod holdings;
mod kept;
mod page_changes;
mod remapping;
mod swapping;

pub use holdings::{Holdings, discard};
pub use remapping::RemappedPage;
