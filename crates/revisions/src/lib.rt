//! Where the revisions of pages come from: the trait of the outside, revisions in memory, and those of a folder.
//!
//! What a source has at each place and revision is told to contracts where it can be known, as for the object in
//! `memory`; the folder tells nothing. Three counts show what happened: calls, failures and misses.
#![tactic(auto)]

mod folder;
mod memory;
mod revisions;

pub use folder::Folder;
pub use memory::{MemoryRevisions, RevisionBytes};
pub use revisions::{NoRevision, Revisions};
