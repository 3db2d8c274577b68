//! What changes from one set of triples to another: the triples that come, and those that go.
#![tactic(auto)]

mod changes;
mod merge;

pub use changes::Patch;
pub use merge::patch;
