//! A checkpoint: what a snapshot keeps of a world between two lines of its input.
//!
//! `snapshots` is where snapshots are kept, and `memory` keeps them in memory. `stage` is how far the lines of one have come that is loaded,
//! and `fault` why nothing was loaded. The definitions say which lines may come, which world they put together, and why a file isn't loaded.
//! The crate `world_snapshots` writes snapshots and loads them; `written_laws` says that what is loaded is what was saved.
#![tactic(auto)]

mod fault;
mod memory;
mod snapshots;
mod stage;

pub use fault::LoadFault;
pub use memory::MemorySnapshots;
pub use snapshots::Snapshots;
pub use stage::Stage;
