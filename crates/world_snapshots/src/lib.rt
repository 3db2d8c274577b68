//! A world is written as a snapshot, and read back.
//!
//! `saving` writes a snapshot, line by line, in the format of the crate `snapshot`. `loading` reads the lines of a source, and `loader` puts
//! each into a world, where it may come. The crate `checkpoint` has what is kept of a world, where snapshots are kept, and why nothing is
//! loaded; the crate `written_laws` says that what is loaded is what was saved, of which no line is refused.
#![tactic(auto)]

mod loader;
mod loading;
mod saving;

pub use loading::{Loaded, load};
pub use saving::save;
