//! The files that a run reads and writes by their names, beside the standard streams.
//!
//! `input` has what is read: standard input, or the file of a snapshot. `snapshot_file` has the file that a snapshot is written to: it stands
//! beside its name, and takes the name once it is whole. `run_files` has the names of both, which the arguments give.
#![tactic(auto)]

mod input;
mod run_files;
mod snapshot_file;

pub use input::{Input, NamedFile};
pub use run_files::RunFiles;
pub use snapshot_file::{FileNames, SnapshotFile};
