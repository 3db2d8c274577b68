//! The top call: it judges the arguments, takes the lines one by one, and prints what was asked for; or it follows records, or runs a
//! drill.
//!
//! `run` is the whole program but for the process around it; `running` has it, and `commands` the command of a plan that was read. A
//! replay, a patch stream and a split are one path: `replaying` starts a replay by `resuming`, from its beginning or from a snapshot, plays
//! it and prints and saves what it leaves. `replay` is what it moves, the world and the graphs of a split, and `task` is what is asked of
//! it. `split` reads the routes of a split, `records` is the following of records, and `drilling` a drill, whose deliveries `drill_playing`
//! takes. `taking` takes the lines of the input, `delivering` one delivery, and the end, and `remapping` a change of the mapping; `context`
//! writes what is reported of them, answers or changes. The crate `arguments` reads the arguments, `run_model` has what a run reads, writes
//! and reports and how it ends, `transcript` what is printed, and `drill_replay` the summary of a drill. The crate `session_laws` says what
//! follows from the contract of `run` if nothing goes wrong.
#![tactic(auto)]

mod commands;
mod context;
mod delivering;
mod drill_playing;
mod drilling;
mod records;
mod remapping;
mod replay;
mod replaying;
mod resuming;
mod running;
mod split;
mod taking;
mod task;

pub use run_model::{Halt, Ports, Report, Status, Stop, status_number, status_text};
pub use running::run;
