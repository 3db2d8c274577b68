//! Where bytes come from and go to: sources, sinks and the lines of an input.
//!
//! `source` and `sink` are the two traits of the outside. What an object of them has left, last read, or holds is told to
//! contracts where it can be known, as for the objects in `memory`; the adapters of `streams` tell nothing. `lines`
//! splits a source at its line feeds, which `line_end` finds.
#![tactic(auto)]

mod failing;
mod line_end;
mod lines;
mod memory;
mod sink;
mod source;
mod streams;

pub use failing::FailingCalls;
pub use lines::{LineFault, Lines};
pub use memory::{MemorySink, MemorySource};
pub use sink::{NoWrite, Sink};
pub use source::{Failed, Source};
pub use streams::{StdSink, StdSource};
