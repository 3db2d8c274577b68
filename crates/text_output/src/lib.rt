//! Bytes, texts and sections of triples, written whole to a sink.
//!
//! `specs/Printing.antt` says what an output is at a moment, and what printing makes of it: all of a text, or a prefix of it. `write` has
//! bytes and lines, and `triples` the sections.
#![tactic(auto)]

mod triples;
mod write;

pub use triples::{print_section, print_triples};
pub use write::{Unwritten, flush, print_lines, write_all};
