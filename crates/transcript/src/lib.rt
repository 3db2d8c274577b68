//! What a replay prints: the answers to questions, and the sections after the end, written to a sink.
//!
//! What the bytes are is said by the definitions of `replay_model`; this crate writes them, or a prefix of them. `sections`
//! has the answer to an ask and the sections, `bindings` that to a match; `states` and `entries` print the parts, and `lines` makes a line's
//! text. The crate `text_output` prints the triples.
#![tactic(auto)]

mod bindings;
mod entries;
mod lines;
mod sections;
mod states;

pub use bindings::print_match;
pub use sections::{Sections, print_answer, print_closing};
