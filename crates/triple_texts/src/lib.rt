//! Triples by the canonical texts of their terms, one after the other in one buffer.
//!
//! `triple_text` has the texts of a triple, `span` and `triple_spans` where they lie in a buffer, and `triple_texts` the triples: a sink
//! that takes them, and gives the texts of each. So a page is mapped without a text of its own for each term. `buffer` has the buffer,
//! in which the text of a `word` isn't written again, and `long_text` what keeps a long subject of many triples from being written for each.
#![tactic(auto)]

mod buffer;
mod long_text;
mod span;
mod triple_spans;
mod triple_text;
mod triple_texts;
mod word;

pub use triple_text::TripleText;
pub use triple_texts::TripleTexts;
