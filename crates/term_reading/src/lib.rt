//! Terms read from their texts, by the grammar of N-Triples.
//!
//! `read` has the term that a whole text writes, `content` what stands in the brackets of an IRI and in the quotes of a literal, and
//! `label` the labels of blank nodes. `laws` has what holds of the reading itself. The terms, and which of them are fit, are those of
//! the crate `rdf_term`.
#![tactic(auto)]

mod content;
mod label;
mod laws;
mod read;

pub use laws::{canonical_text_reads_back, reading_is_by_the_grammar};
pub use read::read_term;
