//! RDF terms and triples.
//!
//! `term` and `triple` have the values of RDF, `write` and `escape` their canonical texts in N-Triples, `order` the order by those
//! texts, `triple_set` the set that the order makes, and `pattern` the pattern that triples are asked for by. `tag` and `percent` make
//! fit terms of any texts, by the grammar of N-Triples; the crate `term_reading` reads terms by it. `laws` has what holds of the order
//! itself, `limits` how many terms there may be. The texts and lists of the crate `base`, and its fault, are named here again.
#![tactic(auto)]

mod escape;
mod laws;
mod limits;
mod order;
mod pattern;
mod percent;
mod tag;
mod term;
mod triple;
mod triple_set;
mod write;

pub use base::{CowText, List, OutOfMemory, Text};
pub use laws::sorted_triples_are_the_triples;
pub use limits::DEFAULT_MAX_TERMS;
pub use order::{compare, compare_terms};
pub use pattern::Pattern;
pub use percent::{iri, is_iri, is_iri_char};
pub use tag::{is_tag, tagged};
pub use term::Term;
pub use triple::Triple;
pub use triple_set::TripleSet;
pub use write::{write_quoted, write_term, write_triple};
