//! The RDF of entity pages ("Wikibase RDF Dump Format", and the mapping that Wikibase documents for its extension of lexemes).
//!
//! `walk` puts the rules of pages, site links and statements together with those of lexemes. `dump` has what a walk makes, of the dump
//! and of what munging leaves of it, as sets and as texts, `room` how much room the texts get at first, and `laws` what
//! holds of the rules. `counted` has what a part of a document says, with the counts of the whole, and `change_laws` what its triples
//! have to do with those of the whole.
//!
//! Of lexemes, `lexeme_statements` has the statements of the lexeme and of its forms and senses. `lexeme_walk` puts the rules of the page
//! and of the statements together, `lexeme_dump` has the set of what munging leaves, and `lexeme_laws` what holds of the rules.
#![tactic(auto)]

mod change_laws;
mod counted;
mod dump;
mod laws;
mod lexeme_dump;
mod lexeme_laws;
mod lexeme_statements;
mod lexeme_walk;
mod room;
mod walk;

pub use change_laws::{counts_change, kept_triples_balance, parts_are_fit};
pub use counted::{counted_texts, munge_counted_into};
pub use dump::{direct_texts, direct_triples, dump_triples};
pub use laws::{dump_triples_are_given, kept_triples_are_left_of_given_ones};
pub use lexeme_dump::lexeme_triples;
pub use lexeme_laws::{kept_lexeme_triples_are_left_of_given_ones, lexeme_triples_are_given};
pub use walk::emit_dump;
