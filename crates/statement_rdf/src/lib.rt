//! What the statements of an entity become in RDF ("Wikibase RDF Dump Format", Statement types): the triples of each, of its qualifiers
//! and of its references.
//!
//! `emit_statement` hands on the triples of one, and `emit_statements` those of all statements of a subject. `snak` has the triples of snaks,
//! and `laws` what holds of the rules.
#![tactic(auto)]

mod laws;
mod snak;
mod statement;
mod statements;

pub use laws::{statement_terms_are_fit, statement_triples_are_given};
pub use statement::emit_statement;
pub use statements::emit_statements;
