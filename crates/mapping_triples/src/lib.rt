//! The mapping's parts as lists of triples: what a statement, a value and a link to an article become in RDF, each appended to a list.
//!
//! `statements` has the triples of statements, `values` the simple terms of values and the triples of their nodes, and `articles` those of
//! links. Each call hands what an emitter emits to a list. After `OutOfMemory` a list begins with what it held.
#![tactic(auto)]

mod articles;
mod statements;
mod values;

pub use articles::article_triples;
pub use statements::{statement_triples, statement_triples_at};
pub use values::{node_triples, simple};
