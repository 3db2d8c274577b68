//! What a data value becomes in RDF: its simple term, and for a time, a quantity or a coordinate the
//! node that has its parts ("Wikibase RDF Dump Format", Value representation).
//!
//! `simple` hands on the triple with the simple term, `name` has the names of nodes, and `nodes` hands on the
//! triples of a node. `laws` has what holds of the definitions themselves.
#![tactic(auto)]

mod laws;
mod name;
mod nodes;
mod simple;

pub use laws::{node_terms_are_fit, simple_terms_are_fit, unit_one_is_named_as_the_number_one};
pub use name::node_name;
pub use nodes::emit_parts;
pub use simple::{emit_iri, emit_simple};
