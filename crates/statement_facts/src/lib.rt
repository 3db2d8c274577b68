//! What is found out of a statement before its triples are made ("Wikibase RDF Dump Format", Statement types).
//!
//! `node` has the names of the nodes of statements, `role` the roles in which snaks stand, with the namespaces of their properties, and
//! `label` the labels of the nodes that stand for unknown values; `laws` has what holds of the names. `best` of the module `ranking` judges
//! which statements of a list are best, and `rank_laws` has what its test says in words.
#![tactic(auto)]

mod label;
mod laws;
mod node;
mod rank_laws;
mod ranking;
mod role;

pub use label::Labels;
pub use laws::statement_names_keep_characters;
pub use node::statement_name;
pub use rank_laws::best_is_ranked_highest;
pub use ranking::best;
pub use role::Role;
