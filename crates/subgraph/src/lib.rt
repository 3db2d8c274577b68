//! Entities have their triples in one of several graphs, and move when they are routed to another.
//!
//! `graph` has the triples of the entities of one graph, and `split` the graphs together: each entity has its triples in one of them at most.
//! `placing` has the steps of that over the list of the graphs. `laws` has what holds of the definitions themselves, and `specs/Sections.antt`
//! says what is printed of graphs. The crate `graph_routes` says which graph a document goes to.
#![tactic(auto)]

mod graph;
mod laws;
mod placing;
mod split;

/// Which graph a document goes to.
pub use graph_routes::{Routes, route};
pub use laws::{graphs_are_the_union, graphs_follow_the_records, graphs_need_no_more_room};
pub use split::{Split, discard};
/// Why a graph takes no triples: the limit on distinct terms is reached, or memory was refused.
pub use triple_store::StoreFault;
