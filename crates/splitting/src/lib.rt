//! Graphs that follow a world: each entity has the triples of what it holds in the graph that its page is routed to.
//!
//! `graphs` has the graphs, which follow each application and each remapped page, and `optional_graphs` the same if there may be none. `filling`
//! makes graphs of what a world holds. `printing` prints an answer of each graph, and the triples of each; `lines` makes the first lines.
//! `specs/Graphs.antt` says when graphs follow a world, and `specs/Sections.antt` of the crate `subgraph` what is printed of them.
#![tactic(auto)]

mod filling;
mod graphs;
mod lines;
mod optional_graphs;
mod printing;

pub use graphs::Graphs;
pub use optional_graphs::{discard, follow_application, follow_remapping, routes_of};
