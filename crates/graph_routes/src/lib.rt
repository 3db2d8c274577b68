//! Routes of entities to graphs, by what the entities are an instance of.
//!
//! `routes` has the routes, `reading` reads them from a text, and `routing` says which graph a document goes to. `laws` has what holds of
//! the definitions themselves.
#![tactic(auto)]

mod laws;
mod reading;
mod routes;
mod routing;

pub use laws::routes_are_read_from_their_text;
pub use routes::Routes;
pub use routing::route;
