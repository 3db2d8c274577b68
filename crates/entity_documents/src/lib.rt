//! The documents of entities, by the bytes of their pages: `json_reader` reads the text, and `entity_json` the page that its value is.
//!
//! `reading` reads one page. `changed` reads two pages of an entity, without what maps of both have, and gives what their documents have
//! of their own.
#![tactic(auto)]

mod changed;
mod reading;

pub use changed::{Changed, read_changed};
pub use reading::document;
