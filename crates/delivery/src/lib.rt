//! What a run is delivered, line by line: events, watermarks, versions of the mapping, and questions, also those of several patterns that
//! share variables.
//!
//! `query` has a query's shapes: patterns in which a variable may stand at each place. `names` lists its variables. What a query's
//! bindings over a set of triples are is defined in `specs/Bindings.antt`; `laws` says that they are exactly those that the set has.
#![tactic(auto)]

mod laws;
mod names;
mod query;

use entity_model::{Event, MappingVersion};
pub use laws::bindings_are_all;
pub use names::{same_text, variables};
pub use query::{Place, Query, Shape};
use rdf_term::Pattern;

/// What one line of an event file delivers.
#[derive(Drop)]
pub enum Delivery {
    /// An event of an entity's page.
    Event(Event),
    /// From here on, events up to this time are not expected any more. The time is in microseconds
    /// since 1970-01-01T00:00:00Z.
    Watermark(i64),
    /// A question: which of the triples at this point agree with the pattern?
    Ask(Pattern),
    /// From here on, every page is mapped by this version of the rules, those that are held already too.
    Mapping(MappingVersion),
    /// A question of several patterns: which bindings does the query have over the triples at this point?
    Match(Query),
}
