//! The values that the whole workspace speaks of: the ids of Wikidata's entities, the
//! events of their pages with the order in which they are applied, the documents of pages with all
//! that they say, the reasons for which the bytes of a page are no document, and the versions of the rules by which
//! a page is mapped.
#![tactic(auto)]

mod document;
mod entity;
mod event;
mod id;
mod lexeme;
mod mapping;
mod snak;
mod statement;
mod unfit;
mod value;

pub use document::Document;
pub use entity::{Entity, Link};
pub use event::{Event, Kind};
pub use id::{EntityId, IdKind};
pub use lexeme::{Lexeme, Part, is_part_id};
pub use mapping::MappingVersion;
pub use snak::{Content, Snak};
pub use statement::{Rank, Reference, Statement};
pub use unfit::Unfit;
pub use value::{GlobeParts, QuantityParts, Tagged, TimeParts, Value};
