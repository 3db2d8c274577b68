//! What a page says of itself and of its entity, but for site links and statements ("Wikibase RDF Dump Format"; of lexemes after the mapping
//! that Wikibase documents for its extension of lexemes).
//!
//! Pages of all kinds share `dataset`, what a page says of the dataset that it is, and `texts`, texts in their languages. `spoken` is what the
//! page of an item or a property says: `about` has the class and the texts, `counted_dataset` the dataset with the counts of the document,
//! which `counts` has, and `property` what a property's page says of its predicates. Of a lexeme's page, `entry` has the lexeme,
//! `lexeme_texts` its lemmas and the texts of its forms and senses, `lexeme_page` the page itself, and `parts` the forms and the senses.
#![tactic(auto)]

mod about;
mod counted_dataset;
mod counts;
mod dataset;
mod entry;
mod lexeme_page;
mod lexeme_texts;
mod parts;
mod property;
mod spoken;
mod texts;

pub use counts::{Counted, Counts};
pub use dataset::{emit_change, emit_number, emit_numbers, emit_page, identifiers};
pub use entry::emit_entry;
pub use lexeme_page::emit_lexeme_page;
pub use lexeme_texts::emit_texts;
pub use parts::{PartKind, emit_parts};
pub use spoken::emit_spoken;
pub use texts::text_ref;
