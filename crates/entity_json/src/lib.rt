//! The pages of entities in JSON, by the values that their texts are. The crate `entity_documents` reads the texts.
//!
//! `page` has the page of a value: a redirect, an item or property of `entity`, or a lexeme of
//! `lexeme`, with the parts that `terms`, `statements`, `snaks`, `values`, `links` and `items` read. All of these read leaves by `leaf` and `number`, maps by
//! `map`, and lists by the loops of `each`. `part` and `fault` have what a part and a page are refused for.
#![tactic(auto)]

mod each;
mod entity;
mod fault;
mod items;
mod laws;
mod leaf;
mod lexeme;
mod links;
mod map;
mod number;
mod page;
mod part;
mod snaks;
mod statements;
mod terms;
mod values;

pub use fault::DocumentFault;
pub use laws::{
    a_tree_has_one_page, documents_are_of_their_entities, documents_are_pages, documents_are_small,
    unfit_pages_have_causes,
};
pub use page::{PAGE_LIMIT, Page, discard, page_of};
pub use part::PartFault;
