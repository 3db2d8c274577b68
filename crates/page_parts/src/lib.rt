//! The triples of an entity's page in two parts: those that stand in this page alone, and those that other pages may have too; and in
//! rows, by their texts.
//!
//! - `homes` has the entity that a term belongs to, `texts` the texts of both parts, and `parts` the sink that takes the triples of a page
//!   apart as they come; `named` has the other entities that a page names.
//! - `difference`: the parts of what two pages have of their own.
//! - `marking`: the triples that only one of two lists has, by their `marks`, and `staying` those that one has more often. `sifting` has
//!   the sink that keeps no others, and `without` the one that keeps all others.
//! - `changing`: what the triples of one page change of those of another, by `rows` of both, whose `subjects` are compared once.
#![tactic(auto)]

mod changing;
mod difference;
mod homes;
mod marking;
mod marks;
mod named;
mod parts;
mod row;
mod rows;
mod sifting;
mod staying;
mod subjects;
mod texts;
mod without;

pub use changing::{RowChange, row_change};
pub use difference::PageDifference;
pub use marks::Marks;
pub use named::NamedParts;
pub use parts::PageParts;
pub use sifting::Sifted;
pub use without::Without;
