//! What the entities hold, where only the triples that two pages may share are stored, and the pages are kept packed.
//!
//! `holdings` has the records, the packed pages, the store, and how many pages name each entity; `kept` what is kept of a page, and
//! `records` how it is read and put. `storing` stores all of a page whose entity is to be counted, and `counting` counts the entity with
//! it; `names` moves the names of entities from a page to the one in its place. `parts` parts the triples of a page, and `moving` puts its
//! parts in the place of others, or exchanges what two pages have of their own; `placing` sets the record with that. With these `holding`
//! puts and takes pages, by `differing` where it is known what the new one has of its own, `remapping` maps one by another version, and `restoring` puts
//! back what was saved; with `uncounting` each counts out again those that no page names any longer. `again` tries a step once more where
//! there was no room for it, without those that were left counted. `laws` says that all of it stays in step where an entity is counted in
//! or out, and where a record is put in.
#![tactic(auto)]

mod again;
mod counting;
mod differing;
mod holding;
mod holdings;
mod kept;
mod laws;
mod moving;
mod names;
mod parts;
mod placing;
mod records;
mod remapping;
mod restoring;
mod storing;
mod uncounting;

pub use holdings::{LeanHoldings, discard};
pub use kept::LeanPage;
pub use laws::holdings_stay_in_step;
pub use restoring::RestoreFault;
pub use storing::store_whole;
