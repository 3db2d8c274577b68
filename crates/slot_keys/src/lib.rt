//! Triples of slots, and the lists of them that an owner has.
//!
//! A slot is a number that stands for a term; nothing here knows the terms. `key` has a triple of slots and its three turns. `keys` has the
//! keys of one owner, in order and as its triples came, and `meeting` those of triples that come, one by one; `added` finds the keys again
//! that an exchange added, and `seen` has slots of terms that came a short time ago. `finding` finds a key in order, and `counting` how
//! many times each comes. `compact` keeps keys in no more memory than they need. `keeping` puts what stays of an owner's keys in one list
//! with what was met, which `laying` lays in order. `ranking` puts the ranks of terms in the place of their slots.
#![tactic(auto)]

mod added;
mod compact;
mod counting;
mod finding;
mod keeping;
mod key;
mod keys;
mod laying;
mod meeting;
mod ranking;
mod seen;

pub use added::Added;
pub use counting::{copied, no_counts, times_after};
pub use finding::{behind, find_from, hinted, index_from};
pub use keeping::{KeysBeside, Left, keys_beside};
pub use key::Key;
pub use keys::{KeySlices, Keys, NOWHERE, in_order, narrowed};
pub use meeting::{Met, all_in_order, no_keys_met};
pub use ranking::{SlotText, highest_slot, ranked_keys, ranks_of};
pub use seen::Seen;
