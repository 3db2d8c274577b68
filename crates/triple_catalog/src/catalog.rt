// The stored triples and their counts, over a region that each call is lent.

use slot_index::SlotIndex;
use std::alloc::Global;
use term_pool::Pool;

/// The triples that some entity owns, with the number of their owners. Each term is in a pool once, and a triple is three slots of it.
/// The terms' texts lie in a region that each call is lent, beside others.
#[derive(Drop)]
pub struct Catalog {
    pub alloc: Global,
    pub pool: Pool,
    pub index: SlotIndex,
}
