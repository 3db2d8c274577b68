// The memory of a store is given back.

use triple_store::Store;

/// Gives back the memory of a store. So its drop is proved here, and not in each crate that has one.
pub fn discard_store(store: Store) {
    drop(store);
}
