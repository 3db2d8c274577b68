// The parts of a page come in the place of others.

ghost use Rattle.std.specs.Prelude.{◌≡◌, ◌<◌, OnErr};
ghost use Rattle.std.specs.List.{AllByRecursion};
ghost use Rattle.rdf_term.specs.{declared.triple.Triple.Triple, Fit.HasFitAndShortTerms};
ghost use Rattle.triple_store.specs.{Counts.count_of, StoreState.IsSound, StoreState.counts_in, Updates.AreStored, Updates.KeepsRest};
ghost use Rattle.triple_store.specs.declared.telling.Told.TheVariants.{Change as ToldChange};
ghost use Rattle.parts_exchange.specs.Exchanged.{IsDifferenceExchange, IsPartsExchange, IsToldChange};

use page_parts::{PageDifference, PageParts, RowChange, row_change};
use std::alloc::Global;
use triple_store::{Change, KeySlices, Keys, Left, Store, StoreFault, Telling, Told, Uncounted};
use triple_texts::TripleTexts;

/// What an entity has: the keys of its stored triples, and the triples that stand in its page alone.
#[derive(Clone, Copy)]
pub struct HadParts<'a> {
    pub keys: KeySlices<'a>,
    pub own: &'a TripleTexts,
}

/// What the coming of a page's parts changed: of the triples that stand in the page alone, and of the stored ones. No triple is in both,
/// and the lines of each rise, so that the two merged are the change of the triples of all pages.
#[derive(Drop)]
pub struct PartsChange {
    pub own: RowChange,
    pub stored: Change,
}

/// The keys of the stored triples of a page, and what its coming changed.
#[derive(Drop)]
pub struct PartsExchange {
    pub keys: Keys,
    pub change: PartsChange,
}

/// Puts the parts of a page in the place of those that its entity had: what stands in the page alone is compared with what stood there,
/// and the other triples get and lose owners. It tells the change. After a fault every triple has the count that it had.
pub fn exchange_parts(
    alloc: Global,
    store: &mut Store,
    had: HadParts<'_>,
    parts: &PageParts,
) -> Result<PartsExchange, StoreFault>
    requires sound { IsSound store.old }
    requires stored { AreStored store.old had.keys.rising.now }
    requires countable { (t : Triple) → count_of (counts_in store.old) t < 18446744073709551615 }
    requires fit { AllByRecursion HasFitAndShortTerms parts.now.shared }
    ensures exchanged { IsPartsExchange store.old store.new had.entry.keys.rising.now had.entry.own.now parts.now.own parts.now.shared result }
    ensures rest { KeepsRest store.old store.new }
{
    let Ok(own) = row_change(alloc, had.own, parts.own()) else {
        return Err(StoreFault::OutOfMemory);
    };
    let left = Left {
        keys: had.keys,
        counts: &[],
    };
    match store.exchange(left, parts.shared(), Telling::Change, &mut Uncounted) {
        Ok(done) => Ok(PartsExchange {
            keys: done.keys.compact(alloc),
            change: joined(own, done.change),
        }),
        Err(fault) => {
            drop(own);
            Err(fault)
        }
    }
}

/// Puts the parts of a page in the place of those of the page whose shared triples have these keys, by what both have of their own: beside the
/// keys it takes time and memory for that alone. It tells the change. After a fault every triple has the count that it had.
pub fn exchange_difference(
    alloc: Global,
    store: &mut Store,
    keys: KeySlices<'_>,
    difference: &PageDifference,
) -> Result<PartsExchange, StoreFault>
    requires sound { IsSound store.old }
    requires stored { AreStored store.old keys.rising.now }
    requires countable { (t : Triple) → count_of (counts_in store.old) t < 18446744073709551615 }
    requires fit { AllByRecursion HasFitAndShortTerms difference.now.come.shared }
    ensures exchanged { IsDifferenceExchange store.old store.new keys.entry.rising.now difference.now result }
    ensures err { OnErr result (counts_in store.new ≡ counts_in store.old) }
    ensures rest { KeepsRest store.old store.new }
{
    let PageDifference { gone, come } = difference;
    let Ok(own) = row_change(alloc, gone.own(), come.own()) else {
        return Err(StoreFault::OutOfMemory);
    };
    // Each triple of a page has one key, so where there are no keys the counts are empty too, and nothing is left of it.
    let Ok(counts) = store.left_without(keys, gone.shared()) else {
        drop(own);
        return Err(StoreFault::OutOfMemory);
    };
    let left = Left {
        keys,
        counts: counts.as_slice(),
    };
    let exchanged = store.exchange(left, come.shared(), Telling::Change, &mut Uncounted);
    drop(counts);
    match exchanged {
        Ok(done) => Ok(PartsExchange {
            keys: done.keys.compact(alloc),
            change: joined(own, done.change),
        }),
        Err(fault) => {
            drop(own);
            Err(fault)
        }
    }
}

// Both changes. The store was asked for its change.
fn joined(own: RowChange, told: Told) -> PartsChange
    requires { IsToldChange told }
    ensures own { result.own ≡ own }
    ensures stored { told ≡ ToldChange result.stored }
{
    match told {
        Told::Change(stored) => PartsChange { own, stored },
        Told::Nothing | Told::Whether(_) => unreachable!(),
    }
}
