// An entity is counted in, or out.

ghost use Rattle.std.specs.Prelude.{◌≡◌, ◌<◌, false, true, Err, IfOk, OnErr, OnOk};
ghost use Rattle.std.specs.FinMap as map;
ghost use Rattle.std.specs.List.{AllByRecursion};
ghost use Rattle.sorted_sets.specs.Rising.{has, sorted};
ghost use Rattle.rdf_term.specs.{declared.triple.Triple.Triple, Fit.HasFitAndShortTerms, Order.triple_cmp};
ghost use Rattle.text_region.specs.Region.{Texts};
ghost use Rattle.term_pool.specs.declared.fault.PoolFault.TheVariants.{Full};
ghost use Rattle.triple_catalog.specs.Room.{room_for};
ghost use Rattle.triple_store.specs.StoreState.{IsSound, counts_in, limit_of};
ghost use Rattle.triple_store.specs.Updates.{AreStored, KeepsRest, MayCome};
ghost use Rattle.replay_model.specs.Union.{Meaning};
ghost use Rattle.fetched_pages.specs.Meaning.{meaning};
ghost use Rattle.shared_triples.specs.Lean.{stored_of, triples_of};
ghost use Rattle.entity_counts.specs.Naming.{counted_in, is_counted, pages_naming};
ghost use Rattle.lean_holdings.specs.{Holding.IsKept, Holding.counted_by, Kept.kept_of, Kept.keys_held, Kept.seen};

use crate::kept::{LeanPage, held_of};
use crate::storing::store_whole;
use entity_counts::EntityCounts;
use entity_json::DocumentFault;
use entity_model::EntityId;
use entity_state::Table;
use fetched_pages::{Wanted, texts_in};
use rdf_term::OutOfMemory;
use std::alloc::Global;
use triple_store::{Store, StoreFault};
use triple_texts::TripleTexts;

/// The triples that the bytes of the wanted revision mean: none where they are no document.
pub fn meant_texts(alloc: Global, wanted: Wanted, bytes: &[u8]) -> Result<TripleTexts, OutOfMemory>
    ensures value { IfOk result (λ texts. sorted triple_cmp texts ≡ meaning wanted.version wanted.id wanted.rev bytes.now) }
    ensures fit { IfOk result (AllByRecursion HasFitAndShortTerms) }
{
    match texts_in(alloc, wanted, bytes, None) {
        Ok(mapped) => Ok(mapped.triples),
        Err(DocumentFault::Unfit(_)) => Ok(TripleTexts::new(alloc)),
        Err(DocumentFault::OutOfMemory) => Err(OutOfMemory),
    }
}

/// Counts an entity, which isn't counted yet, and stores all triples of the page that it holds, if it holds one. After a fault the same
/// entities are counted, and every triple has the count that it had. The fault is `Full` if the page's triples, with the stored ones, have
/// more distinct terms than the limit.
pub fn count_page(
    store: &mut Store,
    table: &mut Table<LeanPage>,
    names: &mut EntityCounts,
    id: EntityId,
    page: &TripleTexts,
) -> Result<(), StoreFault>
    requires sound { IsSound store.old }
    requires stored { AreStored store.old (keys_held (kept_of table.old.records id).held) }
    requires may_come { MayCome store.old page.now }
    requires new { is_counted names.old id ≡ false }
    ensures counted { OnOk result ((m : Meaning Triple) (pages : Texts) →
        IsKept m store.old pages names.old table.old.records →
        ((t : Triple) → has triple_cmp t page.now ≡ has triple_cmp t (triples_of m (seen pages table.old.records) id)) →
        IsKept m store.new pages names.new table.new.records) }
    ensures names { OnOk result (names.new ≡ counted_in names.old id) }
    ensures seen { (pages : Texts) → seen pages table.new.records ≡ seen pages table.old.records }
    ensures err { OnErr result (counts_in store.new ≡ counts_in store.old) }
    ensures err_table { OnErr result (table.new ≡ table.old) }
    ensures err_names { OnErr result (names.new ≡ names.old) }
    ensures full { result ≡ Err Full → limit_of store.old < room_for (counts_in store.old) page.now }
    ensures rest { KeepsRest store.old store.new }
{
    if names.count_in(id).is_err() {
        return Err(StoreFault::OutOfMemory);
    }
    if held_of(table, id).is_none() {
        return Ok(());
    }
    match store_whole(store, table, id, page) {
        Ok(()) => Ok(()),
        Err(fault) => {
            names.count_out(id);
            Err(fault)
        }
    }
}

/// Counts an entity no longer, which is counted and which no page names: of the page that it holds, if it holds one, these triples alone
/// are stored then. After a fault the same entities are counted, and every triple has the count that it had.
pub fn uncount_page(
    store: &mut Store,
    table: &mut Table<LeanPage>,
    names: &mut EntityCounts,
    id: EntityId,
    page: &TripleTexts,
) -> Result<(), StoreFault>
    requires sound { IsSound store.old }
    requires stored { AreStored store.old (keys_held (kept_of table.old.records id).held) }
    requires may_come { MayCome store.old page.now }
    requires counted { is_counted names.old id ≡ true }
    requires unnamed { pages_naming names.old id ≡ 0 }
    ensures uncounted { OnOk result ((m : Meaning Triple) (pages : Texts) →
        IsKept m store.old pages names.old table.old.records →
        ((t : Triple) → has triple_cmp t page.now
        ≡ has triple_cmp t (triples_of (stored_of (counted_by (map.remove names.old id)) m) (seen pages table.old.records) id)) →
        IsKept m store.new pages names.new table.new.records) }
    ensures names { OnOk result (names.new ≡ map.remove names.old id) }
    ensures seen { (pages : Texts) → seen pages table.new.records ≡ seen pages table.old.records }
    ensures err { OnErr result (counts_in store.new ≡ counts_in store.old) }
    ensures err_table { OnErr result (table.new ≡ table.old) }
    ensures err_names { OnErr result (names.new ≡ names.old) }
    ensures rest { KeepsRest store.old store.new }
{
    if held_of(table, id).is_none() {
        names.count_out(id);
        return Ok(());
    }
    match store_whole(store, table, id, page) {
        Ok(()) => {
            names.count_out(id);
            Ok(())
        }
        Err(fault) => Err(fault),
    }
}
