// All triples of a page are stored, since its entity is to be counted.

ghost use Rattle.std.specs.Prelude.{◌≡◌, ◌<◌, true, is_some, Err, OnErr, OnOk};
ghost use Rattle.std.specs.FinMap as map;
ghost use Rattle.sorted_sets.specs.Rising.{has};
ghost use Rattle.rdf_term.specs.{declared.triple.Triple.Triple, Order.triple_cmp};
ghost use Rattle.text_region.specs.Region.{Texts};
ghost use Rattle.term_pool.specs.declared.fault.PoolFault.TheVariants.{Full};
ghost use Rattle.triple_catalog.specs.Room.{room_for};
ghost use Rattle.triple_store.specs.StoreState.{IsSound, counts_in, limit_of};
ghost use Rattle.triple_store.specs.Updates.{AreStored, KeepsRest, MayCome};
ghost use Rattle.replay_model.specs.Union.{Meaning};
ghost use Rattle.shared_triples.specs.Lean.{stored_of, triples_of};
ghost use Rattle.entity_counts.specs.Naming.{Naming, counted_in, is_counted, pages_naming};
ghost use Rattle.lean_holdings.specs.{Holding.IsKept, Holding.counted_by, Kept.kept_of, Kept.keys_held, Kept.seen, Kept.with_keys};

use crate::kept::{LeanPage, keys_of};
use entity_model::EntityId;
use entity_state::{Held, Record, Table};
use triple_store::{Exchange, Keys, Left, Store, StoreFault, Telling, Uncounted};
use triple_texts::TripleTexts;

/// Stores all triples of the page that an entity holds, which is to be counted: those that stood in its page alone get their owner. Nothing
/// is told of it, since no triple comes to the pages or goes. After a fault every triple has the count that it had. The fault is `Full` if
/// the page's triples, with the stored ones, have more distinct terms than the limit.
pub fn store_whole(
    store: &mut Store,
    table: &mut Table<LeanPage>,
    id: EntityId,
    page: &TripleTexts,
) -> Result<(), StoreFault>
    requires sound { IsSound store.old }
    requires stored { AreStored store.old (keys_held (kept_of table.old.records id).held) }
    requires may_come { MayCome store.old page.now }
    requires held { is_some (kept_of table.old.records id).held ≡ true }
    ensures counted { OnOk result ((m : Meaning Triple) (pages : Texts) (names : Naming) →
        IsKept m store.old pages names table.old.records →
        ((t : Triple) → has triple_cmp t page.now ≡ has triple_cmp t (triples_of m (seen pages table.old.records) id)) →
        IsKept m store.new pages (counted_in names id) table.new.records) }
    ensures uncounted { OnOk result ((m : Meaning Triple) (pages : Texts) (names : Naming) →
        IsKept m store.old pages names table.old.records → is_counted names id ≡ true → pages_naming names id ≡ 0 →
        ((t : Triple) → has triple_cmp t page.now
        ≡ has triple_cmp t (triples_of (stored_of (counted_by (map.remove names id)) m) (seen pages table.old.records) id)) →
        IsKept m store.new pages (map.remove names id) table.new.records) }
    ensures seen { (pages : Texts) → seen pages table.new.records ≡ seen pages table.old.records }
    ensures err { OnErr result (counts_in store.new ≡ counts_in store.old) }
    ensures err_table { OnErr result (table.new ≡ table.old) }
    ensures full { result ≡ Err Full → limit_of store.old < room_for (counts_in store.old) page.now }
    ensures rest { KeepsRest store.old store.new }
{
    let left = Left {
        keys: keys_of(table, id),
        counts: &[],
    };
    match store.exchange(left, page, Telling::Nothing, &mut Uncounted) {
        Ok(
            Exchange {
                keys,
                times,
                change,
            },
        ) => {
            drop(times);
            drop(change);
            set_keys(table, id, keys);
            Ok(())
        }
        Err(fault) => Err(fault),
    }
}

// Sets the keys of the stored triples of what an entity holds.
pub fn set_keys(table: &mut Table<LeanPage>, id: EntityId, keys: Keys)
    requires { is_some (kept_of table.old.records id).held ≡ true }
    ensures { table.new.records ≡ map.insert table.old.records id (with_keys (kept_of table.old.records id) keys) }
{
    let Some(before) = table.put(id, Record::blank()) else {
        return;
    };
    let Record {
        state,
        held,
        reconciled,
    } = before;
    let Some(held) = held else {
        return;
    };
    let content = LeanPage {
        piece: held.content.piece,
        keys,
    };
    let anew = Record {
        state,
        held: Some(Held {
            revision: held.revision,
            content,
        }),
        reconciled,
    };
    let _ = table.put(id, anew);
}
