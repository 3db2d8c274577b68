// What an entity holds is remapped.

ghost use Rattle.std.specs.Prelude.{◌≡◌, ◌<◌, ◌≤◌, true, Some, None, Err, is_some, IfOk, IfSome, IsSome, MatchOption, OnErr, OnOk};
ghost use Rattle.std.specs.FinMap as map;
ghost use Rattle.std.specs.List.{AllByRecursion};
ghost use Rattle.sorted_sets.specs.Rising.{sorted};
ghost use Rattle.rdf_term.specs.{Fit.HasFitAndShortTerms, Order.triple_cmp};
ghost use Rattle.term_pool.specs.declared.fault.PoolFault.TheVariants.{Full};
ghost use Rattle.triple_store.specs.StoreState.{beside};
ghost use Rattle.replay_model.specs.{Records.record_of, Union.triples_held, Versions.is_holder, Versions.meaning_by, Versions.with_version};
ghost use Rattle.fetched_pages.specs.Meaning.{meaning};
ghost use Rattle.holders.specs.{Changing.Tells, Roomed.room_with};
ghost use Rattle.holdings.specs.Keeping.{held_with, kept_of, piece_at, with_keys};
ghost use Rattle.holdings.specs.Mapped.{AreTriplesOf, stored_in};

use crate::holdings::Holdings;
use crate::kept::{KeptPage, held_of, keys_of};
use entity_json::DocumentFault;
use entity_model::{EntityId, MappingVersion};
use entity_state::{Held, Record, Table};
use fetched_pages::{Wanted, texts_in};
use holders::other;
use rdf_term::OutOfMemory;
use std::alloc::Global;
use triple_store::{Exchange, Keys, Left, Store, StoreFault, Telling, Told, Uncounted};
use triple_texts::TripleTexts;

/// What is told of how remapping a page changed the stored triples, and the triples of the page then, by their texts.
#[derive(Drop)]
pub struct RemappedPage {
    pub change: Told,
    pub triples: TripleTexts,
}

impl Holdings {
    /// Maps what an entity holds by a version, gives back its triples, and tells what it is asked of the change of the stored triples. After a
    /// fault nothing has changed. The fault is `Full` if the new triples, with those of all that is held, have more distinct terms than the
    /// limit.
    pub fn remap(
        &mut self,
        id: EntityId,
        version: MappingVersion,
        telling: Telling,
    ) -> Result<RemappedPage, StoreFault>
        requires { is_holder self.old.records id ≡ true }
        ensures records { self.new.records ≡ self.old.records }
        ensures by_two { OnOk result (self.new.by_two ≡ with_version version id self.old.by_two) }
        ensures change { IfOk result (λ remapped. Tells telling (stored_in self.old) (stored_in self.new) remapped.change) }
        ensures triples { IfOk result (λ remapped. AreTriplesOf version id (record_of self.old.records id).held remapped.triples) }
        ensures limit { self.new.limit ≡ self.old.limit }
        ensures err { OnErr result (self.new ≡ self.old) }
        ensures full { result ≡ Err Full → self.old.limit < room_with (meaning_by meaning self.old.by_two) self.old.records
            (triples_held (meaning version) id (record_of self.old.records id).held) }
        ensures within { OnOk result (room_with (meaning_by meaning self.old.by_two) self.old.records
            (triples_held (meaning version) id (record_of self.old.records id).held) ≤ self.old.limit) }
    {
        // A triple has at most as many owners as there are records, so no count is saturated.
        let entities = self.table.len();
        prove!(entities < usize::MAX);
        let Ok(triples) = held_texts(self.alloc, &self.store, &self.table, id, version) else {
            return Err(StoreFault::OutOfMemory);
        };
        let Ok(added) = self.holders.add(id, version) else {
            drop(triples);
            return Err(StoreFault::OutOfMemory);
        };
        let left = Left {
            keys: keys_of(&self.table, id),
            counts: &[],
        };
        match self.store.exchange(left, &triples, telling, &mut Uncounted) {
            Ok(
                Exchange {
                    keys,
                    times,
                    change,
                },
            ) => {
                drop(times);
                set_keys(&mut self.table, id, keys);
                self.holders.remove(id, other(version));
                Ok(RemappedPage { change, triples })
            }
            Err(refused) => {
                drop(triples);
                self.holders.take_back(id, version, added);
                Err(refused)
            }
        }
    }
}

// The triples of what an entity holds, by a version.
fn held_texts(
    alloc: Global,
    store: &Store,
    table: &Table<KeptPage>,
    id: EntityId,
    version: MappingVersion,
) -> Result<TripleTexts, OutOfMemory>
    requires { IfSome (piece_at table.now.records id) (λ piece. IsSome (beside store.now piece)) }
    ensures value { IfOk result (λ texts.
        sorted triple_cmp texts ≡ triples_held (meaning version) id (held_with (beside store.now) (kept_of table.now.records id).held)) }
    ensures fit { IfOk result (AllByRecursion HasFitAndShortTerms) }
{
    let Some((rev, bytes)) = held_in(store, table, id) else {
        return Ok(TripleTexts::new(alloc));
    };
    match texts_in(alloc, Wanted { id, rev, version }, bytes, None) {
        Ok(mapped) => Ok(mapped.triples),
        // bytes that are no document mean nothing
        Err(DocumentFault::Unfit(_)) => Ok(TripleTexts::new(alloc)),
        Err(DocumentFault::OutOfMemory) => Err(OutOfMemory),
    }
}

/// The revision that an entity holds, and the text of its piece.
pub fn held_in<'a>(
    store: &'a Store,
    table: &Table<KeptPage>,
    id: EntityId,
) -> Option<(u64, &'a [u8])>
    requires { IfSome (piece_at table.now.records id) (λ piece. IsSome (beside store.now piece)) }
    ensures { MatchOption result (held_with (beside store.now) (kept_of table.now.records id).held ≡ None)
        (λ h. held_with (beside store.now) (kept_of table.now.records id).held ≡ Some (record { revision = h.0; content = h.1.now })) }
{
    match held_of(table, id) {
        Some(held) => Some((held.revision, store.read(&held.content.piece))),
        None => None,
    }
}

// Sets the keys of the triples of what an entity holds. How often these come isn't known then.
fn set_keys(table: &mut Table<KeptPage>, id: EntityId, keys: Keys)
    requires { is_some (kept_of table.old.records id).held ≡ true }
    ensures { table.new.records ≡ map.insert table.old.records id (with_keys (kept_of table.old.records id) keys) }
{
    let Some(before) = table.put(id, Record::blank()) else {
        return;
    };
    let Record {
        state,
        held,
        reconciled,
    } = before;
    let Some(held) = held else {
        return;
    };
    let content = KeptPage {
        piece: held.content.piece,
        keys,
        times: None,
    };
    let anew = Record {
        state,
        held: Some(Held {
            revision: held.revision,
            content,
        }),
        reconciled,
    };
    let _ = table.put(id, anew);
}
