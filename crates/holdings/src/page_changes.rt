// Pages that come, go or stay, and the store in step with them.

ghost use Rattle.std.specs.Prelude.{◌≡◌, ◌⊎◌, ◌<◌, ◌≤◌, false, None, Some, Ok, Err, IfSome, IfOk, IsSome, IsTrue, OnErr, OnOk};
ghost use Rattle.std.specs.FinMap as map;
ghost use Rattle.rdf_term.specs.declared.triple.Triple.{Triple};
ghost use Rattle.term_pool.specs.declared.fault.PoolFault.TheVariants.{Full};
ghost use Rattle.entity_state.specs.Table.{has_room};
ghost use Rattle.slot_keys.specs.declared.key.Key.{Key as TheKey};
ghost use Rattle.triple_store.specs.declared.telling.Telling.TheVariants.{Change as TheChange};
ghost use Rattle.triple_store.specs.StoreState.{HasKey, IsSound, beside, counts_in, limit_of};
ghost use Rattle.entity_model.specs.declared.mapping.MappingVersion.TheVariants.{One};
ghost use Rattle.replay_model.specs.{Records.record_of, Versions.meaning_by, Versions.with_version};
ghost use Rattle.fetched_pages.specs.{Fetched.IsFetched, Fetched.bytes_of, Meaning.meaning};
ghost use Rattle.holders.specs.{Changing.Tells, Roomed.room_with};
ghost use Rattle.holdings.specs.{Keeping.FreesPiece, Keeping.kept_of, Keeping.piece_at, Mapped.stored_in};

use crate::holdings::{Holdings, make_room};
use crate::kept::{KeptPage, keys_of, times_of};
use crate::swapping::{Had, PageExchange, SwapSetting, exchange_page};
use entity_model::{EntityId, MappingVersion};
use entity_state::{Held, Record, Standing, Table};
use fetched_pages::{FetchedPage, Wanted};
use holders::other;
use rdf_term::OutOfMemory;
use triple_store::{Store, StoreFault, Telling, Told, Uncounted};

impl Holdings {
    /// Sets the record of an entity, which holds the page of the wanted revision from now on, and tells what it is asked of
    /// the change of the stored triples. After a fault nothing has changed. The fault is `Full` if its triples, with those of all that is held,
    /// have more distinct terms than the limit. If the page says what it changes of the held one, the store exchanges that alone.
    pub fn hold(
        &mut self,
        wanted: Wanted,
        after: Standing,
        page: &FetchedPage,
        telling: Telling,
    ) -> Result<Told, StoreFault>
        requires { IsFetched self.old.records self.old.by_two wanted.version wanted.id wanted.rev page.now }
        ensures ok { OnOk result (self.new.records ≡ map.insert self.old.records wanted.id (record {
          state = after.state;
          held = Some (record { revision = wanted.rev; content = bytes_of page.now });
          reconciled = after.reconciled;
        })) }
        ensures by_two { OnOk result (self.new.by_two ≡ with_version wanted.version wanted.id self.old.by_two) }
        ensures change { IfOk result (Tells telling (stored_in self.old) (stored_in self.new)) }
        ensures limit { self.new.limit ≡ self.old.limit }
        ensures err { OnErr result (self.new ≡ self.old) }
        ensures full { result ≡ Err Full → self.old.limit < room_with (meaning_by meaning self.old.by_two) self.old.records (meaning wanted.version wanted.id wanted.rev (bytes_of page.now)) }
        ensures within { OnOk result (room_with (meaning_by meaning self.old.by_two) self.old.records (meaning wanted.version wanted.id wanted.rev (bytes_of page.now)) ≤ self.old.limit) }
    {
        if make_room(&mut self.table, wanted.id).is_err() {
            return Err(StoreFault::OutOfMemory);
        }
        // A triple has at most as many owners as there are records, so no count is saturated.
        let entities = self.table.len();
        prove!(entities < usize::MAX);
        let Ok(added) = self.holders.add(wanted.id, wanted.version) else {
            return Err(StoreFault::OutOfMemory);
        };
        let Ok(piece) = self.store.place(page.bytes()) else {
            self.holders.take_back(wanted.id, wanted.version, added);
            return Err(StoreFault::OutOfMemory);
        };
        let setting = SwapSetting {
            alloc: self.alloc,
            wanted,
            telling,
        };
        let had = Had {
            keys: keys_of(&self.table, wanted.id),
            times: times_of(&self.table, wanted.id),
        };
        match exchange_page(&mut self.store, had, page, setting) {
            Ok(
                PageExchange {
                    keys,
                    times,
                    change,
                },
            ) => {
                let held = Held {
                    revision: wanted.rev,
                    content: KeptPage { piece, keys, times },
                };
                replace(
                    &mut self.store,
                    &mut self.table,
                    wanted.id,
                    after,
                    Some(held),
                );
                self.holders.remove(wanted.id, other(wanted.version));
                Ok(change)
            }
            Err(refused) => {
                self.store.free(piece);
                self.holders.take_back(wanted.id, wanted.version, added);
                Err(refused)
            }
        }
    }

    /// Sets the record of an entity, which holds what it held. After `OutOfMemory` nothing has changed.
    pub fn keep(&mut self, id: EntityId, after: Standing) -> Result<(), OutOfMemory>
        ensures records { OnOk result (self.new.records ≡ map.insert self.old.records id (record {
          state = after.state;
          held = (record_of self.old.records id).held;
          reconciled = after.reconciled;
        })) }
        ensures by_two { self.new.by_two ≡ self.old.by_two }
        ensures stored { OnOk result (stored_in self.new ≡ stored_in self.old) }
        ensures limit { self.new.limit ≡ self.old.limit }
        ensures err { OnErr result (self.new ≡ self.old) }
        ensures refused { OnErr result (map.contains_key self.old.records id ≡ false) }
    {
        let Ok(()) = make_room(&mut self.table, id) else {
            return Err(OutOfMemory);
        };
        keep_record(&mut self.table, id, after);
        Ok(())
    }

    /// Sets the record of an entity, which holds nothing from now on, and tells what it is asked of the change of the stored triples. After
    /// `OutOfMemory` nothing has changed.
    pub fn release(
        &mut self,
        id: EntityId,
        after: Standing,
        telling: Telling,
    ) -> Result<Told, OutOfMemory>
        ensures records { OnOk result (self.new.records ≡ map.insert self.old.records id (record {
          state = after.state;
          held = None;
          reconciled = after.reconciled;
        })) }
        ensures by_two { OnOk result (self.new.by_two ≡ with_version One id self.old.by_two) }
        ensures change { IfOk result (Tells telling (stored_in self.old) (stored_in self.new)) }
        ensures limit { self.new.limit ≡ self.old.limit }
        ensures err { OnErr result (self.new ≡ self.old) }
        ensures refused { OnErr result ((map.contains_key self.old.records id ≡ false) ⊎ (telling ≡ TheChange)) }
    {
        let Ok(()) = make_room(&mut self.table, id) else {
            return Err(OutOfMemory);
        };
        let gone = keys_of(&self.table, id);
        let Ok(change) = self.store.release(gone, telling, &mut Uncounted) else {
            return Err(OutOfMemory);
        };
        replace(&mut self.store, &mut self.table, id, after, None);
        self.holders.remove(id, MappingVersion::One);
        self.holders.remove(id, MappingVersion::Two);
        Ok(change)
    }
}

// Puts a record and frees the piece of the page that the one before held.
fn replace(
    store: &mut Store,
    table: &mut Table<KeptPage>,
    id: EntityId,
    after: Standing,
    held: Option<Held<KeptPage>>,
)
    requires room { IsTrue (has_room table.old id) }
    requires sound { IsSound store.old }
    requires live { IfSome (piece_at table.old.records id) (λ piece. IsSome (beside store.old piece)) }
    ensures records { table.new.records ≡ map.insert table.old.records id (record {
      state = after.state;
      held = held;
      reconciled = after.reconciled;
    }) }
    ensures sound { IsSound store.new }
    ensures counts { counts_in store.new ≡ counts_in store.old }
    ensures kept { (key : TheKey) (triple : Triple) → HasKey store.old key triple → HasKey store.new key triple }
    ensures freed { FreesPiece (piece_at table.old.records id) (beside store.old) (beside store.new) }
    ensures limit { limit_of store.new ≡ limit_of store.old }
{
    let record = Record {
        state: after.state,
        held,
        reconciled: after.reconciled,
    };
    let Some(before) = table.put(id, record) else {
        return;
    };
    if let Some(held) = before.held {
        store.free(held.content.piece);
    }
}

// Sets the record, whose page stays.
fn keep_record(table: &mut Table<KeptPage>, id: EntityId, after: Standing)
    requires { IsTrue (has_room table.old id) }
    ensures { table.new.records ≡ map.insert table.old.records id (record {
      state = after.state;
      held = (kept_of table.old.records id).held;
      reconciled = after.reconciled;
    }) }
{
    if table.get(id).is_some() {
        table.set_state(id, after.state, after.reconciled);
    } else {
        let record = Record {
            state: after.state,
            held: None,
            reconciled: after.reconciled,
        };
        let _ = table.put(id, record);
    }
}
