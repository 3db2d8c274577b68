// What an entity holds is put in the place of what it held, and the change is told.

ghost use Rattle.std.specs.Prelude.{◌≡◌, ◌<◌, ◌≤◌, List, None, Some, Err, IfOk, OnErr, OnOk, length};
ghost use Rattle.std.specs.FinMap as map;
ghost use Rattle.rdf_term.specs.declared.triple.Triple.{Triple};
ghost use Rattle.term_pool.specs.declared.fault.PoolFault.TheVariants.{Full};
ghost use Rattle.entity_model.specs.{declared.id.EntityId.EntityId as TheId};
ghost use Rattle.entity_model.specs.declared.mapping.MappingVersion.TheVariants.{One};
ghost use Rattle.replay_model.specs.{Records.record_of, Union.Meaning, Versions.meaning_by, Versions.with_version};
ghost use Rattle.fetched_pages.specs.Meaning.{meaning};
ghost use Rattle.shared_triples.specs.Lean.{stored_of};
ghost use Rattle.holders.specs.Roomed.{room_with};
ghost use Rattle.lean_holdings.specs.Changing.{IsChangeOf, held_triples};
ghost use Rattle.lean_holdings.specs.{Coming.IsComing, Holding.counted_by, Moving.ArePartsOf};

use crate::holdings::LeanHoldings;
use crate::kept::{LeanPage, keys_of};
use crate::moving::{Coming, Moving, bring, move_parts};
use crate::records::{make_room, replace};
use entity_model::{EntityId, MappingVersion};
use entity_state::{Held, Standing};
use fetched_pages::Wanted;
use holders::other;
use page_parts::NamedParts;
use parts_exchange::{PartsChange, PartsExchange};
use rdf_term::OutOfMemory;
use triple_store::StoreFault;

impl LeanHoldings {
    // Sets the record of an entity, which holds a page from now on in the place of what it held. All that the page names are counted. After
    // a fault nothing has changed.
    pub(crate) fn put_page<'x>(
        &mut self,
        wanted: Wanted,
        after: Standing,
        page: &[u8],
        coming: Coming<'x>,
    ) -> Result<PartsChange, StoreFault>
        requires short { length page.now ≤ 8388608 }
        requires coming { IsComing (counted_by self.old.names) (meaning_by meaning self.old.by_two) (meaning wanted.version) wanted.id
            (record_of self.old.records wanted.id).held (Some (record { revision = wanted.rev; content = page.now })) coming }
        ensures records { OnOk result (self.new.records ≡ map.insert self.old.records wanted.id (record {
          state = after.state;
          held = Some (record { revision = wanted.rev; content = page.now });
          reconciled = after.reconciled;
        })) }
        ensures by_two { OnOk result (self.new.by_two ≡ with_version wanted.version wanted.id self.old.by_two) }
        ensures change { IfOk result (IsChangeOf (held_triples self.old) (held_triples self.new)) }
        ensures counted { OnOk result (counted_by self.new.names ≡ counted_by self.old.names) }
        ensures limit { self.new.limit ≡ self.old.limit }
        ensures err { OnErr result (self.new ≡ self.old) }
        ensures full { result ≡ Err Full → self.old.limit
            < room_with (stored_of (counted_by self.old.names) (meaning_by meaning self.old.by_two)) self.old.records
            (stored_of (counted_by self.old.names) (meaning wanted.version) wanted.id wanted.rev page.now) }
        ensures within { OnOk result (room_with (stored_of (counted_by self.old.names) (meaning_by meaning self.old.by_two))
            self.old.records (stored_of (counted_by self.old.names) (meaning wanted.version) wanted.id wanted.rev page.now)
            ≤ self.old.limit) }
    {
        let id = wanted.id;
        if make_room(&mut self.table, id).is_err() {
            return Err(StoreFault::OutOfMemory);
        }
        // At most as many pages have a triple, or name an entity, as there are records, so no count is saturated.
        let entities = self.table.len();
        prove!(entities < usize::MAX);
        let Ok(added) = self.holders.add(id, wanted.version) else {
            return Err(StoreFault::OutOfMemory);
        };
        let Ok(piece) = self.pages.put(page) else {
            self.holders.take_back(id, wanted.version, added);
            return Err(StoreFault::OutOfMemory);
        };
        let keys = keys_of(&self.table, id);
        match bring(self.alloc, &mut self.store, &mut self.names, keys, coming) {
            Ok(PartsExchange { keys, change }) => {
                let held = Held {
                    revision: wanted.rev,
                    content: LeanPage { piece, keys },
                };
                replace(&mut self.pages, &mut self.table, id, after, Some(held));
                self.holders.remove(id, other(wanted.version));
                Ok(change)
            }
            Err(refused) => {
                self.pages.free(piece);
                self.holders.take_back(id, wanted.version, added);
                Err(refused)
            }
        }
    }

    // Sets the record of an entity, which holds nothing from now on; these are the parts of what it held, and those of nothing. After
    // `OutOfMemory` nothing has changed.
    pub(crate) fn put_nothing<'x>(
        &mut self,
        id: EntityId,
        after: Standing,
        gone: &'x NamedParts,
        come: &'x NamedParts,
    ) -> Result<PartsChange, OutOfMemory>
        requires gone { ArePartsOf (counted_by self.old.names) (meaning_by meaning self.old.by_two) id
            (record_of self.old.records id).held gone.now }
        requires come { (counted : List TheId) (m : Meaning Triple) → ArePartsOf counted m id None come.now }
        ensures records { OnOk result (self.new.records ≡ map.insert self.old.records id (record {
          state = after.state;
          held = None;
          reconciled = after.reconciled;
        })) }
        ensures by_two { OnOk result (self.new.by_two ≡ with_version One id self.old.by_two) }
        ensures change { IfOk result (IsChangeOf (held_triples self.old) (held_triples self.new)) }
        ensures counted { OnOk result (counted_by self.new.names ≡ counted_by self.old.names) }
        ensures limit { self.new.limit ≡ self.old.limit }
        ensures err { OnErr result (self.new ≡ self.old) }
    {
        let Ok(()) = make_room(&mut self.table, id) else {
            return Err(OutOfMemory);
        };
        let entities = self.table.len();
        prove!(entities < usize::MAX);
        let keys = keys_of(&self.table, id);
        let moving = Moving { gone, come };
        match move_parts(self.alloc, &mut self.store, &mut self.names, keys, moving) {
            Ok(PartsExchange { keys, change }) => {
                drop(keys);
                replace(&mut self.pages, &mut self.table, id, after, None);
                self.holders.remove(id, MappingVersion::One);
                self.holders.remove(id, MappingVersion::Two);
                Ok(change)
            }
            Err(_) => Err(OutOfMemory),
        }
    }
}
