// What the entities hold, with the triples that two pages may share.

ghost use Rattle.std.specs.Prelude.{◌≡◌, ◌<◌, ◌≤◌, ◌||◌, ◌++◌, [], false, true, None, Some, Err, IfOk, MatchOption, OnErr, OnOk};
ghost use Rattle.std.specs.FinMap as map;
ghost use Rattle.std.specs.List.{AllByRecursion};
ghost use Rattle.sorted_sets.specs.Rising.{has, sorted};
ghost use Rattle.rdf_term.specs.{Fit.HasFitAndShortTerms, Order.triple_cmp};
ghost use Rattle.term_pool.specs.declared.fault.PoolFault.TheVariants.{Full};
ghost use Rattle.entity_state.specs.Standing.{standing_of};
ghost use Rattle.replay_model.specs.{Records.record_of, Union.owners, Versions.meaning_by, Versions.version_at};
ghost use Rattle.fetched_pages.specs.Meaning.{meaning};
ghost use Rattle.shared_triples.specs.Lean.{stored_of, triples_of};
ghost use Rattle.entity_model.specs.{EntityId.entity_cmp, declared.id.EntityId.EntityId as TheId};
ghost use Rattle.entity_counts.specs.Naming.{counted_in, is_counted, pages_naming};
ghost use Rattle.holders.specs.{Holding.AreHolders, Roomed.HasRoom, Roomed.room_with};
ghost use Rattle.lean_holdings.specs.{Changing.shared_by, Holding.counted_by, Holding.strangers_on};

use crate::counting::{count_page, meant_texts};
use crate::kept::LeanPage;
use crate::records::{keep_record, make_room, read_held, standing_in, version_in};
use entity_counts::EntityCounts;
use entity_model::{EntityId, MappingVersion};
use entity_state::{Standing, Table};
use fetched_pages::Wanted;
use holders::{Holders, discard_store};
use page_packing::{PackedPages, Unpacker, dictionary};
use rdf_term::{List, OutOfMemory};
use std::alloc::Global;
use std::hash::RandomState;
use std::marker::Model;
use triple_store::{Store, StoreFault};
use triple_texts::TripleTexts;

/// The records of the entities, their pages, packed, and a store of those triples of the pages that do not stand in one page alone. A
/// triple stands in a page alone where it belongs to the page's entity and this isn't counted; an entity is counted where another's page
/// names it. Contracts see the records, each with the bytes that its entity holds, how many terms there may be, the entities whose pages
/// are mapped by version Two, and how many pages name each entity that is counted.
#[derive(Drop)]
pub struct LeanHoldings {
    pub(crate) alloc: Global,
    pub(crate) store: Store,
    pub(crate) pages: PackedPages,
    pub(crate) table: Table<LeanPage>,
    pub(crate) names: EntityCounts,
    pub(crate) holders: Holders,
}

impl Model for LeanHoldings {
    ghost use Rattle.triple_store.specs.StoreState.{limit_of};
    ghost use Rattle.lean_holdings.specs.{Codes.lean_code, InStep.AreInStep, InStep.LeanState, Kept.seen};

    ghost Value = { LeanState };

    ghost coded = { lean_code };

    ghost view = { λ a. record {
      records = seen a.pages a.table.records;
      limit = limit_of a.store;
      by_two = a.holders.by_two;
      names = a.names;
    } };

    ghost invariant = { λ a. AreInStep a.store a.pages a.names a.holders a.table.records };
}

impl LeanHoldings {
    /// No record, and at most so many terms in the store. The hashes of the table and of the store are keyed by `keys`.
    pub fn new(alloc: Global, keys: RandomState, limit: u32) -> Result<LeanHoldings, OutOfMemory>
        ensures { IfOk result (λ holdings. holdings ≡ record { records = map.empty; limit = limit; by_two = []; names = map.empty }) }
    {
        let table = Table::new(alloc, keys)?;
        let Ok(store) = Store::new(alloc, keys, limit) else {
            drop(table);
            return Err(OutOfMemory);
        };
        let Ok(pages) = PackedPages::new(alloc, dictionary()) else {
            drop(table);
            discard_store(store);
            return Err(OutOfMemory);
        };
        Ok(LeanHoldings {
            alloc,
            store,
            pages,
            table,
            names: EntityCounts::new(alloc),
            holders: Holders::new(alloc),
        })
    }

    /// What is stored has room, and so has what two pages may share; the number of the pages that name an entity is that of those which
    /// hold such a page; and what is named as mapped by version Two is held. It does nothing but to say so.
    pub fn facts(&self)
        ensures room { HasRoom (stored_of (counted_by self.now.names) (meaning_by meaning self.now.by_two))
            self.now.limit self.now.records }
        ensures shared { HasRoom (shared_by (meaning_by meaning self.now.by_two) self.now.records) self.now.limit self.now.records }
        ensures named { (x : TheId) → pages_naming self.now.names x
            ≡ owners entity_cmp (strangers_on (meaning_by meaning self.now.by_two)) self.now.records x }
        ensures holders { AreHolders self.now.by_two self.now.records }
    {
        let _ = &self.store;
    }

    /// What stands of an entity's record.
    pub fn standing(&self, id: EntityId) -> Standing
        ensures { result ≡ standing_of (record_of self.now.records id) }
    {
        standing_in(&self.table, id)
    }

    /// Whether an entity is counted, since another's page names it.
    pub fn is_counted(&self, id: EntityId) -> bool
        ensures { result ≡ is_counted self.now.names id }
    {
        self.names.is_counted(id)
    }

    /// The version by which the page of an entity is mapped, if it holds one.
    pub fn version_of(&self, id: EntityId) -> MappingVersion
        ensures { result ≡ version_at self.now.by_two id }
    {
        version_in(&self.holders, id)
    }

    /// The revision that an entity holds, whose bytes are unpacked into a buffer. After `OutOfMemory`, and where nothing is held, the
    /// buffer may hold any text.
    pub fn held(&self, id: EntityId, page: &mut Unpacker) -> Result<Option<u64>, OutOfMemory>
        ensures { IfOk result (λ held. MatchOption held ((record_of self.now.records id).held ≡ None)
            (λ revision. (record_of self.now.records id).held ≡ Some (record { revision = revision; content = page.new }))) }
    {
        read_held(&self.pages, &self.table, id, page)
    }

    /// The ids of the entities with a record, in rising order.
    pub fn entities(&self) -> Result<List<EntityId>, OutOfMemory>
        ensures { IfOk result (λ ids. ids ≡ map.keys self.now.records) }
    {
        self.table.ids(self.alloc)
    }

    /// How many distinct terms the stored triples have, which are at least those that two pages may share.
    pub fn terms(&self) -> u32
        ensures count { result
            ≡ room_with (stored_of (counted_by self.now.names) (meaning_by meaning self.now.by_two)) self.now.records [] }
        ensures least { room_with (shared_by (meaning_by meaning self.now.by_two) self.now.records) self.now.records [] ≤ result }
        ensures within { result ≤ self.now.limit }
    {
        self.store.terms()
    }

    /// Sets the record of an entity, which holds what it held. After `OutOfMemory` nothing has changed.
    pub fn keep(&mut self, id: EntityId, after: Standing) -> Result<(), OutOfMemory>
        ensures records { OnOk result (self.new.records ≡ map.insert self.old.records id (record {
          state = after.state;
          held = (record_of self.old.records id).held;
          reconciled = after.reconciled;
        })) }
        ensures by_two { self.new.by_two ≡ self.old.by_two }
        ensures names { self.new.names ≡ self.old.names }
        ensures limit { self.new.limit ≡ self.old.limit }
        ensures err { OnErr result (self.new ≡ self.old) }
        ensures refused { OnErr result (map.contains_key self.old.records id ≡ false) }
    {
        let Ok(()) = make_room(&mut self.table, id) else {
            return Err(OutOfMemory);
        };
        keep_record(&mut self.table, id, after);
        Ok(())
    }

    /// Counts an entity, since another's page names it, and stores all triples of the page that it holds, which is unpacked into a buffer.
    /// Nothing is told of it, since no triple comes to the pages or goes. After a fault nothing has changed. The fault is `Full` if the
    /// page's triples, with the stored ones, have more distinct terms than the limit.
    pub fn count_in(&mut self, id: EntityId, buffer: &mut Unpacker) -> Result<(), StoreFault>
        ensures records { self.new.records ≡ self.old.records }
        ensures by_two { self.new.by_two ≡ self.old.by_two }
        ensures names { OnOk result (self.new.names ≡ counted_in self.old.names id) }
        ensures limit { self.new.limit ≡ self.old.limit }
        ensures err { OnErr result (self.new ≡ self.old) }
        ensures full { result ≡ Err Full → self.old.limit
            < room_with (stored_of (counted_by self.old.names) (meaning_by meaning self.old.by_two)) self.old.records
            (triples_of (meaning_by meaning self.old.by_two) self.old.records id) }
    {
        if self.names.is_counted(id) {
            return Ok(());
        }
        // A triple has at most as many owners as there are records, so no count is saturated.
        let entities = self.table.len();
        prove!(entities < usize::MAX);
        let Ok(page) = self.page_texts(id, buffer) else {
            return Err(StoreFault::OutOfMemory);
        };
        let counted = count_page(&mut self.store, &mut self.table, &mut self.names, id, &page);
        drop(page);
        match counted {
            Ok(()) => Ok(()),
            Err(fault) => Err(fault),
        }
    }

    /// Counts these entities, since another's page names them, as `count_in` does. After a fault some of them may be counted; everything
    /// else is as it was. The fault is `Full` if the triples that are stored where all of them are counted have more distinct terms than
    /// the limit.
    pub fn count_all(&mut self, ids: &[EntityId], buffer: &mut Unpacker) -> Result<(), StoreFault>
        ensures records { self.new.records ≡ self.old.records }
        ensures by_two { self.new.by_two ≡ self.old.by_two }
        ensures limit { self.new.limit ≡ self.old.limit }
        ensures counted { OnOk result ((x : TheId) → has entity_cmp x (counted_by self.new.names)
            ≡ (has entity_cmp x ids.now || has entity_cmp x (counted_by self.old.names))) }
        ensures among { (x : TheId) → has entity_cmp x (counted_by self.new.names) ≡ true →
            (has entity_cmp x ids.now || has entity_cmp x (counted_by self.old.names)) ≡ true }
        ensures named { (x : TheId) → pages_naming self.new.names x ≡ pages_naming self.old.names x }
        ensures full { result ≡ Err Full → self.old.limit
            < room_with (stored_of (ids.now ++ counted_by self.old.names) (meaning_by meaning self.old.by_two)) self.old.records [] }
    {
        for id in ids {
            self.count_in(*id, buffer)?;
        }
        Ok(())
    }

    // The triples of the page that an entity holds, which is unpacked into a buffer: none where it holds none.
    fn page_texts(&self, id: EntityId, buffer: &mut Unpacker) -> Result<TripleTexts, OutOfMemory>
        ensures value { IfOk result (λ texts. sorted triple_cmp texts
            ≡ triples_of (meaning_by meaning self.now.by_two) self.now.records id) }
        ensures fit { IfOk result (AllByRecursion HasFitAndShortTerms) }
    {
        let Some(rev) = self.held(id, buffer)? else {
            return Ok(TripleTexts::new(self.alloc));
        };
        let version = version_in(&self.holders, id);
        meant_texts(self.alloc, Wanted { id, rev, version }, buffer.text())
    }
}

/// Gives back the memory of holdings. So the drop of all that they own is proved here, and not in each crate that has them.
pub fn discard(holdings: LeanHoldings) {
    let LeanHoldings {
        alloc: _,
        store,
        pages,
        table,
        names,
        holders,
    } = holdings;
    discard_store(store);
    drop(pages);
    drop(table);
    drop(names);
    drop(holders);
}
