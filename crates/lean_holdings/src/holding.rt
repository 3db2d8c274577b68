// An entity holds a page from now on, or holds nothing any longer.

ghost use Rattle.std.specs.Prelude.{◌≡◌, ◌⊎◌, ◌<◌, ◌≤◌, ◌||◌, ◌++◌, List, [], false, true, None, Some, Err, IfOk, OnErr, OnOk, length};
ghost use Rattle.std.specs.FinMap as map;
ghost use Rattle.sorted_sets.specs.Rising.{has};
ghost use Rattle.term_pool.specs.declared.fault.PoolFault.TheVariants.{Full};
ghost use Rattle.entity_model.specs.{EntityId.entity_cmp, declared.id.EntityId.EntityId as TheId};
ghost use Rattle.entity_model.specs.declared.mapping.MappingVersion.TheVariants.{One};
ghost use Rattle.replay_model.specs.{Records.record_of, Versions.is_holder, Versions.meaning_by, Versions.with_version};
ghost use Rattle.fetched_pages.specs.{Fetched.IsFetched, Fetched.bytes_of, Meaning.meaning};
ghost use Rattle.shared_triples.specs.Lean.{stored_of};
ghost use Rattle.entity_counts.specs.Naming.{pages_naming};
ghost use Rattle.lean_holdings.specs.Changing.{IsChangeOf, counted_with, held_triples, needs, needs_of};
ghost use Rattle.holders.specs.Roomed.{room_with};
ghost use Rattle.lean_holdings.specs.{Holding.counted_by, Moving.ArePartsOf};

use crate::holdings::LeanHoldings;
use crate::kept::held_of;
use crate::moving::{Coming, Moving};
use crate::parts::{fetched_difference, fetched_parts, named_parts, no_change, no_parts};
use crate::records::version_in;
use entity_model::EntityId;
use entity_state::Standing;
use fetched_pages::{FetchedPage, Wanted};
use page_packing::Unpacker;
use page_parts::NamedParts;
use parts_exchange::PartsChange;
use rdf_term::OutOfMemory;
use triple_store::StoreFault;

impl LeanHoldings {
    /// Sets the record of an entity, which holds the page of the wanted revision from now on, and tells the change of the triples that
    /// the held pages mean. All entities that the page names are counted then. Those that the page before it named, and that none names
    /// now, are counted no longer, as far as there is memory for it. Pages are unpacked into a buffer. After a fault an entity that no
    /// held page names may be counted or not, whichever it was before; everything else is as it was. The fault is `Full` if the triples
    /// that are to be stored have more distinct terms than the limit, where no entity is counted but those that pages name.
    pub fn hold(
        &mut self,
        wanted: Wanted,
        after: Standing,
        page: &FetchedPage,
        buffer: &mut Unpacker,
    ) -> Result<PartsChange, StoreFault>
        requires fetched { IsFetched self.old.records self.old.by_two wanted.version wanted.id wanted.rev page.now }
        requires short { length (bytes_of page.now) ≤ 8388608 }
        ensures records { OnOk result (self.new.records ≡ map.insert self.old.records wanted.id (record {
          state = after.state;
          held = Some (record { revision = wanted.rev; content = bytes_of page.now });
          reconciled = after.reconciled;
        })) }
        ensures by_two { OnOk result (self.new.by_two ≡ with_version wanted.version wanted.id self.old.by_two) }
        ensures change { IfOk result (IsChangeOf (held_triples self.old) (held_triples self.new)) }
        ensures limit { self.new.limit ≡ self.old.limit }
        ensures err { OnErr result (self.new.records ≡ self.old.records) }
        ensures err_by_two { OnErr result (self.new.by_two ≡ self.old.by_two) }
        ensures err_named { OnErr result ((x : TheId) → pages_naming self.new.names x ≡ pages_naming self.old.names x) }
        ensures counted { (x : TheId) → has entity_cmp x (counted_by self.new.names) ≡ true →
            has entity_cmp x (counted_with (counted_by self.old.names) wanted.id
            (meaning wanted.version wanted.id wanted.rev (bytes_of page.now))) ≡ true }
        ensures full { result ≡ Err Full →
            self.old.limit < needs_of (meaning_by meaning self.old.by_two) (meaning wanted.version) self.old.records wanted.id
            (Some (record { revision = wanted.rev; content = bytes_of page.now })) }
        ensures within { OnOk result (needs_of (meaning_by meaning self.old.by_two) (meaning wanted.version) self.old.records wanted.id
            (Some (record { revision = wanted.rev; content = bytes_of page.now })) ≤ self.old.limit) }
    {
        let bytes = page.bytes();
        let is_counted = self.names.is_counted(wanted.id);
        if let Some(difference) = fetched_difference(page, is_counted) {
            return self.hold_difference(wanted, after, bytes, difference, buffer);
        }
        if let Some(come) = fetched_parts(page, is_counted) {
            return self.hold_with(wanted, after, bytes, come, buffer);
        }
        let Ok(come) = named_parts(self.alloc, wanted, bytes, is_counted) else {
            return Err(StoreFault::OutOfMemory);
        };
        let held = self.hold_with(wanted, after, bytes, &come, buffer);
        drop(come);
        held
    }

    // The same with the parts of the page, tried once: there may be no room only because some are counted that no page names.
    pub(crate) fn hold_parts(
        &mut self,
        wanted: Wanted,
        after: Standing,
        page: &[u8],
        come: &NamedParts,
        buffer: &mut Unpacker,
    ) -> Result<PartsChange, StoreFault>
        requires short { length page.now ≤ 8388608 }
        requires come { (counted : List TheId) → has entity_cmp wanted.id counted ≡ has entity_cmp wanted.id (counted_by self.old.names) →
            ArePartsOf counted (meaning wanted.version) wanted.id (Some (record { revision = wanted.rev; content = page.now })) come.now }
        ensures records { OnOk result (self.new.records ≡ map.insert self.old.records wanted.id (record {
          state = after.state;
          held = Some (record { revision = wanted.rev; content = page.now });
          reconciled = after.reconciled;
        })) }
        ensures by_two { OnOk result (self.new.by_two ≡ with_version wanted.version wanted.id self.old.by_two) }
        ensures change { IfOk result (IsChangeOf (held_triples self.old) (held_triples self.new)) }
        ensures limit { self.new.limit ≡ self.old.limit }
        ensures err { OnErr result (self.new.records ≡ self.old.records) }
        ensures err_by_two { OnErr result (self.new.by_two ≡ self.old.by_two) }
        ensures err_named { OnErr result ((x : TheId) → pages_naming self.new.names x ≡ pages_naming self.old.names x) }
        ensures counted { (x : TheId) → has entity_cmp x (counted_by self.new.names) ≡ true →
            has entity_cmp x (counted_with (counted_by self.old.names) wanted.id
            (meaning wanted.version wanted.id wanted.rev page.now)) ≡ true }
        ensures full { result ≡ Err Full →
            self.old.limit < needs self.old wanted.version wanted.id (Some (record { revision = wanted.rev; content = page.now })) }
        ensures within { OnOk result (needs self.old wanted.version wanted.id (Some (record { revision = wanted.rev; content = page.now }))
            ≤ self.old.limit) }
    {
        match self.make_ready(wanted.id, come.names.as_slice(), buffer) {
            Ok(gone) => {
                let coming = Coming::Whole(Moving { gone: &gone, come });
                let held = self.put_page(wanted, after, page, coming);
                self.count_out_rest(held.is_ok(), &gone, come, buffer);
                drop(gone);
                held
            }
            Err(fault) => {
                let _ = self.count_out_all(come.names.as_slice(), buffer);
                Err(fault)
            }
        }
    }

    /// Sets the record of an entity, which holds nothing from now on, and tells the change of the triples that the held pages mean. Those
    /// that its page named, and that none names now, are counted no longer, as far as there is memory for it. Pages are unpacked into a
    /// buffer. It takes memory only where there is no record or a page goes. After `OutOfMemory` nothing has changed.
    pub fn release(
        &mut self,
        id: EntityId,
        after: Standing,
        buffer: &mut Unpacker,
    ) -> Result<PartsChange, OutOfMemory>
        ensures records { OnOk result (self.new.records ≡ map.insert self.old.records id (record {
          state = after.state;
          held = None;
          reconciled = after.reconciled;
        })) }
        ensures by_two { OnOk result (self.new.by_two ≡ with_version One id self.old.by_two) }
        ensures change { IfOk result (IsChangeOf (held_triples self.old) (held_triples self.new)) }
        ensures limit { self.new.limit ≡ self.old.limit }
        ensures fewer { (x : TheId) → has entity_cmp x (counted_by self.new.names) ≡ true →
            has entity_cmp x (counted_by self.old.names) ≡ true }
        ensures err { OnErr result (self.new ≡ self.old) }
        ensures refused { OnErr result ((map.contains_key self.old.records id ≡ false) ⊎ (is_holder self.old.records id ≡ true)) }
    {
        if held_of(&self.table, id).is_none() {
            self.keep(id, after)?;
            return Ok(no_change(self.alloc));
        }
        self.release_page(id, after, buffer)
    }

    // The same where a page goes.
    fn release_page(
        &mut self,
        id: EntityId,
        after: Standing,
        buffer: &mut Unpacker,
    ) -> Result<PartsChange, OutOfMemory>
        ensures records { OnOk result (self.new.records ≡ map.insert self.old.records id (record {
          state = after.state;
          held = None;
          reconciled = after.reconciled;
        })) }
        ensures by_two { OnOk result (self.new.by_two ≡ with_version One id self.old.by_two) }
        ensures change { IfOk result (IsChangeOf (held_triples self.old) (held_triples self.new)) }
        ensures limit { self.new.limit ≡ self.old.limit }
        ensures fewer { (x : TheId) → has entity_cmp x (counted_by self.new.names) ≡ true →
            has entity_cmp x (counted_by self.old.names) ≡ true }
        ensures err { OnErr result (self.new ≡ self.old) }
    {
        let version = version_in(&self.holders, id);
        let gone = self.held_parts(id, version, buffer)?;
        let come = no_parts(self.alloc, id);
        let released = self.put_nothing(id, after, &gone, &come);
        if released.is_ok() {
            let _ = self.count_out_all(gone.names.as_slice(), buffer);
        }
        drop(gone);
        drop(come);
        released
    }

    // Counts these entities, and gives the parts of what an entity holds; pages are unpacked into a buffer. After a fault some of these
    // entities may be counted; everything else is as it was.
    pub(crate) fn make_ready(
        &mut self,
        id: EntityId,
        come: &[EntityId],
        buffer: &mut Unpacker,
    ) -> Result<NamedParts, StoreFault>
        ensures records { self.new.records ≡ self.old.records }
        ensures by_two { self.new.by_two ≡ self.old.by_two }
        ensures limit { self.new.limit ≡ self.old.limit }
        ensures counted { OnOk result ((x : TheId) → has entity_cmp x (counted_by self.new.names)
            ≡ (has entity_cmp x come.now || has entity_cmp x (counted_by self.old.names))) }
        ensures among { (x : TheId) → has entity_cmp x (counted_by self.new.names) ≡ true →
            (has entity_cmp x come.now || has entity_cmp x (counted_by self.old.names)) ≡ true }
        ensures named { (x : TheId) → pages_naming self.new.names x ≡ pages_naming self.old.names x }
        ensures gone { IfOk result (ArePartsOf (counted_by self.new.names) (meaning_by meaning self.new.by_two) id
            (record_of self.new.records id).held) }
        ensures full { result ≡ Err Full → self.old.limit
            < room_with (stored_of (come.now ++ counted_by self.old.names) (meaning_by meaning self.old.by_two)) self.old.records [] }
    {
        self.count_all(come, buffer)?;
        let version = version_in(&self.holders, id);
        match self.held_parts(id, version, buffer) {
            Ok(gone) => Ok(gone),
            Err(OutOfMemory) => Err(StoreFault::OutOfMemory),
        }
    }
}
