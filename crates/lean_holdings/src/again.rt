// A step is tried once more where there was no room for it: once no entity is counted but those that pages name.

ghost use Rattle.std.specs.Prelude.{◌≡◌, ◌<◌, ◌≤◌, true, List, Some, Err, IfOk, OnErr, OnOk, length};
ghost use Rattle.std.specs.FinMap as map;
ghost use Rattle.sorted_sets.specs.Rising.{has};
ghost use Rattle.term_pool.specs.declared.fault.PoolFault.TheVariants.{Full};
ghost use Rattle.entity_model.specs.{EntityId.entity_cmp, declared.id.EntityId.EntityId as TheId};
ghost use Rattle.replay_model.specs.{Records.record_of, Union.triples_held};
ghost use Rattle.replay_model.specs.Versions.{is_holder, meaning_by, with_version};
ghost use Rattle.fetched_pages.specs.Meaning.{meaning};
ghost use Rattle.entity_counts.specs.Naming.{pages_naming};
ghost use Rattle.lean_holdings.specs.Changing.{IsChangeOf, counted_with, held_triples, needs_of};
ghost use Rattle.lean_holdings.specs.{Holding.counted_by, Moving.ArePartsOf};

use crate::holdings::LeanHoldings;
use crate::parts::named_parts;
use entity_model::{EntityId, MappingVersion};
use entity_state::Standing;
use fetched_pages::Wanted;
use page_packing::Unpacker;
use page_parts::NamedParts;
use parts_exchange::PartsChange;
use triple_store::StoreFault;

impl LeanHoldings {
    // `hold` with the parts of the page. Where there is no room for it, those that no page names are counted out, and it is tried again.
    pub(crate) fn hold_with(
        &mut self,
        wanted: Wanted,
        after: Standing,
        page: &[u8],
        come: &NamedParts,
        buffer: &mut Unpacker,
    ) -> Result<PartsChange, StoreFault>
        requires short { length page.now ≤ 8388608 }
        requires come { (counted : List TheId) → has entity_cmp wanted.id counted ≡ has entity_cmp wanted.id (counted_by self.old.names) →
            ArePartsOf counted (meaning wanted.version) wanted.id (Some (record { revision = wanted.rev; content = page.now })) come.now }
        ensures records { OnOk result (self.new.records ≡ map.insert self.old.records wanted.id (record {
          state = after.state;
          held = Some (record { revision = wanted.rev; content = page.now });
          reconciled = after.reconciled;
        })) }
        ensures by_two { OnOk result (self.new.by_two ≡ with_version wanted.version wanted.id self.old.by_two) }
        ensures change { IfOk result (IsChangeOf (held_triples self.old) (held_triples self.new)) }
        ensures limit { self.new.limit ≡ self.old.limit }
        ensures err { OnErr result (self.new.records ≡ self.old.records) }
        ensures err_by_two { OnErr result (self.new.by_two ≡ self.old.by_two) }
        ensures err_named { OnErr result ((x : TheId) → pages_naming self.new.names x ≡ pages_naming self.old.names x) }
        ensures counted { (x : TheId) → has entity_cmp x (counted_by self.new.names) ≡ true →
            has entity_cmp x (counted_with (counted_by self.old.names) wanted.id
            (meaning wanted.version wanted.id wanted.rev page.now)) ≡ true }
        ensures full { result ≡ Err Full →
            self.old.limit < needs_of (meaning_by meaning self.old.by_two) (meaning wanted.version) self.old.records wanted.id
            (Some (record { revision = wanted.rev; content = page.now })) }
        ensures within { OnOk result (needs_of (meaning_by meaning self.old.by_two) (meaning wanted.version) self.old.records wanted.id
            (Some (record { revision = wanted.rev; content = page.now })) ≤ self.old.limit) }
    {
        self.facts();
        match self.hold_parts(wanted, after, page, come, buffer) {
            Ok(change) => Ok(change),
            Err(StoreFault::Full) => self.hold_again(wanted, after, page, buffer),
            Err(StoreFault::OutOfMemory) => Err(StoreFault::OutOfMemory),
        }
    }

    // `hold` after those that no page names are counted out.
    pub(crate) fn hold_again(
        &mut self,
        wanted: Wanted,
        after: Standing,
        page: &[u8],
        buffer: &mut Unpacker,
    ) -> Result<PartsChange, StoreFault>
        requires short { length page.now ≤ 8388608 }
        ensures records { OnOk result (self.new.records ≡ map.insert self.old.records wanted.id (record {
          state = after.state;
          held = Some (record { revision = wanted.rev; content = page.now });
          reconciled = after.reconciled;
        })) }
        ensures by_two { OnOk result (self.new.by_two ≡ with_version wanted.version wanted.id self.old.by_two) }
        ensures change { IfOk result (IsChangeOf (held_triples self.old) (held_triples self.new)) }
        ensures limit { self.new.limit ≡ self.old.limit }
        ensures err { OnErr result (self.new.records ≡ self.old.records) }
        ensures err_by_two { OnErr result (self.new.by_two ≡ self.old.by_two) }
        ensures err_named { OnErr result ((x : TheId) → pages_naming self.new.names x ≡ pages_naming self.old.names x) }
        ensures counted { (x : TheId) → has entity_cmp x (counted_by self.new.names) ≡ true →
            has entity_cmp x (counted_with (counted_by self.old.names) wanted.id
            (meaning wanted.version wanted.id wanted.rev page.now)) ≡ true }
        ensures full { result ≡ Err Full →
            self.old.limit < needs_of (meaning_by meaning self.old.by_two) (meaning wanted.version) self.old.records wanted.id
            (Some (record { revision = wanted.rev; content = page.now })) }
        ensures within { OnOk result (needs_of (meaning_by meaning self.old.by_two) (meaning wanted.version) self.old.records wanted.id
            (Some (record { revision = wanted.rev; content = page.now })) ≤ self.old.limit) }
    {
        self.facts();
        if self.count_out_unnamed(buffer).is_err() {
            return Err(StoreFault::OutOfMemory);
        }
        let is_counted = self.names.is_counted(wanted.id);
        let Ok(come) = named_parts(self.alloc, wanted, page, is_counted) else {
            return Err(StoreFault::OutOfMemory);
        };
        let held = self.hold_parts(wanted, after, page, &come, buffer);
        drop(come);
        held
    }

    // `remap` after those that no page names are counted out.
    pub(crate) fn remap_again(
        &mut self,
        id: EntityId,
        version: MappingVersion,
        buffer: &mut Unpacker,
    ) -> Result<PartsChange, StoreFault>
        requires { is_holder self.old.records id ≡ true }
        ensures records { self.new.records ≡ self.old.records }
        ensures by_two { OnOk result (self.new.by_two ≡ with_version version id self.old.by_two) }
        ensures change { IfOk result (IsChangeOf (held_triples self.old) (held_triples self.new)) }
        ensures limit { self.new.limit ≡ self.old.limit }
        ensures err_by_two { OnErr result (self.new.by_two ≡ self.old.by_two) }
        ensures err_named { OnErr result ((x : TheId) → pages_naming self.new.names x ≡ pages_naming self.old.names x) }
        ensures counted { (x : TheId) → has entity_cmp x (counted_by self.new.names) ≡ true →
            has entity_cmp x (counted_with (counted_by self.old.names) id
            (triples_held (meaning version) id (record_of self.old.records id).held)) ≡ true }
        ensures full { result ≡ Err Full → self.old.limit < needs_of (meaning_by meaning self.old.by_two) (meaning version)
            self.old.records id (record_of self.old.records id).held }
        ensures within { OnOk result (needs_of (meaning_by meaning self.old.by_two) (meaning version)
            self.old.records id (record_of self.old.records id).held ≤ self.old.limit) }
    {
        self.facts();
        if self.count_out_unnamed(buffer).is_err() {
            return Err(StoreFault::OutOfMemory);
        }
        self.remap_once(id, version, buffer)
    }
}
