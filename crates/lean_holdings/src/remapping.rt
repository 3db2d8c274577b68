// What an entity holds is mapped by another version.

ghost use Rattle.std.specs.Prelude.{◌≡◌, ◌<◌, ◌≤◌, true, Err, IfOk, IfSome, OnErr, OnOk, length};
ghost use Rattle.term_pool.specs.declared.fault.PoolFault.TheVariants.{Full};
ghost use Rattle.sorted_sets.specs.Rising.{has};
ghost use Rattle.entity_model.specs.{EntityId.entity_cmp, declared.id.EntityId.EntityId as TheId};
ghost use Rattle.replay_model.specs.{Records.record_of, Union.triples_held};
ghost use Rattle.replay_model.specs.Versions.{all_by, is_holder, meaning_by, with_version};
ghost use Rattle.fetched_pages.specs.Meaning.{meaning};
ghost use Rattle.shared_triples.specs.Lean.{AreCounted, stored_of};
ghost use Rattle.entity_counts.specs.Naming.{pages_naming};
ghost use Rattle.lean_holdings.specs.Changing.{IsChangeOf, counted_with, held_triples, needs, needs_of};
ghost use Rattle.holders.specs.Roomed.{room_with};
ghost use Rattle.lean_holdings.specs.{Holding.counted_by, Moving.ArePartsOf};
ghost use Rattle.holders.specs.Holding.{first_of, stale_by, version_in};

use crate::holdings::LeanHoldings;
use crate::kept::keys_of;
use crate::moving::{Moving, move_parts};
use crate::storing::set_keys;
use entity_model::{EntityId, MappingVersion};
use holders::other;
use page_packing::Unpacker;
use page_parts::NamedParts;
use parts_exchange::{PartsChange, PartsExchange};
use triple_store::StoreFault;

impl LeanHoldings {
    /// Maps what an entity holds by a version, and tells the change of the triples that the held pages mean. All entities that the page
    /// names are counted then. Those that it named before, and that none names now, are counted no longer, as far as there is memory for
    /// it. Pages are unpacked into a buffer. After a fault an entity that no held page names may be counted or not, whichever it was
    /// before; everything else is as it was. The fault is `Full` if the triples that are to be stored have more distinct terms than the
    /// limit, where no entity is counted but those that pages name.
    pub fn remap(
        &mut self,
        id: EntityId,
        version: MappingVersion,
        buffer: &mut Unpacker,
    ) -> Result<PartsChange, StoreFault>
        requires { is_holder self.old.records id ≡ true }
        ensures records { self.new.records ≡ self.old.records }
        ensures by_two { OnOk result (self.new.by_two ≡ with_version version id self.old.by_two) }
        ensures change { IfOk result (IsChangeOf (held_triples self.old) (held_triples self.new)) }
        ensures limit { self.new.limit ≡ self.old.limit }
        ensures err_by_two { OnErr result (self.new.by_two ≡ self.old.by_two) }
        ensures err_named { OnErr result ((x : TheId) → pages_naming self.new.names x ≡ pages_naming self.old.names x) }
        ensures counted { (x : TheId) → has entity_cmp x (counted_by self.new.names) ≡ true →
            has entity_cmp x (counted_with (counted_by self.old.names) id
            (triples_held (meaning version) id (record_of self.old.records id).held)) ≡ true }
        ensures full { result ≡ Err Full → self.old.limit < needs_of (meaning_by meaning self.old.by_two) (meaning version)
            self.old.records id (record_of self.old.records id).held }
        ensures within { OnOk result (needs_of (meaning_by meaning self.old.by_two) (meaning version)
            self.old.records id (record_of self.old.records id).held ≤ self.old.limit) }
    {
        self.facts();
        match self.remap_once(id, version, buffer) {
            Ok(change) => Ok(change),
            Err(StoreFault::Full) => self.remap_again(id, version, buffer),
            Err(StoreFault::OutOfMemory) => Err(StoreFault::OutOfMemory),
        }
    }

    // The same, tried once: there may be no room only because some are counted that no page names.
    pub(crate) fn remap_once(
        &mut self,
        id: EntityId,
        version: MappingVersion,
        buffer: &mut Unpacker,
    ) -> Result<PartsChange, StoreFault>
        requires { is_holder self.old.records id ≡ true }
        ensures records { self.new.records ≡ self.old.records }
        ensures by_two { OnOk result (self.new.by_two ≡ with_version version id self.old.by_two) }
        ensures change { IfOk result (IsChangeOf (held_triples self.old) (held_triples self.new)) }
        ensures limit { self.new.limit ≡ self.old.limit }
        ensures err_by_two { OnErr result (self.new.by_two ≡ self.old.by_two) }
        ensures err_named { OnErr result ((x : TheId) → pages_naming self.new.names x ≡ pages_naming self.old.names x) }
        ensures counted { (x : TheId) → has entity_cmp x (counted_by self.new.names) ≡ true →
            has entity_cmp x (counted_with (counted_by self.old.names) id
            (triples_held (meaning version) id (record_of self.old.records id).held)) ≡ true }
        ensures full { result ≡ Err Full → self.old.limit < needs self.old version id (record_of self.old.records id).held }
        ensures within { OnOk result (needs self.old version id (record_of self.old.records id).held ≤ self.old.limit) }
    {
        let Ok(come) = self.held_parts(id, version, buffer) else {
            return Err(StoreFault::OutOfMemory);
        };
        match self.make_ready(id, come.names.as_slice(), buffer) {
            Ok(gone) => {
                let mapped = self.put_again(id, version, &gone, &come);
                self.count_out_rest(mapped.is_ok(), &gone, &come, buffer);
                drop(gone);
                drop(come);
                mapped
            }
            Err(fault) => {
                let _ = self.count_out_all(come.names.as_slice(), buffer);
                drop(come);
                Err(fault)
            }
        }
    }

    // The page of an entity has these parts from now on, those of a version, in the place of those that it had. All that it names are
    // counted. After a fault nothing has changed.
    fn put_again<'x>(
        &mut self,
        id: EntityId,
        version: MappingVersion,
        gone: &'x NamedParts,
        come: &'x NamedParts,
    ) -> Result<PartsChange, StoreFault>
        requires holds { is_holder self.old.records id ≡ true }
        requires gone { ArePartsOf (counted_by self.old.names) (meaning_by meaning self.old.by_two) id
            (record_of self.old.records id).held gone.now }
        requires come { ArePartsOf (counted_by self.old.names) (meaning version) id (record_of self.old.records id).held come.now }
        requires known { AreCounted (counted_by self.old.names) come.now.names.items }
        ensures records { self.new.records ≡ self.old.records }
        ensures by_two { OnOk result (self.new.by_two ≡ with_version version id self.old.by_two) }
        ensures change { IfOk result (IsChangeOf (held_triples self.old) (held_triples self.new)) }
        ensures counted { OnOk result (counted_by self.new.names ≡ counted_by self.old.names) }
        ensures limit { self.new.limit ≡ self.old.limit }
        ensures err { OnErr result (self.new ≡ self.old) }
        ensures full { result ≡ Err Full → self.old.limit
            < room_with (stored_of (counted_by self.old.names) (meaning_by meaning self.old.by_two)) self.old.records
            come.now.parts.shared }
        ensures within { OnOk result (room_with (stored_of (counted_by self.old.names) (meaning_by meaning self.old.by_two))
            self.old.records come.now.parts.shared ≤ self.old.limit) }
    {
        let entities = self.table.len();
        prove!(entities < usize::MAX);
        let Ok(added) = self.holders.add(id, version) else {
            return Err(StoreFault::OutOfMemory);
        };
        let keys = keys_of(&self.table, id);
        let moving = Moving { gone, come };
        match move_parts(self.alloc, &mut self.store, &mut self.names, keys, moving) {
            Ok(PartsExchange { keys, change }) => {
                set_keys(&mut self.table, id, keys);
                self.holders.remove(id, other(version));
                Ok(change)
            }
            Err(refused) => {
                self.holders.take_back(id, version, added);
                Err(refused)
            }
        }
    }

    /// The version by which the held page of an entity is mapped, if it holds one.
    pub fn held_version(&self, id: EntityId) -> Option<MappingVersion>
        ensures { result ≡ version_in self.now.by_two self.now.records id }
    {
        if self.holders.has(id, MappingVersion::Two) {
            Some(MappingVersion::Two)
        } else if self.holders.has(id, MappingVersion::One) {
            Some(MappingVersion::One)
        } else {
            None
        }
    }

    /// The least entity whose held page is mapped by another version than this one.
    pub fn next_stale(&self, version: MappingVersion) -> Option<EntityId>
        ensures entity { result ≡ first_of (stale_by version self.now.by_two self.now.records) }
        ensures holder { IfSome result (λ entity. is_holder self.now.records entity ≡ true) }
    {
        self.holders.least(other(version))
    }

    /// How many such entities there are.
    pub fn stale(&self, version: MappingVersion) -> usize
        ensures count { result ≡ length (stale_by version self.now.by_two self.now.records) }
        ensures none { result ≡ 0 → self.now.by_two ≡ all_by version self.now.records }
    {
        self.holders.len(other(version))
    }
}
