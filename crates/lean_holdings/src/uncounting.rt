// An entity is counted no longer.

ghost use Rattle.std.specs.Prelude.{◌≡◌, ◌<◌, true, false, List, IfOk, OnErr, OnOk};
ghost use Rattle.std.specs.FinMap as map;
ghost use Rattle.sorted_sets.specs.Rising.{has};
ghost use Rattle.entity_model.specs.{EntityId.entity_cmp, declared.id.EntityId.EntityId as TheId};
ghost use Rattle.replay_model.specs.Records.{record_of};
ghost use Rattle.fetched_pages.specs.Meaning.{meaning};
ghost use Rattle.entity_counts.specs.Naming.{is_counted, pages_naming};
ghost use Rattle.lean_holdings.specs.{Holding.counted_by, Moving.ArePartsOf};

use crate::counting::uncount_page;
use crate::holdings::LeanHoldings;
use crate::parts::{named_parts, no_parts};
use crate::records::version_in;
use entity_model::{EntityId, MappingVersion};
use fetched_pages::Wanted;
use page_packing::Unpacker;
use page_parts::NamedParts;
use rdf_term::OutOfMemory;

impl LeanHoldings {
    /// Counts an entity no longer, unless a page names it: what stands in its page alone isn't stored then. The page is unpacked into a
    /// buffer. Nothing is told of it, since no triple comes to the pages or goes. After `OutOfMemory` nothing has changed.
    pub fn count_out(&mut self, id: EntityId, buffer: &mut Unpacker) -> Result<(), OutOfMemory>
        ensures records { self.new.records ≡ self.old.records }
        ensures by_two { self.new.by_two ≡ self.old.by_two }
        ensures out { OnOk result (is_counted self.old.names id ≡ true → pages_naming self.old.names id ≡ 0 →
            self.new.names ≡ map.remove self.old.names id) }
        ensures uncounted { is_counted self.old.names id ≡ false → self.new.names ≡ self.old.names }
        ensures named { 0 < pages_naming self.old.names id → self.new.names ≡ self.old.names }
        ensures limit { self.new.limit ≡ self.old.limit }
        ensures err { OnErr result (self.new ≡ self.old) }
    {
        if !self.names.is_counted(id) || self.names.pages_naming(id) != 0 {
            return Ok(());
        }
        // A triple has at most as many owners as there are records, so no count is saturated.
        let entities = self.table.len();
        prove!(entities < usize::MAX);
        let version = version_in(&self.holders, id);
        let Ok(parts) = self.parts_where(id, version, false, buffer) else {
            return Err(OutOfMemory);
        };
        let counted = uncount_page(
            &mut self.store,
            &mut self.table,
            &mut self.names,
            id,
            parts.parts.shared(),
        );
        drop(parts);
        match counted {
            Ok(()) => Ok(()),
            Err(_) => Err(OutOfMemory),
        }
    }

    /// Counts these entities no longer, unless a page names them, as `count_out` does. It goes on where memory is refused for one of
    /// them: after `OutOfMemory` some of them may be counted still.
    pub fn count_out_all(
        &mut self,
        ids: &[EntityId],
        buffer: &mut Unpacker,
    ) -> Result<(), OutOfMemory>
        ensures records { self.new.records ≡ self.old.records }
        ensures by_two { self.new.by_two ≡ self.old.by_two }
        ensures limit { self.new.limit ≡ self.old.limit }
        ensures named { (x : TheId) → pages_naming self.new.names x ≡ pages_naming self.old.names x }
        ensures fewer { (x : TheId) → has entity_cmp x (counted_by self.new.names) ≡ true →
            has entity_cmp x (counted_by self.old.names) ≡ true }
        ensures out { OnOk result ((x : TheId) → has entity_cmp x ids.now ≡ true → pages_naming self.old.names x ≡ 0 →
            has entity_cmp x (counted_by self.new.names) ≡ false) }
    {
        let mut counted = Ok(());
        for id in ids {
            if self.count_out(*id, buffer).is_err() {
                counted = Err(OutOfMemory);
            }
        }
        counted
    }

    // Counts out all that no page names. Where memory is refused some of them may be counted still.
    pub(crate) fn count_out_unnamed(&mut self, buffer: &mut Unpacker) -> Result<(), OutOfMemory>
        ensures records { self.new.records ≡ self.old.records }
        ensures by_two { self.new.by_two ≡ self.old.by_two }
        ensures limit { self.new.limit ≡ self.old.limit }
        ensures named { (x : TheId) → pages_naming self.new.names x ≡ pages_naming self.old.names x }
        ensures fewer { (x : TheId) → has entity_cmp x (counted_by self.new.names) ≡ true →
            has entity_cmp x (counted_by self.old.names) ≡ true }
        ensures out { OnOk result ((x : TheId) → has entity_cmp x (counted_by self.new.names) ≡ true →
            0 < pages_naming self.old.names x) }
    {
        let ids = self.names.unnamed(self.alloc)?;
        let counted = self.count_out_all(ids.as_slice(), buffer);
        drop(ids);
        counted
    }

    // Counts out those that the page that went names, or, where the other page didn't come, those that this one names, unless a page names
    // them, and as far as there is memory for it.
    pub(crate) fn count_out_rest(
        &mut self,
        has_come: bool,
        gone: &NamedParts,
        come: &NamedParts,
        buffer: &mut Unpacker,
    )
        ensures records { self.new.records ≡ self.old.records }
        ensures by_two { self.new.by_two ≡ self.old.by_two }
        ensures limit { self.new.limit ≡ self.old.limit }
        ensures named { (x : TheId) → pages_naming self.new.names x ≡ pages_naming self.old.names x }
        ensures fewer { (x : TheId) → has entity_cmp x (counted_by self.new.names) ≡ true →
            has entity_cmp x (counted_by self.old.names) ≡ true }
    {
        let names = if has_come { &gone.names } else { &come.names };
        let _ = self.count_out_all(names.as_slice(), buffer);
    }

    // The parts of what an entity holds, mapped by a version. The page is unpacked into a buffer.
    pub(crate) fn held_parts(
        &self,
        id: EntityId,
        version: MappingVersion,
        buffer: &mut Unpacker,
    ) -> Result<NamedParts, OutOfMemory>
        ensures { (counted : List TheId) → has entity_cmp id counted ≡ has entity_cmp id (counted_by self.now.names) →
            IfOk result (ArePartsOf counted (meaning version) id (record_of self.now.records id).held) }
    {
        let is_counted = self.names.is_counted(id);
        self.parts_where(id, version, is_counted, buffer)
    }

    // The parts of what an entity holds, mapped by a version, where the entity is counted or isn't. The page is unpacked into a buffer.
    pub(crate) fn parts_where(
        &self,
        id: EntityId,
        version: MappingVersion,
        is_counted: bool,
        buffer: &mut Unpacker,
    ) -> Result<NamedParts, OutOfMemory>
        ensures { (counted : List TheId) → has entity_cmp id counted ≡ is_counted →
            IfOk result (ArePartsOf counted (meaning version) id (record_of self.now.records id).held) }
    {
        let Some(rev) = self.held(id, buffer)? else {
            return Ok(no_parts(self.alloc, id));
        };
        named_parts(
            self.alloc,
            Wanted { id, rev, version },
            buffer.text(),
            is_counted,
        )
    }
}
