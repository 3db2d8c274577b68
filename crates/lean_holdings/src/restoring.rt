// A record is put back as it was saved.

ghost use Rattle.std.specs.Prelude.{◌≡◌, ◌≢◌, ◌⊎◌, ◌<◌, ◌≤◌, false, true, None, Some, IsErrOf, OnErr, OnOk, is_some};
ghost use Rattle.std.specs.FinMap as map;
ghost use Rattle.sorted_sets.specs.Rising.{has};
ghost use Rattle.entity_model.specs.{EntityId.entity_cmp, declared.id.EntityId.EntityId as TheId};
ghost use Rattle.entity_json.specs.Document.{unfit_of};
ghost use Rattle.replay_model.specs.{Replies.HoldsDocument, Union.triples_held};
ghost use Rattle.replay_model.specs.Versions.{is_holder, meaning_by, with_version};
ghost use Rattle.fetched_pages.specs.Meaning.{meaning};
ghost use Rattle.entity_counts.specs.Naming.{pages_naming};
ghost use Rattle.lean_holdings.specs.{Changing.by_two_with, Changing.counted_with, Changing.needs_of, Holding.counted_by};
ghost use Rattle.lean_holdings.specs.declared.restoring.RestoreFault.TheVariants.{Full, OutOfMemory as RestoreOutOfMemory, Unsound};

use crate::holdings::LeanHoldings;
use crate::parts::document_parts;
use entity_json::DocumentFault;
use entity_model::{EntityId, MappingVersion};
use entity_state::{Record, Standing};
use fetched_pages::Wanted;
use page_packing::Unpacker;
use rdf_term::{OutOfMemory, Text};
use triple_store::StoreFault;

/// Why a record isn't put back.
#[derive(Clone, Copy)]
pub enum RestoreFault {
    /// Its page is no document of its entity.
    Unsound,
    /// The triples that are to be stored have, with the stored ones, more distinct terms than the limit.
    Full,
    /// A request for memory was refused.
    OutOfMemory,
}

impl LeanHoldings {
    /// Puts back the record of an entity; the page that it holds is mapped by the version. All entities that the page names are counted
    /// then; pages are unpacked into a buffer. After a fault an entity that no held page names may be counted or not, whichever it was
    /// before; everything else is as it was. `Unsound` is said of a page that is no document of the entity.
    pub fn restore(
        &mut self,
        id: EntityId,
        entity: &Record<Text>,
        version: MappingVersion,
        buffer: &mut Unpacker,
    ) -> Result<(), RestoreFault>
        ensures records { OnOk result (self.new.records ≡ map.insert self.old.records id entity.now) }
        ensures by_two { OnOk result (self.new.by_two ≡ by_two_with version id entity.now.held self.old.by_two) }
        ensures document { OnOk result (HoldsDocument unfit_of id entity.now.held) }
        ensures document_if_full { IsErrOf result Full → HoldsDocument unfit_of id entity.now.held }
        ensures unsound { IsErrOf result Unsound → ¬ (HoldsDocument unfit_of id entity.now.held) }
        ensures refused { IsErrOf result RestoreOutOfMemory → (is_some entity.now.held ≡ true)
            ⊎ ((map.contains_key self.old.records id ≡ false) ⊎ (is_holder self.old.records id ≡ true)) }
        ensures limit { self.new.limit ≡ self.old.limit }
        ensures full { IsErrOf result Full → self.old.limit
            < needs_of (meaning_by meaning self.old.by_two) (meaning version) self.old.records id entity.now.held }
        ensures within { OnOk result (needs_of (meaning_by meaning self.old.by_two) (meaning version) self.old.records id entity.now.held
            ≤ self.old.limit) }
        ensures err { OnErr result (self.new.records ≡ self.old.records) }
        ensures err_by_two { OnErr result (self.new.by_two ≡ self.old.by_two) }
        ensures err_named { OnErr result ((x : TheId) → pages_naming self.new.names x ≡ pages_naming self.old.names x) }
        ensures counted { (x : TheId) → has entity_cmp x (counted_by self.new.names) ≡ true →
            has entity_cmp x (counted_with (counted_by self.old.names) id
            (triples_held (meaning version) id entity.now.held)) ≡ true }
    {
        let after = Standing {
            state: entity.state,
            held: None,
            reconciled: entity.reconciled,
        };
        match &entity.held {
            Some(held) => {
                let rev = held.revision;
                let wanted = Wanted { id, rev, version };
                self.restore_page(wanted, after, held.content.as_bytes(), buffer)
            }
            None => {
                self.facts();
                match self.release(id, after, buffer) {
                    Ok(change) => {
                        drop(change);
                        Ok(())
                    }
                    Err(OutOfMemory) => Err(RestoreFault::OutOfMemory),
                }
            }
        }
    }

    // Puts back the record of an entity that holds a page; its state may be of another revision, whose fetch gave no document.
    fn restore_page(
        &mut self,
        wanted: Wanted,
        after: Standing,
        page: &[u8],
        buffer: &mut Unpacker,
    ) -> Result<(), RestoreFault>
        ensures records { OnOk result (self.new.records ≡ map.insert self.old.records wanted.id (record {
          state = after.state;
          held = Some (record { revision = wanted.rev; content = page.now });
          reconciled = after.reconciled;
        })) }
        ensures by_two { OnOk result (self.new.by_two ≡ with_version wanted.version wanted.id self.old.by_two) }
        ensures document { OnOk result (unfit_of wanted.id page.now ≡ None) }
        ensures document_if_full { IsErrOf result Full → unfit_of wanted.id page.now ≡ None }
        ensures unsound { IsErrOf result Unsound → unfit_of wanted.id page.now ≢ None }
        ensures limit { self.new.limit ≡ self.old.limit }
        ensures full { IsErrOf result Full →
            self.old.limit < needs_of (meaning_by meaning self.old.by_two) (meaning wanted.version) self.old.records wanted.id
            (Some (record { revision = wanted.rev; content = page.now })) }
        ensures within { OnOk result (needs_of (meaning_by meaning self.old.by_two) (meaning wanted.version) self.old.records wanted.id
            (Some (record { revision = wanted.rev; content = page.now })) ≤ self.old.limit) }
        ensures err { OnErr result (self.new.records ≡ self.old.records) }
        ensures err_by_two { OnErr result (self.new.by_two ≡ self.old.by_two) }
        ensures err_named { OnErr result ((x : TheId) → pages_naming self.new.names x ≡ pages_naming self.old.names x) }
        ensures counted { (x : TheId) → has entity_cmp x (counted_by self.new.names) ≡ true →
            has entity_cmp x (counted_with (counted_by self.old.names) wanted.id
            (meaning wanted.version wanted.id wanted.rev page.now)) ≡ true }
    {
        let is_counted = self.names.is_counted(wanted.id);
        match document_parts(self.alloc, wanted, page, is_counted) {
            Ok(come) => {
                let held = self.hold_with(wanted, after, page, &come, buffer);
                drop(come);
                match held {
                    Ok(change) => {
                        drop(change);
                        Ok(())
                    }
                    Err(StoreFault::Full) => Err(RestoreFault::Full),
                    Err(StoreFault::OutOfMemory) => Err(RestoreFault::OutOfMemory),
                }
            }
            Err(DocumentFault::Unfit(_)) => Err(RestoreFault::Unsound),
            Err(DocumentFault::OutOfMemory) => Err(RestoreFault::OutOfMemory),
        }
    }
}
