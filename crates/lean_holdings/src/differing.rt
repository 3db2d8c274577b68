// An entity holds a page from now on, of which it is known what it and the one before it have of their own.

ghost use Rattle.std.specs.Prelude.{◌≡◌, ◌<◌, ◌≤◌, true, Some, Err, IfOk, OnErr, OnOk, length};
ghost use Rattle.std.specs.FinMap as map;
ghost use Rattle.sorted_sets.specs.Rising.{has};
ghost use Rattle.term_pool.specs.declared.fault.PoolFault.TheVariants.{Full};
ghost use Rattle.entity_model.specs.{EntityId.entity_cmp, declared.id.EntityId.EntityId as TheId};
ghost use Rattle.page_parts.specs.Apart.{AreApart};
ghost use Rattle.replay_model.specs.{Records.record_of, Union.triples_held, Versions.meaning_by, Versions.with_version};
ghost use Rattle.fetched_pages.specs.Meaning.{meaning};
ghost use Rattle.entity_counts.specs.Naming.{pages_naming};
ghost use Rattle.lean_holdings.specs.Changing.{IsChangeOf, counted_with, held_triples, needs_of};
ghost use Rattle.lean_holdings.specs.Holding.{counted_by};

use crate::holdings::LeanHoldings;
use crate::moving::Coming;
use entity_state::Standing;
use fetched_pages::Wanted;
use page_packing::Unpacker;
use page_parts::PageDifference;
use parts_exchange::PartsChange;
use triple_store::StoreFault;

impl LeanHoldings {
    // `hold` with what the page and the held one have of their own. Both name the same entities, so none is counted or counted no longer.
    // Where there is no room for it, those that no page names are counted out, and it is tried again with all of the page.
    pub(crate) fn hold_difference(
        &mut self,
        wanted: Wanted,
        after: Standing,
        page: &[u8],
        difference: &PageDifference,
        buffer: &mut Unpacker,
    ) -> Result<PartsChange, StoreFault>
        requires short { length page.now ≤ 8388608 }
        requires apart { AreApart wanted.id (has entity_cmp wanted.id (counted_by self.old.names))
            (triples_held (meaning_by meaning self.old.by_two) wanted.id (record_of self.old.records wanted.id).held)
            (meaning wanted.version wanted.id wanted.rev page.now) difference.now }
        ensures records { OnOk result (self.new.records ≡ map.insert self.old.records wanted.id (record {
          state = after.state;
          held = Some (record { revision = wanted.rev; content = page.now });
          reconciled = after.reconciled;
        })) }
        ensures by_two { OnOk result (self.new.by_two ≡ with_version wanted.version wanted.id self.old.by_two) }
        ensures change { IfOk result (IsChangeOf (held_triples self.old) (held_triples self.new)) }
        ensures limit { self.new.limit ≡ self.old.limit }
        ensures err { OnErr result (self.new.records ≡ self.old.records) }
        ensures err_by_two { OnErr result (self.new.by_two ≡ self.old.by_two) }
        ensures err_named { OnErr result ((x : TheId) → pages_naming self.new.names x ≡ pages_naming self.old.names x) }
        ensures counted { (x : TheId) → has entity_cmp x (counted_by self.new.names) ≡ true →
            has entity_cmp x (counted_with (counted_by self.old.names) wanted.id
            (meaning wanted.version wanted.id wanted.rev page.now)) ≡ true }
        ensures full { result ≡ Err Full →
            self.old.limit < needs_of (meaning_by meaning self.old.by_two) (meaning wanted.version) self.old.records wanted.id
            (Some (record { revision = wanted.rev; content = page.now })) }
        ensures within { OnOk result (needs_of (meaning_by meaning self.old.by_two) (meaning wanted.version) self.old.records wanted.id
            (Some (record { revision = wanted.rev; content = page.now })) ≤ self.old.limit) }
    {
        self.facts();
        match self.put_page(wanted, after, page, Coming::Differing(difference)) {
            Ok(change) => Ok(change),
            Err(StoreFault::Full) => self.hold_again(wanted, after, page, buffer),
            Err(StoreFault::OutOfMemory) => Err(StoreFault::OutOfMemory),
        }
    }
}
