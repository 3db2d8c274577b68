// What the entities hold, in holdings of either kind.

ghost use Rattle.std.specs.Prelude.{◌≡◌, ◌⊎◌, ◌<◌, ◌≤◌, [], false, true, None, Some, Err, length, IfOk, IfSome, MatchOption, OnErr, OnOk};
ghost use Rattle.std.specs.FinMap as map;
ghost use Rattle.term_pool.specs.declared.fault.PoolFault.TheVariants.{Full as StoreFull};
ghost use Rattle.triple_store.specs.declared.telling.Telling.TheVariants.{Change as TheChange};
ghost use Rattle.entity_json.specs.Document.{unfit_of};
ghost use Rattle.entity_model.specs.declared.mapping.MappingVersion.TheVariants.{One};
ghost use Rattle.entity_state.specs.Standing.{standing_of};
ghost use Rattle.replay_model.specs.Records.{record_of};
ghost use Rattle.replay_model.specs.Versions.{all_by, is_holder, meaning_by, with_version};
ghost use Rattle.fetched_pages.specs.{Fetched.IsFetched, Fetched.bytes_of, Meaning.meaning};
ghost use Rattle.holders.specs.{Holding.AreHolders, Holding.first_of, Holding.stale_by, Holding.version_in, Roomed.room_with};
ghost use Rattle.holdings.specs.Mapped.{AreTriplesOf};
ghost use Rattle.world.specs.{Held.TellsChange, Held.held_in, Held.held_triples, Held.needs_in};
ghost use Rattle.world.specs.Limit.{HasRoomBy, stored_by, whole};

use crate::applied::StepChange;
use entity_model::{EntityId, MappingVersion};
use entity_state::Standing;
use fetched_pages::{FetchedPage, Wanted};
use holdings::{Holdings, RemappedPage};
use lean_holdings::LeanHoldings;
use page_packing::Unpacker;
use rdf_term::{List, OutOfMemory};
use std::alloc::Global;
use std::hash::RandomState;
use std::mem;
use triple_store::{StoreFault, Telling};
use triple_texts::TripleTexts;

/// What the entities of a lean world hold, and a buffer into which their packed pages are unpacked.
#[derive(Drop)]
pub struct LeanPages {
    pub holdings: LeanHoldings,
    pub buffer: Unpacker,
}

/// What the entities hold: with a store of all triples, or, in a lean world, of those that two pages may share.
#[derive(Drop)]
pub enum WorldHoldings {
    All(Holdings),
    Lean(LeanPages),
}

/// What is told of how remapping a page changed the stored triples; and the triples of the page then, by their texts, unless the world is lean.
#[derive(Drop)]
pub struct RemappedHeld {
    pub change: StepChange,
    pub triples: TripleTexts,
}

impl WorldHoldings {
    /// Whether only triples that two pages may share are stored.
    pub fn is_lean(&self) -> bool
        ensures { result ≡ (held_in self.now).limit.lean }
    {
        match self {
            WorldHoldings::All(_) => false,
            WorldHoldings::Lean(_) => true,
        }
    }

    /// The holdings that have all triples.
    pub fn whole(&self) -> &Holdings
        requires { (held_in self.now).limit.lean ≡ false }
        ensures records { result.now.records ≡ (held_in self.now).records }
        ensures limit { result.now.limit ≡ (held_in self.now).limit.terms }
        ensures by_two { result.now.by_two ≡ (held_in self.now).by_two }
    {
        match self {
            WorldHoldings::All(holdings) => holdings,
            WorldHoldings::Lean(_) => unreachable!(),
        }
    }

    /// Sets how many distinct terms there may be. There is no record yet.
    pub fn set_limit(&mut self, terms: u32)
        requires records { map.len (held_in self.old).records ≡ 0 }
        requires all { (held_in self.old).limit.lean ≡ false }
        ensures { held_in self.new ≡ record (held_in self.old) { limit = whole terms } }
    {
        match self {
            WorldHoldings::All(holdings) => holdings.set_limit(terms),
            WorldHoldings::Lean(_) => unreachable!(),
        }
    }

    /// Makes them lean, with so many distinct terms. There is no record yet. After `OutOfMemory` nothing has changed.
    pub fn make_lean(
        &mut self,
        alloc: Global,
        keys: RandomState,
        terms: u32,
    ) -> Result<(), OutOfMemory>
        requires records { (held_in self.old).records ≡ map.empty }
        requires by_two { (held_in self.old).by_two ≡ [] }
        ensures ok { OnOk result (held_in self.new ≡ record (held_in self.old) { limit = record { terms = terms; lean = true } }) }
        ensures err { OnErr result (held_in self.new ≡ held_in self.old) }
    {
        let lean = LeanPages {
            holdings: LeanHoldings::new(alloc, keys, terms)?,
            buffer: Unpacker::new(alloc),
        };
        let old = mem::replace(self, WorldHoldings::Lean(lean));
        discard(old);
        Ok(())
    }

    /// What is stored has room, and what is named as mapped by version Two is held. It does nothing but to say so.
    pub fn facts(&self)
        ensures room { HasRoomBy (held_in self.now).limit (meaning_by meaning (held_in self.now).by_two) (held_in self.now).records }
        ensures holders { AreHolders (held_in self.now).by_two (held_in self.now).records }
    {
        match self {
            WorldHoldings::All(holdings) => holdings.facts(),
            WorldHoldings::Lean(lean) => lean.holdings.facts(),
        }
    }

    /// What stands of an entity's record.
    pub fn standing(&self, id: EntityId) -> Standing
        ensures { result ≡ standing_of (record_of (held_in self.now).records id) }
    {
        match self {
            WorldHoldings::All(holdings) => holdings.standing(id),
            WorldHoldings::Lean(lean) => lean.holdings.standing(id),
        }
    }

    /// The revision that an entity of a lean world holds, whose bytes are unpacked into a buffer. After `OutOfMemory`, and where nothing is
    /// held, the buffer may hold any text.
    pub fn read_held(&self, id: EntityId, page: &mut Unpacker) -> Result<Option<u64>, OutOfMemory>
        requires { (held_in self.now).limit.lean ≡ true }
        ensures { IfOk result (λ held. MatchOption held ((record_of (held_in self.now).records id).held ≡ None)
            (λ revision. (record_of (held_in self.now).records id).held ≡ Some (record { revision = revision; content = page.new }))) }
    {
        match self {
            WorldHoldings::All(_) => unreachable!(),
            WorldHoldings::Lean(lean) => lean.holdings.held(id, page),
        }
    }

    /// The ids of the entities with a record, in rising order.
    pub fn entities(&self) -> Result<List<EntityId>, OutOfMemory>
        ensures { IfOk result (λ ids. ids ≡ map.keys (held_in self.now).records) }
    {
        match self {
            WorldHoldings::All(holdings) => holdings.entities(),
            WorldHoldings::Lean(lean) => lean.holdings.entities(),
        }
    }

    /// How many distinct terms the stored triples have. In a lean world triples of entities that no page names any longer may be among them.
    pub fn terms(&self) -> u32
        ensures all { (held_in self.now).limit.lean ≡ false → result ≡ room_with (meaning_by meaning (held_in self.now).by_two) (held_in self.now).records [] }
        ensures least { room_with (stored_by (held_in self.now).limit.lean (meaning_by meaning (held_in self.now).by_two) (held_in self.now).records) (held_in self.now).records [] ≤ result }
        ensures within { result ≤ (held_in self.now).limit.terms }
    {
        match self {
            WorldHoldings::All(holdings) => holdings.terms(),
            WorldHoldings::Lean(lean) => lean.holdings.terms(),
        }
    }

    /// The version by which the held page of an entity is mapped, if it holds one.
    pub fn held_version(&self, id: EntityId) -> Option<MappingVersion>
        ensures { result ≡ version_in (held_in self.now).by_two (held_in self.now).records id }
    {
        match self {
            WorldHoldings::All(holdings) => holdings.held_version(id),
            WorldHoldings::Lean(lean) => lean.holdings.held_version(id),
        }
    }

    /// The least entity whose held page is mapped by another version than this one.
    pub fn next_stale(&self, version: MappingVersion) -> Option<EntityId>
        ensures entity { result ≡ first_of (stale_by version (held_in self.now).by_two (held_in self.now).records) }
        ensures holder { IfSome result (λ entity. is_holder (held_in self.now).records entity ≡ true) }
    {
        match self {
            WorldHoldings::All(holdings) => holdings.next_stale(version),
            WorldHoldings::Lean(lean) => lean.holdings.next_stale(version),
        }
    }

    /// How many such entities there are.
    pub fn stale(&self, version: MappingVersion) -> usize
        ensures count { result ≡ length (stale_by version (held_in self.now).by_two (held_in self.now).records) }
        ensures none { result ≡ 0 → (held_in self.now).by_two ≡ all_by version (held_in self.now).records }
    {
        match self {
            WorldHoldings::All(holdings) => holdings.stale(version),
            WorldHoldings::Lean(lean) => lean.holdings.stale(version),
        }
    }

    /// Sets the record of an entity, which holds the page of the wanted revision from now on, and tells what it is asked of the change of the
    /// triples of all that is held. After a fault nothing has changed. The fault is `Full` if there is no room for its triples.
    pub fn hold(
        &mut self,
        wanted: Wanted,
        after: Standing,
        page: &FetchedPage,
        telling: Telling,
    ) -> Result<StepChange, StoreFault>
        requires fetched { IsFetched (held_in self.old).records (held_in self.old).by_two wanted.version wanted.id wanted.rev page.now }
        requires document { unfit_of wanted.id (bytes_of page.now) ≡ None }
        ensures ok { OnOk result ((held_in self.new).records ≡ map.insert (held_in self.old).records wanted.id (record {
          state = after.state;
          held = Some (record { revision = wanted.rev; content = bytes_of page.now });
          reconciled = after.reconciled;
        })) }
        ensures by_two { OnOk result ((held_in self.new).by_two ≡ with_version wanted.version wanted.id (held_in self.old).by_two) }
        ensures change { IfOk result (TellsChange telling (held_triples (held_in self.old)) (held_triples (held_in self.new))) }
        ensures limit { (held_in self.new).limit ≡ (held_in self.old).limit }
        ensures err { OnErr result (held_in self.new ≡ held_in self.old) }
        ensures full { result ≡ Err StoreFull → (held_in self.old).limit.terms
            < needs_in (held_in self.old) wanted.version wanted.id (Some (record { revision = wanted.rev; content = bytes_of page.now })) }
        ensures within { OnOk result (needs_in (held_in self.old) wanted.version wanted.id (Some (record { revision = wanted.rev; content = bytes_of page.now }))
            ≤ (held_in self.old).limit.terms) }
    {
        match self {
            WorldHoldings::All(holdings) => {
                match holdings.hold(wanted, after, page, telling) {
                    Ok(told) => Ok(StepChange::Told(told)),
                    Err(fault) => Err(fault),
                }
            }
            WorldHoldings::Lean(lean) => {
                match lean.holdings.hold(wanted, after, page, &mut lean.buffer) {
                    Ok(parts) => Ok(StepChange::Parts(parts)),
                    Err(fault) => Err(fault),
                }
            }
        }
    }

    /// Sets the record of an entity, which holds what it held. After `OutOfMemory` nothing has changed.
    pub fn keep(&mut self, id: EntityId, after: Standing) -> Result<(), OutOfMemory>
        ensures records { OnOk result ((held_in self.new).records ≡ map.insert (held_in self.old).records id (record {
          state = after.state;
          held = (record_of (held_in self.old).records id).held;
          reconciled = after.reconciled;
        })) }
        ensures by_two { (held_in self.new).by_two ≡ (held_in self.old).by_two }
        ensures stored { OnOk result (held_triples (held_in self.new) ≡ held_triples (held_in self.old)) }
        ensures limit { (held_in self.new).limit ≡ (held_in self.old).limit }
        ensures err { OnErr result (held_in self.new ≡ held_in self.old) }
        ensures refused { OnErr result (map.contains_key (held_in self.old).records id ≡ false) }
    {
        match self {
            WorldHoldings::All(holdings) => holdings.keep(id, after),
            WorldHoldings::Lean(lean) => lean.holdings.keep(id, after),
        }
    }

    /// Sets the record of an entity, which holds nothing from now on, and tells what it is asked of the change of the triples of all that is
    /// held. After `OutOfMemory` nothing has changed.
    pub fn release(
        &mut self,
        id: EntityId,
        after: Standing,
        telling: Telling,
    ) -> Result<StepChange, OutOfMemory>
        ensures records { OnOk result ((held_in self.new).records ≡ map.insert (held_in self.old).records id (record {
          state = after.state;
          held = None;
          reconciled = after.reconciled;
        })) }
        ensures by_two { OnOk result ((held_in self.new).by_two ≡ with_version One id (held_in self.old).by_two) }
        ensures change { IfOk result (TellsChange telling (held_triples (held_in self.old)) (held_triples (held_in self.new))) }
        ensures limit { (held_in self.new).limit ≡ (held_in self.old).limit }
        ensures err { OnErr result (held_in self.new ≡ held_in self.old) }
        ensures refused { OnErr result ((map.contains_key (held_in self.old).records id ≡ false) ⊎ ((telling ≡ TheChange) ⊎ ((held_in self.old).limit.lean ≡ true))) }
    {
        match self {
            WorldHoldings::All(holdings) => {
                match holdings.release(id, after, telling) {
                    Ok(told) => Ok(StepChange::Told(told)),
                    Err(refused) => Err(refused),
                }
            }
            WorldHoldings::Lean(lean) => {
                match lean.holdings.release(id, after, &mut lean.buffer) {
                    Ok(parts) => Ok(StepChange::Parts(parts)),
                    Err(refused) => Err(refused),
                }
            }
        }
    }

    /// Maps what an entity holds by a version, and tells what it is asked of the change of the triples of all that is held. Unless the world
    /// is lean, the triples of the page are given back. After a fault nothing has changed. The fault is `Full` if there is no room for its
    /// triples.
    pub fn remap(
        &mut self,
        alloc: Global,
        id: EntityId,
        version: MappingVersion,
        telling: Telling,
    ) -> Result<RemappedHeld, StoreFault>
        requires { is_holder (held_in self.old).records id ≡ true }
        ensures records { (held_in self.new).records ≡ (held_in self.old).records }
        ensures by_two { OnOk result ((held_in self.new).by_two ≡ with_version version id (held_in self.old).by_two) }
        ensures change { IfOk result (λ remapped. TellsChange telling (held_triples (held_in self.old)) (held_triples (held_in self.new)) remapped.change) }
        ensures triples { (held_in self.old).limit.lean ≡ false → IfOk result (λ remapped. AreTriplesOf version id (record_of (held_in self.old).records id).held remapped.triples) }
        ensures limit { (held_in self.new).limit ≡ (held_in self.old).limit }
        ensures err { OnErr result (held_in self.new ≡ held_in self.old) }
        ensures full { result ≡ Err StoreFull → (held_in self.old).limit.terms
            < needs_in (held_in self.old) version id (record_of (held_in self.old).records id).held }
        ensures within { OnOk result (needs_in (held_in self.old) version id (record_of (held_in self.old).records id).held
            ≤ (held_in self.old).limit.terms) }
    {
        match self {
            WorldHoldings::All(holdings) => {
                match holdings.remap(id, version, telling) {
                    Ok(RemappedPage { change, triples }) => Ok(RemappedHeld {
                        change: StepChange::Told(change),
                        triples,
                    }),
                    Err(fault) => Err(fault),
                }
            }
            WorldHoldings::Lean(lean) => {
                match lean.holdings.remap(id, version, &mut lean.buffer) {
                    Ok(parts) => Ok(RemappedHeld {
                        change: StepChange::Parts(parts),
                        triples: TripleTexts::new(alloc),
                    }),
                    Err(fault) => Err(fault),
                }
            }
        }
    }
}

/// Gives back the memory of holdings of either kind.
pub fn discard(holdings: WorldHoldings) {
    match holdings {
        WorldHoldings::All(holdings) => holdings::discard(holdings),
        WorldHoldings::Lean(lean) => {
            let LeanPages { holdings, buffer } = lean;
            lean_holdings::discard(holdings);
            drop(buffer);
        }
    }
}
