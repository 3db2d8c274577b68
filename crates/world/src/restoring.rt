// A world is put back as it was saved: the events that it remembers, its side output, and the records of its entities.

ghost use Rattle.std.specs.Prelude.{◌≡◌, ◌≢◌, ◌<◌, ◌≤◌, ◌∷◌, ◌++◌, [], false, None, Some, Err, IsErrOf, OnErr, OnOk};
ghost use Rattle.std.specs.FinMap as map;
ghost use Rattle.std.specs.List.{list_any};
ghost use Rattle.entity_json.specs.Document.{unfit_of};
ghost use Rattle.entity_state.specs.Record.{held_revision, is_held};
ghost use Rattle.reorder_buffer.specs.Buffered.{IsAdded, after_taking};
ghost use Rattle.replay_model.specs.{Entries.is_of_revision, Replies.HoldsDocument, Union.triples_held};
ghost use Rattle.replay_model.specs.Versions.{all_by, meaning_by, with_version};
ghost use Rattle.fetched_pages.specs.Meaning.{meaning};
ghost use Rattle.world.specs.Restoring.{MayStand, by_two_with, is_accounted_for, restore_fault_of, restored};
ghost use Rattle.world.specs.{Held.held_in, Held.needs_in, Limit.HasRoomBy, Roomed.needs_now};
ghost use Rattle.holders.specs.{Roomed.room_with, Holding.AreHolders};
ghost use Rattle.world.specs.Refused.{HoldsOrIsFirst, MayRefuseRecord};
ghost use Rattle.world.specs.declared.restoring.RestoreFault.TheVariants.{Full, OutOfMemory as RestoreOutOfMemory, Unsound};

use crate::held::WorldHoldings;
use crate::world::World;
use entity_model::{EntityId, Event, MappingVersion};
use entity_state::{Entry, Mode, Record, Side, Standing};
use fetched_pages::{FetchedPage, Wanted, judge};
use holdings::Holdings;
use lean_holdings::RestoreFault as LeanRestoreFault;
use rdf_term::{OutOfMemory, Text};
use std::alloc::Global;
use thiserror::Error;
use triple_store::{StoreFault, Telling};

/// Why a record isn't put back.
#[derive(Clone, Copy, Debug, Error)]
pub enum RestoreFault {
    /// No replay leaves such a record: its page is no document of its entity, a page is held although the state isn't kept, or the revision
    /// that the state wants isn't held and no entry of the side output names it.
    #[error("no replay leaves such a record")]
    Unsound,
    /// The triples of all held pages and of the page of the record have together more distinct terms than the limit.
    #[error("the store is full")]
    Full,
    /// A request for memory was refused.
    #[error("out of memory")]
    OutOfMemory,
}

impl From<LeanRestoreFault> for RestoreFault {
    ghost from_gives = { λ fault e. e ≡ restore_fault_of fault };

    fn from(fault: LeanRestoreFault) -> RestoreFault {
        match fault {
            LeanRestoreFault::Unsound => RestoreFault::Unsound,
            LeanRestoreFault::Full => RestoreFault::Full,
            LeanRestoreFault::OutOfMemory => RestoreFault::OutOfMemory,
        }
    }
}

impl World {
    /// Remembers an event as `take` does, but makes no entry of the side output. Only an event that is remembered from now on takes memory.
    /// After `OutOfMemory` nothing has changed.
    pub fn remember(&mut self, event: Event) -> Result<(), OutOfMemory>
        requires { self.old.replay.buffer.closed ≡ false }
        ensures ok { OnOk result (self.new ≡ record self.old { replay = record self.old.replay { buffer = after_taking self.old.replay.buffer event } }) }
        ensures err { OnErr result (self.new ≡ self.old) }
        ensures refused { OnErr result (IsAdded self.old.replay.buffer event) }
    {
        self.buffer.take(event)?;
        Ok(())
    }

    /// Puts an entry at the end of the side output. After `OutOfMemory` nothing has changed.
    pub fn note(&mut self, entry: Entry) -> Result<(), OutOfMemory>
        ensures ok { OnOk result (self.new ≡ record self.old {
          replay = record self.old.replay {
            played = record self.old.replay.played { side = self.old.replay.played.side ++ entry ∷ [] };
          };
        }) }
        ensures err { OnErr result (self.new ≡ self.old) }
    {
        self.side.push(entry)
    }

    /// Puts back the record of an entity; the page that it holds is mapped by the version in force, and nothing is fetched. If every page
    /// was mapped by this version before, every page is after. After a fault nothing has changed. The fault is `Unsound` for a record that
    /// no replay leaves with this side output. Otherwise it is `Full` exactly if the triples of the page and of all held pages (in a lean
    /// world: those that two pages may share) have together more distinct terms than the limit, unless memory is refused. Only a page, or the
    /// first record of an entity, takes memory; in a lean world also a record that comes in the place of one with a page.
    pub fn restore(&mut self, id: EntityId, entity: Record<Text>) -> Result<(), RestoreFault>
        ensures ok { OnOk result (self.new ≡ restored self.old id entity) }
        ensures sound { OnOk result (MayStand self.old.replay.played.side id entity) }
        ensures unsound { IsErrOf result Unsound → ¬ (MayStand self.old.replay.played.side id entity) }
        ensures full { IsErrOf result Full → self.old.limit.terms < needs_now self.old id entity.held }
        ensures sound_if_full { IsErrOf result Full → MayStand self.old.replay.played.side id entity }
        ensures refused { IsErrOf result RestoreOutOfMemory → MayRefuseRecord self.old.limit.lean self.old.replay.played id entity }
        ensures within { OnOk result (needs_now self.old id entity.held ≤ self.old.limit.terms) }
        ensures by_one { self.old.by_two ≡ all_by self.old.mapping self.old.replay.played.records →
            self.new.by_two ≡ all_by self.new.mapping self.new.replay.played.records }
        ensures held { HasRoomBy self.new.limit (meaning_by meaning self.new.by_two) self.new.replay.played.records }
        ensures holders { AreHolders self.new.by_two self.new.replay.played.records }
        ensures err { OnErr result (self.new ≡ self.old) }
    {
        if !is_accounted_for(&self.side, id, &entity) {
            return Err(RestoreFault::Unsound);
        }
        let restored = self.holdings.restore(self.alloc, id, entity, self.mapping);
        self.holdings.facts();
        match restored {
            Ok(()) => Ok(()),
            Err(fault) => Err(fault),
        }
    }
}

impl WorldHoldings {
    // Puts back the record of an entity; the page that it holds is mapped by the version. After a fault nothing has changed. `Unsound` is
    // said of a page that is no document of the entity.
    fn restore(
        &mut self,
        alloc: Global,
        id: EntityId,
        entity: Record<Text>,
        version: MappingVersion,
    ) -> Result<(), RestoreFault>
        ensures ok { OnOk result ((held_in self.new).records ≡ map.insert (held_in self.old).records id entity) }
        ensures by_two { OnOk result ((held_in self.new).by_two ≡ by_two_with version id entity.held (held_in self.old).by_two) }
        ensures document { OnOk result (HoldsDocument unfit_of id entity.held) }
        ensures document_if_full { IsErrOf result Full → HoldsDocument unfit_of id entity.held }
        ensures unsound { IsErrOf result Unsound → ¬ (HoldsDocument unfit_of id entity.held) }
        ensures refused { IsErrOf result RestoreOutOfMemory → HoldsOrIsFirst (held_in self.old).limit.lean (held_in self.old).records id entity.held }
        ensures limit { (held_in self.new).limit ≡ (held_in self.old).limit }
        ensures full { IsErrOf result Full → (held_in self.old).limit.terms < needs_in (held_in self.old) version id entity.held }
        ensures within { OnOk result (needs_in (held_in self.old) version id entity.held ≤ (held_in self.old).limit.terms) }
        ensures err { OnErr result (held_in self.new ≡ held_in self.old) }
    {
        match self {
            WorldHoldings::All(holdings) => restore(holdings, alloc, id, entity, version),
            WorldHoldings::Lean(lean) => {
                let restored = lean
                    .holdings
                    .restore(id, &entity, version, &mut lean.buffer);
                drop(entity);
                match restored {
                    Ok(()) => Ok(()),
                    Err(fault) => Err(RestoreFault::from(fault)),
                }
            }
        }
    }
}

// Puts back the record of an entity; the page that it holds is mapped by the version. After a fault nothing has changed. `Unsound` is
// said of a page that is no document of the entity.
fn restore(
    holdings: &mut Holdings,
    alloc: Global,
    id: EntityId,
    entity: Record<Text>,
    version: MappingVersion,
) -> Result<(), RestoreFault>
    ensures ok { OnOk result (holdings.new.records ≡ map.insert holdings.old.records id entity) }
    ensures by_two { OnOk result (holdings.new.by_two ≡ by_two_with version id entity.held holdings.old.by_two) }
    ensures document { OnOk result (HoldsDocument unfit_of id entity.held) }
    ensures document_if_full { IsErrOf result Full → HoldsDocument unfit_of id entity.held }
    ensures unsound { IsErrOf result Unsound → ¬ (HoldsDocument unfit_of id entity.held) }
    ensures refused { IsErrOf result RestoreOutOfMemory → HoldsOrIsFirst false holdings.old.records id entity.held }
    ensures limit { holdings.new.limit ≡ holdings.old.limit }
    ensures full { IsErrOf result Full → holdings.old.limit < room_with (meaning_by meaning holdings.old.by_two) holdings.old.records (triples_held (meaning version) id entity.held) }
    ensures within { OnOk result (room_with (meaning_by meaning holdings.old.by_two) holdings.old.records (triples_held (meaning version) id entity.held) ≤ holdings.old.limit) }
    ensures err { OnErr result (holdings.new ≡ holdings.old) }
{
    let Record {
        state,
        held,
        reconciled,
    } = entity;
    let after = Standing {
        state,
        held: None,
        reconciled,
    };
    match held {
        Some(held) => {
            let wanted = Wanted {
                id,
                rev: held.revision,
                version,
            };
            restore_page(holdings, alloc, wanted, after, held.content)
        }
        None => {
            holdings.facts();
            match holdings.release(id, after, Telling::Nothing) {
                Ok(_) => Ok(()),
                Err(OutOfMemory) => Err(RestoreFault::OutOfMemory),
            }
        }
    }
}

// Puts back the record of an entity that holds a page; its state may be of another revision, whose fetch gave no document.
fn restore_page(
    holdings: &mut Holdings,
    alloc: Global,
    wanted: Wanted,
    after: Standing,
    content: Text,
) -> Result<(), RestoreFault>
    ensures ok { OnOk result (holdings.new.records ≡ map.insert holdings.old.records wanted.id (record { state = after.state; held = Some (record { revision = wanted.rev; content = content }); reconciled = after.reconciled })) }
    ensures by_two { OnOk result (holdings.new.by_two ≡ with_version wanted.version wanted.id holdings.old.by_two) }
    ensures document { OnOk result (unfit_of wanted.id content ≡ None) }
    ensures document_if_full { IsErrOf result Full → unfit_of wanted.id content ≡ None }
    ensures unsound { IsErrOf result Unsound → unfit_of wanted.id content ≢ None }
    ensures limit { holdings.new.limit ≡ holdings.old.limit }
    ensures full { IsErrOf result Full → holdings.old.limit < room_with (meaning_by meaning holdings.old.by_two) holdings.old.records (meaning wanted.version wanted.id wanted.rev content) }
    ensures within { OnOk result (room_with (meaning_by meaning holdings.old.by_two) holdings.old.records (meaning wanted.version wanted.id wanted.rev content) ≤ holdings.old.limit) }
    ensures err { OnErr result (holdings.new ≡ holdings.old) }
{
    match judge(alloc, wanted, bytes_of(content), None) {
        Ok(Ok(page)) => {
            let page = FetchedPage::Whole(page);
            let done = holdings.hold(wanted, after, &page, Telling::Nothing);
            drop(page);
            match done {
                Ok(_) => Ok(()),
                Err(StoreFault::Full) => Err(RestoreFault::Full),
                Err(StoreFault::OutOfMemory) => Err(RestoreFault::OutOfMemory),
            }
        }
        Ok(Err(_)) => Err(RestoreFault::Unsound),
        Err(OutOfMemory) => Err(RestoreFault::OutOfMemory),
    }
}

// The bytes of a text, without a copy.
fn bytes_of(text: Text) -> Vec<u8>
    ensures { result.items ≡ text }
{
    text.into_string().into_bytes()
}

// Whether nothing is held of a page that isn't kept, and the side output tells of the revision that is wanted, unless it is held.
fn is_accounted_for(side: &Side, id: EntityId, entity: &Record<Text>) -> bool
    ensures { result ≡ is_accounted_for side.now.entries id entity.now }
{
    match entity.state.mode {
        Mode::Kept => holds(entity, entity.state.rev)
            || tells(side.entries(), id, entity.state.rev),
        Mode::Unknown | Mode::Deleted => entity.held.is_none(),
    }
}

// Whether the record holds this revision.
fn holds(entity: &Record<Text>, rev: u64) -> bool
    ensures { result ≡ is_held rev (held_revision entity.now.held) }
{
    match &entity.held {
        Some(held) => held.revision == rev,
        None => false,
    }
}

// Whether one of the entries tells of this revision of an entity.
fn tells(entries: &[Entry], id: EntityId, rev: u64) -> bool
    ensures { result ≡ list_any (is_of_revision id rev) entries.now }
{
    entries.iter().any(|entry| is_of_revision(entry, id, rev))
}

// Whether an entry tells of this revision of an entity.
fn is_of_revision(entry: &Entry, id: EntityId, rev: u64) -> bool
    ensures { result ≡ is_of_revision id rev entry.now }
{
    match entry {
        Entry::Late(_) => false,
        Entry::Revision(event, revision, _) => id == event.entity && *revision == rev,
    }
}
