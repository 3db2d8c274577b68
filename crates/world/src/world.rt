// The state of a replay.

ghost use Rattle.std.specs.Prelude.{◌≡◌, ◌<◌, ◌+◌, ◌++◌, [], false, true, Some, length, IfOk, IsOk, OnErr, OnOk};
ghost use Rattle.std.specs.FinMap as map;
ghost use Rattle.reorder_buffer.specs.{Buffered.after_taking, Buffered.answer_to, declared.taken.Taken.TheVariants.Repeat};
ghost use Rattle.sorted_sets.specs.Rising.{has};
ghost use Rattle.entity_model.specs.Event.{event_cmp};
ghost use Rattle.replay_model.specs.ReplayState.{after_end, after_event, after_mark, nothing_delivered, nothing_delivered_within, taken_entries};
ghost use Rattle.entity_model.specs.declared.mapping.MappingVersion.TheVariants.{One};
ghost use Rattle.rdf_term.specs.Limits.{default_max_terms};
ghost use Rattle.world.specs.Limit.{whole};

use crate::held::{WorldHoldings, discard as discard_holdings};
use entity_model::{Event, MappingVersion};
use entity_state::{Entry, Side};
use holdings::Holdings;
use rdf_term::{DEFAULT_MAX_TERMS, OutOfMemory};
use reorder_buffer::{Buffer, Taken};
use std::alloc::Global;
use std::hash::RandomState;
use std::marker::Model;

/// The waiting events, the side output, the version of the mapping in force, and what the entities hold, with the triples that all held
/// pages mean, each with the number of its owners; a lean world has only those triples that two pages may share. Contracts see the state of
/// a replay, which determines the triples; the limit on terms, and of which triples these are; and the version of the mapping in force, with the entities whose pages are mapped by version Two.
#[derive(Drop)]
pub struct World {
    pub(crate) alloc: Global,
    pub(crate) buffer: Buffer,
    pub(crate) side: Side,
    pub(crate) mapping: MappingVersion,
    pub(crate) holdings: WorldHoldings,
    keys: RandomState,
}

impl Model for World {
    ghost use Rattle.replay_model.specs.{Entries.HoldsUnlessOpen, Records.record_of, Replies.HoldsDocument, Versions.meaning_by};
    ghost use Rattle.fetched_pages.specs.Meaning.{meaning};
    ghost use Rattle.world.specs.{Codes.world_code, Held.held_in, Limit.HasRoomBy, WorldState.WorldState, WorldState.played_of};
    ghost use Rattle.holders.specs.{Holding.AreHolders};
    ghost use Rattle.entity_json.specs.Document.{unfit_of};
    ghost use Rattle.entity_model.specs.declared.id.EntityId.{EntityId};

    ghost Value = { WorldState };

    ghost coded = { world_code };

    ghost view = { λ a. record {
      replay = record { buffer = a.buffer; played = played_of (held_in a.holdings) a.side.entries };
      limit = (held_in a.holdings).limit;
      mapping = a.mapping;
      by_two = (held_in a.holdings).by_two;
    } };

    ghost invariant = { λ a. HoldsUnlessOpen (played_of (held_in a.holdings) a.side.entries) × HasRoomBy (held_in a.holdings).limit (meaning_by meaning (held_in a.holdings).by_two) (held_in a.holdings).records
        × AreHolders (held_in a.holdings).by_two (held_in a.holdings).records × ((x : EntityId) → HoldsDocument unfit_of x (record_of (held_in a.holdings).records x).held) };
}

impl World {
    /// The world before the first delivery, without a horizon and with a limit of `DEFAULT_MAX_TERMS` terms. Version One of the mapping is in force.
    /// The hashes of its terms are keyed by `keys`.
    pub fn new(alloc: Global, keys: RandomState) -> Result<World, OutOfMemory>
        ensures { IfOk result (λ world. world ≡ record { replay = nothing_delivered; limit = whole default_max_terms; mapping = One; by_two = [] }) }
    {
        let buffer = Buffer::new(alloc)?;
        let Ok(holdings) = Holdings::new(alloc, keys, DEFAULT_MAX_TERMS) else {
            drop(buffer);
            return Err(OutOfMemory);
        };
        Ok(World {
            alloc,
            buffer,
            side: Side::new(alloc),
            mapping: MappingVersion::One,
            holdings: WorldHoldings::All(holdings),
            keys,
        })
    }

    /// Sets the limit on distinct terms, before any event is applied.
    pub fn set_limit(&mut self, terms: u32)
        requires records { map.len self.old.replay.played.records ≡ 0 }
        requires all { self.old.limit.lean ≡ false }
        ensures { self.new ≡ record self.old { limit = whole terms } }
    {
        self.holdings.set_limit(terms);
        self.holdings.facts();
    }

    /// Makes the world lean, before any event is applied, and sets the limit on distinct terms: from then on it stores only the triples that
    /// two pages may share, and packs the pages. After `OutOfMemory` nothing has changed.
    pub fn make_lean(&mut self, terms: u32) -> Result<(), OutOfMemory>
        requires records { self.old.replay.played.records ≡ map.empty }
        requires by_two { self.old.by_two ≡ [] }
        ensures ok { OnOk result (self.new ≡ record self.old { limit = record { terms = terms; lean = true } }) }
        ensures err { OnErr result (self.new ≡ self.old) }
    {
        self.holdings.make_lean(self.alloc, self.keys, terms)?;
        self.holdings.facts();
        Ok(())
    }

    /// Sets the horizon, in microseconds, before any delivery is taken: events whose time is further behind the greatest watermark are
    /// forgotten, so that such an event is late when it is delivered again.
    pub fn set_horizon(&mut self, micros: u64)
        requires { self.old.replay ≡ nothing_delivered_within self.old.replay.buffer.horizon }
        ensures { self.new ≡ record self.old { replay = nothing_delivered_within (Some micros) } }
    {
        self.buffer.set_horizon(micros);
    }

    /// Takes an event. A remembered event changes nothing, and takes no memory; an event whose time the greatest watermark has reached gets
    /// a late entry in the side output; any other event waits. After `OutOfMemory` nothing has changed.
    pub fn take(&mut self, event: Event) -> Result<Taken, OutOfMemory>
        requires { self.old.replay.buffer.closed ≡ false }
        ensures answer { IfOk result (λ taken. taken ≡ answer_to self.old.replay.buffer event) }
        ensures ok { OnOk result (self.new.replay ≡ after_event self.old.replay event) }
        ensures rest { self.new ≡ record self.old { replay = self.new.replay } }
        ensures err { OnErr result (self.new ≡ self.old) }
        ensures free { answer_to self.old.replay.buffer event ≡ Repeat → IsOk result }
    {
        take_event(&mut self.buffer, &mut self.side, event)
    }

    /// Takes a watermark, in microseconds since 1970-01-01T00:00:00Z: events up to its time are due from now on, and events that are
    /// further behind it than the horizon are forgotten.
    pub fn raise(&mut self, mark: i64)
        ensures { self.new ≡ record self.old { replay = after_mark self.old.replay mark } }
    {
        self.buffer.raise(mark);
    }

    /// Takes the end of the input, which makes every waiting event due.
    pub fn close(&mut self)
        ensures { self.new ≡ record self.old { replay = after_end self.old.replay } }
    {
        self.buffer.close();
    }

    /// The number of waiting events.
    pub fn pending(&self) -> usize
        ensures { result ≡ length self.now.replay.buffer.waiting }
    {
        self.buffer.pending()
    }
}

/// Gives back the memory of a world. So the drop of all that a world may hold is proved here, and not in each crate that has one.
pub fn discard(world: World) {
    let World {
        alloc: _,
        buffer,
        side,
        mapping: _,
        holdings,
        keys: _,
    } = world;
    discard_holdings(holdings);
    drop(buffer);
    drop(side);
}

// Takes an event, and names it in the side output where it is late.
fn take_event(buffer: &mut Buffer, side: &mut Side, event: Event) -> Result<Taken, OutOfMemory>
    requires { buffer.old.closed ≡ false }
    ensures answer { IfOk result (λ taken. taken ≡ answer_to buffer.old event) }
    ensures buffer { OnOk result (buffer.new ≡ after_taking buffer.old event) }
    ensures entries { OnOk result (side.new.entries ≡ side.old.entries ++ taken_entries (answer_to buffer.old event) event) }
    ensures err { OnErr result ((buffer.new ≡ buffer.old) × (side.new.entries ≡ side.old.entries)) }
    ensures refused { OnErr result (has event_cmp event buffer.old.kept ≡ false) }
{
    if !buffer.has_reached(event.time) {
        return buffer.take(event);
    }
    if buffer.remembers(&event) {
        return Ok(Taken::Repeat);
    }
    side.make_room()?;
    let taken = buffer.take(event)?;
    let _ = side.push(Entry::Late(event));
    Ok(taken)
}
