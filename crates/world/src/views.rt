// What a world tells of its state.

ghost use Rattle.std.specs.Prelude.{◌≡◌, ◌<◌, ◌≤◌, [], false, true, None, Some, length, slice_get, IfSome, MatchOption, IfOk};
ghost use Rattle.std.specs.Option.{option_copied};
ghost use Rattle.std.specs.FinMap as map;
ghost use Rattle.entity_json.specs.Document.{unfit_of};
ghost use Rattle.entity_model.specs.declared.id.EntityId.{EntityId as AnEntity};
ghost use Rattle.reorder_buffer.specs.Buffered.{first_due};
ghost use Rattle.replay_model.specs.{Entries.HoldsUnlessOpen, Entries.is_open_in, Records.record_of, Replies.HoldsDocument, Versions.meaning_by};
ghost use Rattle.fetched_pages.specs.Meaning.{meaning};
ghost use Rattle.holders.specs.Roomed.{room_with};
ghost use Rattle.holdings.specs.Laid.{IsLaid};
ghost use Rattle.world.specs.Limit.{stored_by};

use crate::world::World;
use entity_model::{EntityId, Event};
use entity_state::{Entry, State, is_open};
use page_packing::Unpacker;
use rdf_term::{List, OutOfMemory};
use text_region::Region;

impl World {
    /// The region, which has the texts of the terms of all that is held, each once, and the held pages, and nothing else.
    pub fn region(&self) -> &Region
        requires { self.now.limit.lean ≡ false }
        ensures { IsLaid (meaning_by meaning self.now.by_two) result.now self.now.replay.played.records }
    {
        self.holdings.whole().region()
    }

    /// Whether the world is lean: it stores only the triples that two pages may share.
    pub fn is_lean(&self) -> bool
        ensures { result ≡ self.now.limit.lean }
    {
        self.holdings.is_lean()
    }

    /// How many distinct terms the stored triples have: those of all that is held, or in a lean world of those that two pages may share. There
    /// may be triples among these that two pages shared, and that none names any longer.
    pub fn terms(&self) -> u32
        ensures count { self.now.limit.lean ≡ false → result ≡ room_with (meaning_by meaning self.now.by_two) self.now.replay.played.records [] }
        ensures least { room_with (stored_by self.now.limit.lean (meaning_by meaning self.now.by_two) self.now.replay.played.records) self.now.replay.played.records [] ≤ result }
        ensures within { result ≤ self.now.limit.terms }
    {
        self.holdings.terms()
    }

    /// The event that is applied next: the least of those that are due. It takes no memory.
    pub fn next_due(&self) -> Option<Event>
        ensures { result ≡ first_due self.now.replay.buffer }
    {
        self.buffer.least_due()
    }

    /// The events that are remembered, in their order.
    pub fn remembered(&self) -> Result<List<Event>, OutOfMemory>
        ensures { IfOk result (λ events. events ≡ self.now.replay.buffer.kept) }
    {
        self.buffer.events(self.alloc)
    }

    /// The greatest watermark so far, in microseconds since 1970-01-01T00:00:00Z.
    pub fn mark(&self) -> Option<i64>
        ensures { result ≡ self.now.replay.buffer.mark }
    {
        self.buffer.mark()
    }

    /// How many microseconds behind the mark events are forgotten, if there is a horizon.
    pub fn horizon(&self) -> Option<u64>
        ensures { result ≡ self.now.replay.buffer.horizon }
    {
        self.buffer.horizon()
    }

    /// The ids of the entities with a record, in rising order.
    pub fn entities(&self) -> Result<List<EntityId>, OutOfMemory>
        ensures { IfOk result (λ ids. ids ≡ map.keys self.now.replay.played.records) }
    {
        self.holdings.entities()
    }

    /// The state of an entity; Unknown with revision 0 if it has no record.
    pub fn state(&self, id: EntityId) -> State
        ensures { result ≡ (record_of self.now.replay.played.records id).state }
    {
        self.holdings.standing(id).state
    }

    /// The last reconciliation of an entity that was applied, in the order of events, if there was one.
    pub fn reconciled(&self, id: EntityId) -> Option<Event>
        ensures { result ≡ (record_of self.now.replay.played.records id).reconciled }
    {
        self.holdings.standing(id).reconciled
    }

    /// The revision that an entity holds, and its bytes, unless the world is lean (`read_held`). An entity holds what its state wants exactly
    /// if no revision entry of it is open, and holds nothing if its page isn't kept. Its bytes are a document of the entity.
    pub fn held(&self, id: EntityId) -> Option<(u64, &[u8])>
        requires { self.now.limit.lean ≡ false }
        ensures unless_open { HoldsUnlessOpen self.now.replay.played }
        ensures documents { (x : AnEntity) → HoldsDocument unfit_of x (record_of self.now.replay.played.records x).held }
        ensures value { MatchOption result ((record_of self.now.replay.played.records id).held ≡ None)
            (λ h. (record_of self.now.replay.played.records id).held ≡ Some (record { revision = h.0; content = h.1.now })) }
    {
        self.holdings.whole().held(id)
    }

    /// The revision that an entity of a lean world holds, whose bytes are unpacked into a buffer. They are a document of the entity. After
    /// `OutOfMemory`, and where nothing is held, the buffer may hold any text.
    pub fn read_held(&self, id: EntityId, page: &mut Unpacker) -> Result<Option<u64>, OutOfMemory>
        requires { self.now.limit.lean ≡ true }
        ensures documents { (x : AnEntity) → HoldsDocument unfit_of x (record_of self.now.replay.played.records x).held }
        ensures value { IfOk result (λ held. MatchOption held ((record_of self.now.replay.played.records id).held ≡ None)
            (λ revision. (record_of self.now.replay.played.records id).held ≡ Some (record { revision = revision; content = page.new }))) }
    {
        self.holdings.read_held(id, page)
    }

    /// The entries of the side output in their order.
    pub fn entries(&self) -> &[Entry]
        ensures { result.now ≡ self.now.replay.played.side }
    {
        self.side.entries()
    }

    /// The number of entries of the side output.
    pub fn side_len(&self) -> usize
        ensures { result ≡ length self.now.replay.played.side }
    {
        self.side.len()
    }

    /// The entry of the side output at an index from 0.
    pub fn side(&self, index: usize) -> Option<&Entry>
        ensures { option_copied result ≡ slice_get self.now.replay.played.side index }
    {
        self.side.get(index)
    }

    /// Whether the entry of the side output at an index from 0 is open.
    pub fn side_open(&self, index: usize) -> bool
        requires { index < length self.now.replay.played.side }
        ensures { IfSome (slice_get self.now.replay.played.side index) (λ entry. result ≡ is_open_in self.now.replay.played.records entry) }
    {
        match self.side(index) {
            Some(entry) => {
                let standing = self.holdings.standing(entry.entity());
                is_open(entry, standing.state, standing.held, standing.reconciled)
            }
            None => false,
        }
    }
}
