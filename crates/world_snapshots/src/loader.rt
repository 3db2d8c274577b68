// A world that is put together line by line.

ghost use Rattle.std.specs.Prelude.{◌≡◌, ◌↔◌, ℕ, ◌-◌, ◌≤◌, false, true, [], Some, IfOk, IsErrOf, OnErr, OnOk};
ghost use Rattle.std.specs.FinMap as map;
ghost use Rattle.replay_model.specs.{Play.nothing_played, ReplayState.nothing_delivered, ReplayState.nothing_delivered_within};
ghost use Rattle.replay_model.specs.Versions.{all_by, meaning_by};
ghost use Rattle.fetched_pages.specs.Meaning.{meaning};
ghost use Rattle.world.specs.{Limit.HasRoomBy, Restoring.MayStand, Restoring.restored};
ghost use Rattle.snapshot.specs.{declared.line.Line.TheVariants.Entity, Waiting.at_mark, Whole.after_line, Whole.beginning, Whole.noting};
ghost use Rattle.reorder_buffer.specs.Watermarks.{reached};
ghost use Rattle.checkpoint.specs.Loading.{HasNoRoomForLine, IsOutOfPlace, IsReady, LacksRoom, MayCome, loading_of, may_note};
ghost use Rattle.checkpoint.specs.Saved.{AreWithin};
ghost use Rattle.checkpoint.specs.declared.fault.LoadFault.TheVariants.{BadLine, Full, ReadFault, TooLong};

use checkpoint::{LoadFault, Stage};
use entity_model::EntityId;
use entity_state::{Cause, Entry, Record};
use rdf_term::{OutOfMemory, Text};
use snapshot::{Counts, Head, Line, replays_can_be_saved};
use std::alloc::Global;
use std::hash::RandomState;
use world::{RestoreFault, World, discard};

/// The greatest count with which a run may go on: it leaves a number for each question, record and line to come.
const MOST: u64 = 9_223_372_036_854_775_808;

/// The world that the lines so far put together.
#[derive(Drop)]
pub(crate) struct Loader {
    pub(crate) world: World,
    pub(crate) stage: Stage,
}

impl Loader {
    /// Before the first line, with room for so many terms in a world that is lean or not. The hashes of the world are keyed by `keys`.
    pub(crate) fn new(
        alloc: Global,
        keys: RandomState,
        room: u32,
        lean: bool,
    ) -> Result<Loader, OutOfMemory>
        ensures fresh { IfOk result (λ loader. (loader.stage ≡ Stage.Unbegun) × IsReady loader.world loader.stage 0) }
        ensures limit { IfOk result (λ loader. loader.world.limit ≡ record { terms = room; lean = lean }) }
    {
        let mut world = World::new(alloc, keys)?;
        match set_limit(&mut world, room, lean) {
            Ok(()) => Ok(Loader {
                world,
                stage: Stage::Unbegun,
            }),
            Err(OutOfMemory) => {
                discard(world);
                Err(OutOfMemory)
            }
        }
    }

    /// Takes the line with this number, where it may come.
    pub(crate) fn take(&mut self, line: Line, number: u64) -> Result<(), LoadFault>
        requires number { 1 ≤ number }
        requires ready { IsReady self.old.world self.old.stage (number - 1) }
        ensures ok { OnOk result (after_line (loading_of self.old.world self.old.stage (number - 1)) line ≡ Some (loading_of self.new.world self.new.stage number)) }
        ensures comes { OnOk result (MayCome (loading_of self.old.world self.old.stage (number - 1)) line) }
        ensures ready { OnOk result (IsReady self.new.world self.new.stage number) }
        ensures limit { self.new.world.limit ≡ self.old.world.limit }
        ensures bad { (n : ℕ) → IsErrOf result (BadLine n) → (n ≡ number) × IsOutOfPlace (loading_of self.old.world self.old.stage (number - 1)) line }
        ensures full { IsErrOf result Full → LacksRoom (loading_of self.old.world self.old.stage (number - 1)) self.old.world line }
        ensures within { OnOk result (¬ (HasNoRoomForLine self.old.world line)) }
        ensures others { ¬ (IsErrOf result ReadFault) × ¬ (IsErrOf result TooLong) }
    {
        match (self.stage, line) {
            (Stage::Unbegun, Line::Head(head)) => {
                if !are_within(head.counts) {
                    return Err(LoadFault::BadLine(number));
                }
                self.begin(head);
                Ok(())
            }
            (Stage::Begun(_), Line::Remembered(event)) => Ok(self.world.remember(event)?),
            (Stage::Begun(_), Line::Side(entry)) => note(&mut self.world, entry, number),
            (Stage::Begun(_), Line::Entity(id, entity)) => restore(
                &mut self.world,
                id,
                entity,
                number,
            ),
            (Stage::Begun(counts), Line::End(lines)) if lines == number - 1 => {
                self.stage = Stage::Ended(counts);
                Ok(())
            }
            (_, line) => {
                drop(line);
                Err(LoadFault::BadLine(number))
            }
        }
    }

    // Takes the head: the version, the horizon and the mark hold from now on.
    fn begin(&mut self, head: Head)
        requires { self.old.world.replay ≡ nothing_delivered }
        ensures world { self.new.world ≡ record self.old.world { replay = (beginning head).state; mapping = head.mapping } }
        ensures stage { self.new.stage ≡ Stage.Begun head.counts }
    {
        self.world.set_mapping(head.mapping);
        set_horizon(&mut self.world, head.horizon);
        set_mark(&mut self.world, head.mark);
        self.stage = Stage::Begun(head.counts);
    }
}

// Sets the limit on the terms of a new world, which is lean or not.
fn set_limit(world: &mut World, room: u32, lean: bool) -> Result<(), OutOfMemory>
    requires records { world.old.replay.played.records ≡ map.empty }
    requires by_two { world.old.by_two ≡ [] }
    requires all { world.old.limit.lean ≡ false }
    ensures { OnOk result (world.new ≡ record world.old { limit = record { terms = room; lean = lean } }) }
{
    if lean {
        return world.make_lean(room);
    }
    world.set_limit(room);
    Ok(())
}

// Whether a run may go on with these counts.
fn are_within(counts: Counts) -> bool
    ensures { (result ≡ true) ↔ AreWithin counts }
{
    counts.asks <= MOST && counts.matches <= MOST && counts.patches <= MOST && counts.lines <= MOST
}

// Sets the horizon, if there is one. Nothing was delivered yet.
fn set_horizon(world: &mut World, horizon: Option<u64>)
    requires { world.old.replay ≡ nothing_delivered }
    ensures { world.new ≡ record world.old { replay = nothing_delivered_within horizon } }
{
    if let Some(micros) = horizon {
        world.set_horizon(micros);
    }
}

// Takes the mark, if there is one. Nothing else was delivered yet.
fn set_mark(world: &mut World, mark: Option<i64>)
    requires { world.old.replay ≡ nothing_delivered_within world.old.replay.buffer.horizon }
    ensures { world.new ≡ record world.old { replay = record { buffer = at_mark world.old.replay.buffer.horizon mark []; played = nothing_played } } }
{
    replays_can_be_saved();
    if let Some(mark) = mark {
        world.raise(mark);
    }
}

// Notes an entry of the side output, which stands in the line with this number.
fn note(world: &mut World, entry: Entry, number: u64) -> Result<(), LoadFault>
    ensures ok { OnOk result (world.new ≡ record world.old { replay = noting world.old.replay entry }) }
    ensures sound { OnOk result (may_note world.old.replay.buffer.mark entry ≡ true) }
    ensures err { OnErr result (world.new ≡ world.old) }
    ensures bad { (n : ℕ) → IsErrOf result (BadLine n) → (n ≡ number) × ¬ (may_note world.old.replay.buffer.mark entry ≡ true) }
    ensures others { ¬ (IsErrOf result Full) × (¬ (IsErrOf result ReadFault) × ¬ (IsErrOf result TooLong)) }
{
    if !may_note(world.mark(), &entry) {
        return Err(LoadFault::BadLine(number));
    }
    match world.note(entry) {
        Ok(()) => Ok(()),
        Err(_) => Err(LoadFault::OutOfMemory),
    }
}

// Whether an entry of the side output may stand beside this mark: only events that the mark reached have failed fetches.
fn may_note(mark: Option<i64>, entry: &Entry) -> bool
    ensures { result ≡ may_note mark entry.now }
{
    match entry {
        Entry::Late(_) => true,
        Entry::Revision(event, _, Cause::Failed) => is_reached(mark, event.time),
        Entry::Revision(_, _, Cause::Missing) => true,
        Entry::Revision(_, _, Cause::Unfit(_)) => true,
    }
}

// Whether the mark reached this time.
fn is_reached(mark: Option<i64>, time: i64) -> bool
    ensures { result ≡ reached mark time }
{
    match mark {
        None => false,
        Some(mark) => time <= mark,
    }
}

// Puts the record of an entity back, which stands in the line with this number.
fn restore(
    world: &mut World,
    id: EntityId,
    entity: Record<Text>,
    number: u64,
) -> Result<(), LoadFault>
    ensures ok { OnOk result (world.new ≡ restored world.old id entity) }
    ensures sound { OnOk result (MayStand world.old.replay.played.side id entity) }
    ensures by_one { world.old.by_two ≡ all_by world.old.mapping world.old.replay.played.records →
        world.new.by_two ≡ all_by world.new.mapping world.new.replay.played.records }
    ensures held { HasRoomBy world.new.limit (meaning_by meaning world.new.by_two) world.new.replay.played.records }
    ensures err { OnErr result (world.new ≡ world.old) }
    ensures bad { (n : ℕ) → IsErrOf result (BadLine n) → (n ≡ number) × ¬ (MayStand world.old.replay.played.side id entity) }
    ensures full { IsErrOf result Full → MayStand world.old.replay.played.side id entity × HasNoRoomForLine world.old (Entity id entity) }
    ensures within { OnOk result (¬ (HasNoRoomForLine world.old (Entity id entity))) }
    ensures others { ¬ (IsErrOf result ReadFault) × ¬ (IsErrOf result TooLong) }
{
    match world.restore(id, entity) {
        Ok(()) => Ok(()),
        Err(RestoreFault::Unsound) => Err(LoadFault::BadLine(number)),
        Err(RestoreFault::Full) => Err(LoadFault::Full),
        Err(RestoreFault::OutOfMemory) => Err(LoadFault::OutOfMemory),
    }
}
