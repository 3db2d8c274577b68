// The lines of a snapshot are read, and put into a world.

ghost use Rattle.std.specs.Prelude.{◌≡◌, ◌⊎◌, ℕ, ◌+◌, ◌-◌, ◌^◌, ◌<◌, ◌≤◌, true, None, Some, length, min, IfErr, IfOk, IfSome, IsErrOf, OnOk};
ghost use Rattle.std.specs.Str.{IsUtf8};
ghost use Rattle.wq_io.specs.Streams.{IsAtEnd};
ghost use Rattle.entity_model.specs.{Event.event_cmp, declared.event.Event.Event};
ghost use Rattle.replay_model.specs.{Explained.is_applied, Replies.failed_events, Versions.meaning_by};
ghost use Rattle.sorted_sets.specs.Rising.{has};
ghost use Rattle.fetched_pages.specs.Meaning.{meaning};
ghost use Rattle.world.specs.{Limit.HasRoomBy, WorldState.WorldState};
ghost use Rattle.snapshot.specs.declared.line.Line.{Line as ALine};
ghost use Rattle.snapshot.specs.{File.saved_in_bytes, LineText.line_of, Whole.whole};
ghost use Rattle.checkpoint.specs.Causes.{HasCause};
ghost use Rattle.checkpoint.specs.Loading.{HasNoRoomForLine, HoldsDocuments, IsReady, IsRefused, IsResting, Overfills, LoadsLine, loading_of};
ghost use Rattle.checkpoint.specs.Saved.{AreWithin, saved_of, world_of};
ghost use Rattle.checkpoint.specs.declared.fault.LoadFault.TheVariants.{BadLine, Full, ReadFault, TooLong};
ghost use Rattle.checkpoint.specs.declared.stage.Stage.TheVariants.{Ended, Unbegun};

use crate::loader::Loader;
use checkpoint::{LoadFault, Stage};
use snapshot::{Counts, Line, read};
use std::alloc::Global;
use std::hash::RandomState;
use std::str;
use world::{World, discard};
use wq_io::{Lines, Source};

/// The most bytes that a file may have.
const LONGEST_FILE: u64 = 1_099_511_627_776;

/// The most bytes that a line may have without its line feed: a page has at most 8,388,608, of which each is at most six in JSON.
const LONGEST_LINE: u64 = 67_108_864;

/// A world that was loaded, and the counts from which a run continues with it.
#[derive(Drop)]
pub struct Loaded {
    pub world: World,
    pub counts: Counts,
}

/// Reads a snapshot into a new world, lean or not, whose limit on terms is `room`: the world that was saved. Every page is mapped by the
/// version in force, and no event is due. The hashes of the world are keyed by `keys`. Whoever made the file, each held page is a document
/// of its entity, an entity holds what its state wants exactly if no entry of the side output says otherwise, each event with a failed
/// fetch was applied, what is stored is within the limit, and each count is at most 2^63.
///
/// # Errors
/// The file can't be read, or is too long; a line may not come there, is over-long or lacks its line feed, or the lines end too early; what
/// is stored of the pages' triples has more distinct terms than the limit; or memory is refused. The first line that is refused or lacks
/// room decides, so of one file and one kind of world with one room at most one of these two is said, and one line.
pub fn load<S: Source>(
    alloc: Global,
    keys: RandomState,
    room: u32,
    lean: bool,
    file: &mut S,
) -> Result<Loaded, LoadFault>
    ensures saved { IfOk result (λ loaded. IfSome (S.left file.old) (λ bytes. saved_in_bytes bytes ≡ Some (saved_of loaded.world loaded.counts))) }
    ensures world { IfOk result (λ loaded. loaded.world ≡ world_of (record { terms = room; lean = lean }) (saved_of loaded.world loaded.counts)) }
    ensures rests { IfOk result (λ loaded. IsResting loaded.world.replay.buffer) }
    ensures applied { IfOk result (λ loaded. (e : Event) → has event_cmp e (failed_events loaded.world.replay.played.side) ≡ true → is_applied loaded.world.replay e ≡ true) }
    ensures documents { IfOk result (λ loaded. HoldsDocuments loaded.world.replay.played.records) }
    ensures held { IfOk result (λ loaded. HasRoomBy loaded.world.limit (meaning_by meaning loaded.world.by_two) loaded.world.replay.played.records) }
    ensures counts { IfOk result (λ loaded. AreWithin loaded.counts) }
    ensures whole { OnOk result (IsAtEnd (S.left file.new)) }
    ensures fault { IfErr result (λ fault. HasCause fault (record { terms = room; lean = lean }) (S.left file.old) (S.faults file.old) (S.faults file.new)) }
    ensures later { S.faults file.old ≤ S.faults file.new }
    ensures most { S.most_faults file.new ≡ S.most_faults file.old }
{
    let mut loader = Loader::new(alloc, keys, room, lean)?;
    let mut line = Vec::new(alloc);
    let loaded = load_lines(alloc, file, &mut line, &mut loader);
    drop(line);
    match loaded {
        Ok(counts) => Ok(Loaded {
            world: loader.world,
            counts,
        }),
        Err(fault) => {
            discard(loader.world);
            Err(fault)
        }
    }
}

// Takes the lines of the file, each in the buffer `line`. Says the counts that go on with the world that they put together.
fn load_lines<S: Source>(
    alloc: Global,
    file: &mut S,
    line: &mut Vec<u8>,
    loader: &mut Loader,
) -> Result<Counts, LoadFault>
    requires stage { loader.old.stage ≡ Unbegun }
    requires ready { IsReady loader.old.world loader.old.stage 0 }
    ensures saved { IfOk result (λ counts. IfSome (S.left file.old) (λ bytes. saved_in_bytes bytes ≡ Some (saved_of loader.new.world counts))) }
    ensures world { IfOk result (λ counts. loader.new.world ≡ world_of loader.old.world.limit (saved_of loader.new.world counts)) }
    ensures rests { OnOk result (IsResting loader.new.world.replay.buffer) }
    ensures applied { OnOk result ((e : Event) → has event_cmp e (failed_events loader.new.world.replay.played.side) ≡ true → is_applied loader.new.world.replay e ≡ true) }
    ensures documents { OnOk result (HoldsDocuments loader.new.world.replay.played.records) }
    ensures held { OnOk result (HasRoomBy loader.new.world.limit (meaning_by meaning loader.new.world.by_two) loader.new.world.replay.played.records) }
    ensures counts { IfOk result AreWithin }
    ensures whole { OnOk result (IsAtEnd (S.left file.new)) }
    ensures fault { IfErr result (λ fault. HasCause fault loader.old.world.limit (S.left file.old) (S.faults file.old) (S.faults file.new)) }
    ensures later { S.faults file.old ≤ S.faults file.new }
    ensures most { S.most_faults file.new ≡ S.most_faults file.old }
{
    let mut lines = Lines::with_limit(LONGEST_FILE, LONGEST_LINE);
    let mut given = 0;
    let mut length = 0;
    while let Some(number) = lines.next(file, line)? {
        take_line(alloc, line.as_slice(), number, loader)?;
        given = number;
        length = with_line(length, line.as_slice());
    }
    if lines.taken() != length {
        return Err(LoadFault::BadLine(given));
    }
    match counts_at_end(loader.stage, given) {
        Ok(counts) => Ok(counts),
        Err(fault) => Err(fault),
    }
}

// The counts of the head, where the last of so many lines was taken.
fn counts_at_end(stage: Stage, given: u64) -> Result<Counts, LoadFault>
    requires { given < 2 ^ 63 }
    ensures counts { IfOk result (λ counts. stage ≡ Ended counts) }
    ensures fault { IfErr result (λ fault. fault ≡ BadLine (given + 1)) }
    ensures short { IfErr result (λ _. (w : WorldState) → whole (loading_of w stage given) ≡ None) }
{
    match stage {
        Stage::Unbegun => Err(LoadFault::BadLine(given + 1)),
        Stage::Begun(_) => Err(LoadFault::BadLine(given + 1)),
        Stage::Ended(counts) => Ok(counts),
    }
}

// The length of the lines with one more and the line feed that ends it, as far as 64 bits count it.
fn with_line(so_far: u64, line: &[u8]) -> u64
    ensures { result ≡ min (so_far + length line.now + 1) (2 ^ 64 - 1) }
{
    so_far.saturating_add(line.len() as u64).saturating_add(1)
}

// Takes the line with this number, where it may come.
fn take_line(alloc: Global, text: &[u8], number: u64, loader: &mut Loader) -> Result<(), LoadFault>
    requires number { 1 ≤ number }
    requires ready { IsReady loader.old.world loader.old.stage (number - 1) }
    ensures ok { OnOk result (LoadsLine text.now (loading_of loader.old.world loader.old.stage (number - 1)) (loading_of loader.new.world loader.new.stage number)) }
    ensures ready { OnOk result (IsReady loader.new.world loader.new.stage number) }
    ensures limit { loader.new.world.limit ≡ loader.old.world.limit }
    ensures bad { (n : ℕ) → IsErrOf result (BadLine n) → (n ≡ number) × IsRefused text.now (loading_of loader.old.world loader.old.stage (number - 1)) }
    ensures full { IsErrOf result Full → Overfills text.now (loading_of loader.old.world loader.old.stage (number - 1)) loader.old.world }
    ensures within { OnOk result ((item : ALine) → line_of text.now ≡ Some item → ¬ (HasNoRoomForLine loader.old.world item)) }
    ensures others { ¬ (IsErrOf result ReadFault) × ¬ (IsErrOf result TooLong) }
{
    match read_line(alloc, text, number) {
        Ok(line) => loader.take(line, number),
        Err(fault) => Err(fault),
    }
}

// Reads the line with this number.
fn read_line(alloc: Global, text: &[u8], number: u64) -> Result<Line, LoadFault>
    ensures ok { IfOk result (λ line. line_of text.now ≡ Some line) }
    ensures text { OnOk result (IsUtf8 text.now) }
    ensures bad { (n : ℕ) → IsErrOf result (BadLine n) → (n ≡ number) × (¬ (IsUtf8 text.now) ⊎ (line_of text.now ≡ None)) }
    ensures others { ¬ (IsErrOf result Full) × (¬ (IsErrOf result ReadFault) × ¬ (IsErrOf result TooLong)) }
{
    let Ok(text) = str::from_utf8(text) else {
        return Err(LoadFault::BadLine(number));
    };
    match read(alloc, text) {
        Ok(Some(line)) => Ok(line),
        Ok(None) => Err(LoadFault::BadLine(number)),
        Err(_) => Err(LoadFault::OutOfMemory),
    }
}
