// One run over memory that is lent.

ghost use Rattle.std.specs.Prelude.{◌≡◌, ◌==◌, ◌⊎◌, [], map, string_bytes, IfOk};
ghost use Rattle.std.specs.HashMap.{get};
ghost use Rattle.memory_run.specs.Pages.{contents_of, place_at};
ghost use Rattle.memory_run.specs.Runs.{IsRun, Leaves, words_in};

use crate::keys::GivenKeys;
use crate::pages::{LentPages, Place};
use crate::words::read_words;
use checkpoint::MemorySnapshots;
use rdf_term::{List, OutOfMemory};
use session::{Ports, Status, run};
use std::alloc::Global;
use std::hash::RandomState;
use world::{World, discard};
use wq_io::{MemorySink, MemorySource};

/// What a run is lent.
#[derive(Clone, Copy, Debug)]
pub struct Given<'a> {
    /// The words of the command, a line each.
    pub words: &'a [u8],
    /// The input: event lines, or the records of a follower.
    pub events: &'a [u8],
    /// The snapshot that a run with `--resume` goes on from, whatever the file is named.
    pub resumed: &'a [u8],
    /// Where each page is.
    pub places: &'a [Place],
    /// The bytes of all pages.
    pub pages: &'a [u8],
}

/// How a run ended, what it printed, and the snapshots that it kept, in their order.
#[derive(Drop)]
pub struct Ended {
    pub status: Status,
    pub out: MemorySink,
    pub snapshots: MemorySnapshots,
}

// The ports of a run over memory.
type MemoryPorts<'a> = Ports<MemorySource, LentPages<'a>, MemorySink, MemorySnapshots>;

/// Runs the command that the words name over this input and these pages. `--resume` and `--save` want names of files, which may be any: the
/// snapshot to go on from is `resumed`, and those that the run keeps are in what it leaves.
pub fn run_over(alloc: Global, keys: GivenKeys, given: Given<'_>) -> Ended
    ensures { Leaves given.entry.words.now
        (record {
          words = words_in given.entry.words.now;
          events = given.entry.events.now;
          resumed = given.entry.resumed.now;
          pages = contents_of (place_at given.entry.places.now) given.entry.pages.now;
        })
        result.status result.out.held result.snapshots.kept }
{
    let words = match read_words(alloc, given.words) {
        Ok(words) => words,
        Err(status) => return not_begun(alloc, status),
    };
    let Ok((keys, mut ports)) = lend(alloc, keys, given) else {
        drop(words);
        return not_begun(alloc, Status::OutOfMemory);
    };
    let status = run_in_new_world(alloc, keys, words.as_slice(), &mut ports);
    drop(words);
    let Ports {
        events,
        resumed,
        revisions,
        out,
        snapshot,
    } = ports;
    drop(events);
    drop(resumed);
    drop(revisions);
    Ended {
        status,
        out,
        snapshots: snapshot,
    }
}

// A run that wasn't begun.
fn not_begun(alloc: Global, status: Status) -> Ended
    ensures status { result.status ≡ status }
    ensures printed { result.out.held ≡ [] }
    ensures kept { result.snapshots.kept ≡ [] }
{
    Ended {
        status,
        out: MemorySink::new(alloc, usize::MAX, List::new(alloc)),
        snapshots: MemorySnapshots::new(alloc, List::new(alloc)),
    }
}

// The keys of hashes, and the ports over what is lent.
fn lend<'a>(
    alloc: Global,
    keys: GivenKeys,
    given: Given<'a>,
) -> Result<(RandomState, MemoryPorts<'a>), OutOfMemory>
    ensures input { IfOk result (λ lent. (lent.1.events.left ≡ given.entry.events.now) × (lent.1.events.calls.numbers ≡ [])) }
    ensures resumed { IfOk result (λ lent. (lent.1.resumed.left ≡ given.entry.resumed.now) × (lent.1.resumed.calls.numbers ≡ [])) }
    ensures pages { IfOk result (λ lent. (get ◌==◌ lent.1.revisions.places ≡ place_at given.entry.places.now) × (lent.1.revisions.bytes.now ≡ given.entry.pages.now)) }
    ensures out { IfOk result (λ lent. (lent.1.out.held ≡ []) × (lent.1.out.calls.numbers ≡ [])) }
    ensures snapshots { IfOk result (λ lent. (lent.1.snapshot.kept ≡ []) × (lent.1.snapshot.calls.numbers ≡ [])) }
{
    let Ok(keys) = RandomState::new(&keys) else {
        return Err(OutOfMemory);
    };
    let revisions = LentPages::new(alloc, keys, given.places, given.pages)?;
    let events = Vec::from_slice(alloc, given.events)?;
    let resumed = Vec::from_slice(alloc, given.resumed)?;
    let ports = Ports {
        events: MemorySource::new(events, usize::MAX, List::new(alloc)),
        resumed: MemorySource::new(resumed, usize::MAX, List::new(alloc)),
        revisions,
        out: MemorySink::new(alloc, usize::MAX, List::new(alloc)),
        snapshot: MemorySnapshots::new(alloc, List::new(alloc)),
    };
    Ok((keys, ports))
}

// Runs the top call over a new world. Nothing else stands in this function, since the proof of each call and way out after the top call would
// go over all that the top call promises.
fn run_in_new_world(
    alloc: Global,
    keys: RandomState,
    words: &[String],
    ports: &mut MemoryPorts<'_>,
) -> Status
    requires reads { ports.old.events.calls.numbers ≡ [] }
    requires loads { ports.old.resumed.calls.numbers ≡ [] }
    requires out { (ports.old.out.held ≡ []) × (ports.old.out.calls.numbers ≡ []) }
    requires snapshots { (ports.old.snapshot.kept ≡ []) × (ports.old.snapshot.calls.numbers ≡ []) }
    ensures { IsRun
        (record {
          words = map (λ w. string_bytes w) words.now;
          events = ports.old.events.left;
          resumed = ports.old.resumed.left;
          pages = contents_of (get ◌==◌ ports.old.revisions.places) ports.old.revisions.bytes.now;
        })
        result ports.new.out.held ports.new.snapshot.kept
        ⊎ ((result ≡ Status.OutOfMemory) × (ports.new ≡ ports.old)) }
{
    let Ok(world) = World::new(alloc, keys) else {
        return Status::OutOfMemory;
    };
    let (status, world) = run(alloc, keys, words, ports, world);
    discard(world);
    status
}
