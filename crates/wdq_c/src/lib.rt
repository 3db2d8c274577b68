//! The library for C: one run over memory that the caller lends.
//!
//! `wdq_run` is the whole of it. The crate memory_run has the run; docs/LIBRARY.md says what a caller owes who isn't Rattle.
#![tactic(auto)]

ghost use Rattle.std.specs.Prelude.{◌≡◌, ◌+◌, ◌++◌, ◌≤◌, length, take, IfSome};
ghost use Rattle.memory_run.specs.{Pages.contents_of, Pages.place_at, Runs.words_in};
ghost use Rattle.run_model.specs.Status.{status_number as number_of};
ghost use Rattle.wdq_c.specs.End.{IsEnd, IsSaid, IsShown, last_saved};

use base::List;
use memory_run::{Ended, Given, GivenKeys, Place, run_over};
use session::{Status, status_number, status_text};
use std::alloc::Global;

/// How a run ended: the exit status that the program would have, and how many bytes there are of what it printed, of the snapshot that it kept
/// last, and of the line that says how it ended.
#[repr(C)]
#[derive(Clone, Copy, Debug)]
pub struct WdqEnd {
    pub status: u64,
    pub printed: usize,
    pub saved: usize,
    pub said: usize,
}

/// Runs the command that the lines of `words` name over this input and these pages. What it printed is put at the front of `out`, then the
/// snapshot that it kept last, and then the line that says how it ended. Where `out` has no room for all three, `end` says how much they need.
///
/// `--save` and `--resume` want names, which may be any: the snapshot to go on from is `resumed`. The keys are random numbers, so that nobody
/// can choose terms that the store finds slowly.
#[unsafe(no_mangle)]
pub extern "C" fn wdq_run(
    alloc: Global,
    key0: u64,
    key1: u64,
    words: &[u8],
    events: &[u8],
    resumed: &[u8],
    places: &[Place],
    pages: &[u8],
    out: &mut [u8],
    end: &mut WdqEnd,
)
    ensures length { length out.new ≡ length out.old }
    ensures end { IsEnd words.now
        (record { words = words_in words.now; events = events.now; resumed = resumed.now; pages = contents_of (place_at places.now) pages.now })
        end.new out.new }
{
    let keys = GivenKeys {
        low: key0,
        high: key1,
    };
    let given = Given {
        words,
        events,
        resumed,
        places,
        pages,
    };
    let ended = run_over(alloc, keys, given);
    *end = show(alloc, &ended, out);
    drop(ended);
}

// Puts what a run left into the buffer.
fn show(alloc: Global, ended: &Ended, out: &mut [u8]) -> WdqEnd
    ensures length { length out.new ≡ length out.old }
    ensures shown { IsShown ended.now.status ended.now.out.held ended.now.snapshots.kept result out.new }
{
    let printed = ended.out.bytes();
    let saved = last(ended.snapshots.kept());
    put(printed, 0, out);
    put(saved, printed.len(), out);
    let said = say(alloc, &ended.status, printed.len() + saved.len(), out);
    WdqEnd {
        status: u64::from(status_number(&ended.status)),
        printed: printed.len(),
        saved: saved.len(),
        said,
    }
}

// The bytes of the last of these snapshots; nothing where there is none.
fn last(snapshots: &[List<u8>]) -> &[u8]
    ensures { result.now ≡ last_saved snapshots.now }
{
    match snapshots.last() {
        Some(snapshot) => snapshot.as_slice(),
        None => &[],
    }
}

// Puts the line that says how a run ended into the buffer, and says how long it is; nothing where memory is refused.
fn say(alloc: Global, status: &Status, start: usize, out: &mut [u8]) -> usize
    ensures length { length out.new ≡ length out.old }
    ensures front { take start out.new ≡ take start out.old }
    ensures said { IsSaid status.now result start out.old out.new }
{
    let Ok(said) = status_text(alloc, status) else {
        return 0;
    };
    let bytes = said.as_str().as_bytes();
    put(bytes, start, out);
    let many = bytes.len();
    drop(said);
    many
}

// Puts bytes into the buffer, from a start on, if there is room.
fn put(bytes: &[u8], start: usize, out: &mut [u8])
    ensures length { length out.new ≡ length out.old }
    ensures front { take start out.new ≡ take start out.old }
    ensures put { start + length bytes.now ≤ length out.new → take (start + length bytes.now) out.new ≡ take start out.old ++ bytes.now }
{
    if start > out.len() || bytes.len() > out.len() - start {
        return;
    }
    out[start..start + bytes.len()].copy_from_slice(bytes);
}
