// The revisions of a folder.

ghost use Rattle.std.specs.Prelude.{◌≡◌, ◌≤◌, None, IfErr, MatchResult};
ghost use Rattle.revisions.specs.Revisions.{HasCause, IsOtherwiseStill, counted};

use crate::revisions::{NoRevision, Revisions};
use std::alloc::Global;
use std::fs;
use std::fs::OpenFile;
use std::io::{ErrorKind, Read};
use std::rt::Files;

/// One byte more than a page may have, so that a page that is too large shows.
const LONGEST_READ: u64 = 8_388_609;

/// The files `<place>/<rev>.json`, with the revision in decimal. It tells nothing of its contents.
#[derive(Drop)]
pub struct Folder<R: Files> {
    runtime: R,
    calls: u64,
    faults: u64,
    misses: u64,
}

impl<R: Files> Folder<R> {
    /// No call was made yet.
    pub fn new(runtime: R) -> Folder<R>
        ensures { (result.calls ≡ 0) × (result.faults ≡ 0) × (result.misses ≡ 0) }
    {
        Folder {
            runtime,
            calls: 0,
            faults: 0,
            misses: 0,
        }
    }

    // Counts what a call found.
    fn count(&mut self, why: NoRevision)
        ensures called { self.new.calls ≡ self.old.calls }
        ensures cause { HasCause why self.old.misses self.new.misses self.old.faults self.new.faults }
        ensures others { IsOtherwiseStill why self.old.misses self.new.misses self.old.faults self.new.faults }
        ensures more_faults { self.old.faults ≤ self.new.faults }
        ensures more_misses { self.old.misses ≤ self.new.misses }
    {
        match why {
            NoRevision::Missing => self.misses = self.misses.saturating_add(1),
            NoRevision::Failed => self.faults = self.faults.saturating_add(1),
            NoRevision::OutOfMemory => {}
        }
    }

    // The file's bytes, as many as a page may have and one.
    fn read(&self, alloc: Global, place: &str, rev: u64) -> Result<Vec<u8>, NoRevision> {
        let path = format!(in alloc; "{place}/{rev}.json").map_err(|_| NoRevision::OutOfMemory)?;
        let file = fs::open(&self.runtime, path.as_str()).map_err(|e| refusal(e.kind()))?;
        let mut bytes = Vec::with_capacity(alloc, room(&file)).map_err(
            |_| NoRevision::OutOfMemory,
        )?;
        file.take(LONGEST_READ)
            .read_to_end(&mut bytes)
            .map_err(|e| refusal(e.kind()))?;
        Ok(bytes)
    }
}

// How much room a file gets before it is read: its length and one byte, so that its end shows without more room. The length is only a hint:
// if it is missing or wrong, the file is still read to its end.
fn room<F: OpenFile>(file: &F) -> usize {
    let length = file.metadata().map_or(0, |found| found.len());
    length.saturating_add(1).min(LONGEST_READ) as usize
}

// Why the file system gave nothing: only a file that isn't there is missing.
fn refusal(kind: ErrorKind) -> NoRevision {
    match kind {
        ErrorKind::NotFound => NoRevision::Missing,
        ErrorKind::OutOfMemory => NoRevision::OutOfMemory,
        _ => NoRevision::Failed,
    }
}

impl<R: Files> Revisions for Folder<R> {
    ghost contents = { λ _. None };

    ghost calls = { λ s. s.calls };

    ghost faults = { λ s. s.faults };

    ghost misses = { λ s. s.misses };

    ghost most_faults = { λ _. None };

    fn fetch(&mut self, alloc: Global, place: &str, rev: u64) -> Result<Vec<u8>, NoRevision>
        ensures called { self.new.calls ≡ counted self.old.calls }
        ensures cause { IfErr result (λ e.
            HasCause e self.old.misses self.new.misses self.old.faults self.new.faults) }
        ensures quiet { MatchResult result
            (λ _. (self.new.misses ≡ self.old.misses) × (self.new.faults ≡ self.old.faults))
            (λ e. IsOtherwiseStill e self.old.misses self.new.misses self.old.faults self.new.faults) }
        ensures more_faults { self.old.faults ≤ self.new.faults }
        ensures more_misses { self.old.misses ≤ self.new.misses }
    {
        self.calls = self.calls.saturating_add(1);
        let outcome = self.read(alloc, place, rev);
        if let Err(why) = &outcome {
            self.count(*why);
        }
        outcome
    }

    ghost within_most = { λ _. tt };
}
