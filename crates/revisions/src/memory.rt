// Revisions in memory, with calls that are to fail.

ghost use Rattle.std.specs.Prelude.{◌≡◌, ◌≢◌, ◌↔◌, ◌≤◌, Err, None, Some, IfErr, IsTrue, MatchResult, length, nat_le};
ghost use Rattle.std.specs.Option.{option_copied};
ghost use Rattle.std.proofs.lemmas.List.Sums.{count_by-le-length};
ghost use Rattle.wq_io.specs.Failing.{after_call, fails_next, failures};
ghost use Rattle.revisions.specs.Memory.{bytes_at, entry_at};
ghost use Rattle.revisions.specs.Revisions.{AgreesWith, HasCause, IsOtherwiseStill, counted};

use crate::revisions::{NoRevision, Revisions};
use base::{List, Text};
use std::alloc::Global;
use std::marker::Model;
use wq_io::FailingCalls;

/// The bytes of one revision: `place` is the folder that they are fetched from, and `rev` the number of the revision, from 1.
#[derive(Drop)]
pub struct RevisionBytes {
    pub place: Text,
    pub rev: u64,
    pub bytes: List<u8>,
}

/// Revisions in memory; of two entries with equal place and revision the last stands.
#[derive(Drop)]
pub struct MemoryRevisions {
    entries: List<RevisionBytes>,
    failing: FailingCalls,
    misses: u64,
}

impl Model for MemoryRevisions {
    ghost use Rattle.revisions.specs.Memory.{Stored};

    ghost Value = { Stored };

    ghost view = { λ a. record { entries = a.entries; calls = a.failing; misses = a.misses } };
}

impl MemoryRevisions {
    /// The calls whose numbers, from 1, are in `failing` fail.
    pub fn new(entries: List<RevisionBytes>, failing: List<u64>) -> MemoryRevisions
        ensures { result ≡ record {
          entries = entries;
          calls = record { numbers = failing; calls = 0 };
          misses = 0;
        } }
    {
        MemoryRevisions {
            entries,
            failing: FailingCalls::new(failing),
            misses: 0,
        }
    }

    /// How many calls were made, as far as 64 bits count them.
    pub fn fetches(&self) -> u64
        ensures { result ≡ self.now.calls.calls }
    {
        self.failing.calls()
    }

    // The entry at a place and revision.
    fn entry(&self, place: &str, rev: u64) -> Option<&RevisionBytes>
        ensures { option_copied result ≡ entry_at self.now.entries place.now rev }
    {
        self.entries
            .as_slice()
            .iter()
            .rev()
            .find(|entry| entry.place.as_str() == place && entry.rev == rev)
    }

    // A fetch found nothing.
    fn miss(&mut self) -> NoRevision
        ensures missing { result ≡ NoRevision.Missing }
        ensures counted { self.new ≡ record self.old { misses = counted self.old.misses } }
        ensures more { self.old.misses ≤ self.new.misses }
    {
        self.misses = self.misses.saturating_add(1);
        NoRevision::Missing
    }
}

impl Revisions for MemoryRevisions {
    ghost contents = { λ s. Some (bytes_at s.entries) };

    ghost calls = { λ s. s.calls.calls };

    ghost faults = { λ s. failures s.calls };

    ghost misses = { λ s. s.misses };

    ghost most_faults = { λ s. Some (length s.calls.numbers) };

    fn fetch(&mut self, alloc: Global, place: &str, rev: u64) -> Result<Vec<u8>, NoRevision>
        ensures listed { self.new.calls ≡ after_call self.old.calls }
        ensures fails { (result ≡ Err NoRevision.Failed) ↔ IsTrue (fails_next self.old.calls) }
        ensures refused { result ≡ Err NoRevision.OutOfMemory → bytes_at self.old.entries place.now rev ≢ None }
        ensures entries { self.new.entries ≡ self.old.entries }
        ensures told { Some (bytes_at self.new.entries) ≡ Some (bytes_at self.old.entries) }
        ensures called { self.new.calls.calls ≡ counted self.old.calls.calls }
        ensures bytes { let there = bytes_at self.old.entries place.now rev in
            MatchResult result (λ v. there ≡ Some v.items) (λ e. AgreesWith e there) }
        ensures cause { IfErr result (λ e.
            HasCause e self.old.misses self.new.misses (failures self.old.calls) (failures self.new.calls)) }
        ensures quiet { MatchResult result
            (λ _. (self.new.misses ≡ self.old.misses) × (failures self.new.calls ≡ failures self.old.calls))
            (λ e. IsOtherwiseStill e self.old.misses self.new.misses (failures self.old.calls) (failures self.new.calls)) }
        ensures more_faults { failures self.old.calls ≤ failures self.new.calls }
        ensures more_misses { self.old.misses ≤ self.new.misses }
        ensures most { Some (length self.new.calls.numbers) ≡ Some (length self.old.calls.numbers) }
    {
        if self.failing.next_fails() {
            return Err(NoRevision::Failed);
        }
        let Some(entry) = self.entry(place, rev) else {
            return Err(self.miss());
        };
        Vec::from_slice(alloc, entry.bytes.as_slice()).map_err(|_| NoRevision::OutOfMemory)
    }

    ghost within_most = { λ s. count_by-le-length (λ k. nat_le k s.calls.calls) s.calls.numbers };
}
