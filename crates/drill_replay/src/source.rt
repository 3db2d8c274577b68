// The revisions of a drill, as a source.

ghost use Rattle.std.specs.Prelude.{◌≡◌, ◌+◌, ◌-◌, ◌*◌, ◌^◌, ◌≤◌, Some, IsTrue, ◌↔◌, MatchResult, min};
ghost use Rattle.std.proofs.Common.{rules};
ghost use Rattle.drill_replay.specs.{Drill.IsSize, Drill.contents_of, Source.Explains, Source.after_fetch};

use crate::pages::page;
use base::OutOfMemory;
use revisions::{NoRevision, Revisions};
use std::alloc::Global;
use std::marker::Model;

/// The revisions of a drill, the same in every folder: each is made when it is fetched, and nothing is kept. A fetch never answers
/// `Failed`.
#[derive(Drop)]
pub struct DrillRevisions {
    size: u32,
    calls: u64,
    misses: u64,
}

impl Model for DrillRevisions {
    ghost use Rattle.drill_replay.specs.Source.{Source};

    ghost Value = { Source };

    ghost view = { λ a. record { size = a.size; calls = a.calls; misses = a.misses } };
}

impl DrillRevisions {
    /// The revisions of the drill of this size. No call was made yet.
    pub fn new(size: u32) -> DrillRevisions
        requires { IsSize size }
        ensures { result ≡ record { size = size; calls = 0; misses = 0 } }
    {
        DrillRevisions {
            size,
            calls: 0,
            misses: 0,
        }
    }

    // Whether the drill has the revision.
    fn has(&self, rev: u64) -> bool
        ensures { IsTrue result ↔ ((1 ≤ rev) × (rev ≤ 2 * self.now.size)) }
    {
        1 <= rev && rev <= 2 * u64::from(self.size)
    }

    // A fetch found nothing.
    fn miss(&mut self) -> NoRevision
        ensures missing { result ≡ NoRevision.Missing }
        ensures counted { self.new ≡ record self.old { misses = min (self.old.misses + 1) (2 ^ 64 - 1) } }
        ensures more { self.old.misses ≤ self.new.misses }
    {
        self.misses = self.misses.saturating_add(1);
        NoRevision::Missing
    }
}

impl Revisions for DrillRevisions {
    ghost contents = { λ s. Some (λ folder. contents_of s.size) };

    ghost calls = { λ s. s.calls };

    ghost faults = { λ _. 0 };

    ghost misses = { λ s. s.misses };

    ghost most_faults = { λ _. Some 0 };

    fn fetch(&mut self, alloc: Global, _place: &str, rev: u64) -> Result<Vec<u8>, NoRevision>
        ensures source { self.new ≡ after_fetch rev self.old }
        ensures answer { let there = contents_of self.old.size rev in
            MatchResult result (λ v. there ≡ Some v.items) (λ why. Explains why there) }
        ensures more_misses { self.old.misses ≤ self.new.misses }
    {
        self.calls = self.calls.saturating_add(1);
        if !self.has(rev) {
            return Err(self.miss());
        }
        match page(alloc, rev) {
            Ok(text) => Ok(text.into_bytes()),
            Err(OutOfMemory) => Err(NoRevision::OutOfMemory),
        }
    }

    ghost within_most = { λ _. Prim.search rules };
}
