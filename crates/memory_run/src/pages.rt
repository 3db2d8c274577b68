// Pages in memory that is lent.

ghost use Rattle.std.specs.Prelude.{◌≡◌, ◌==◌, ◌≤◌, ℕ, None, Some, [], true, take, IfErr, IfOk, MatchResult, OnOk};
ghost use Rattle.std.specs.{HashMap.get, Option.option_copied, Option.option_map};
ghost use Rattle.std.proofs.lemmas.List.Sums.{count_by-le-length};
ghost use Rattle.revisions.specs.Revisions.{AgreesWith, HasCause, IsOtherwiseStill, counted};
ghost use Rattle.memory_run.specs.Pages.{contents_of, page_at, part_of, place_at};

use rdf_term::OutOfMemory;
use revisions::{NoRevision, Revisions};
use std::alloc::Global;
use std::collections::HashMap;
use std::hash::RandomState;

/// Where the bytes of a revision begin among the bytes of all pages, and how many they are.
#[repr(C)]
#[derive(Clone, Copy, Debug)]
pub struct Place {
    pub revision: u64,
    pub start: usize,
    pub length: usize,
}

/// Pages in memory that is lent, whatever their folder; of several places of a revision the last stands, and one that isn't wholly within
/// the bytes has none. A place is found by its revision.
#[derive(Drop)]
pub struct LentPages<'a> {
    places: HashMap<u64, Place, RandomState>,
    bytes: &'a [u8],
    calls: u64,
    misses: u64,
}

impl<'a> LentPages<'a> {
    /// No call was made yet.
    pub fn new(
        alloc: Global,
        keys: RandomState,
        places: &[Place],
        bytes: &'a [u8],
    ) -> Result<LentPages<'a>, OutOfMemory>
        ensures places { IfOk result (λ pages. get ◌==◌ pages.places ≡ place_at places.now) }
        ensures bytes { IfOk result (λ pages. pages.bytes.now ≡ bytes.now) }
    {
        let mut by_revision = HashMap::with_hasher(alloc, keys);
        match index(places, &mut by_revision) {
            Ok(()) => Ok(LentPages {
                places: by_revision,
                bytes,
                calls: 0,
                misses: 0,
            }),
            Err(refused) => {
                drop(by_revision);
                Err(refused)
            }
        }
    }

    // The bytes of a revision.
    fn page(&self, rev: u64) -> Option<&'a [u8]>
        ensures { option_map (λ b. b.now) result ≡ page_at (get ◌==◌ self.now.places) self.now.bytes.now rev }
    {
        let place = self.places.get(&rev)?;
        part(self.bytes, place.start, place.length)
    }

    // A fetch found nothing.
    fn miss(&mut self) -> NoRevision
        ensures missing { result ≡ NoRevision.Missing }
        ensures counted { self.new ≡ record self.old { misses = counted self.old.misses } }
        ensures more { self.old.misses ≤ self.new.misses }
    {
        self.misses = self.misses.saturating_add(1);
        NoRevision::Missing
    }
}

// Puts each place at its revision, the last of each revision last.
fn index(
    places: &[Place],
    by_revision: &mut HashMap<u64, Place, RandomState>,
) -> Result<(), OutOfMemory>
    requires { (rev : ℕ) → get ◌==◌ by_revision.old rev ≡ None }
    ensures { OnOk result ((rev : ℕ) → get ◌==◌ by_revision.new rev ≡ place_at places.now rev) }
{
    for place in places {
        by_revision.insert(place.revision, *place)?;
    }
    Ok(())
}

// So many bytes from a start on, if they are there.
fn part(bytes: &[u8], start: usize, len: usize) -> Option<&[u8]>
    ensures { option_map (λ b. b.now) result ≡ part_of bytes.now start len }
{
    if start > bytes.len() || len > bytes.len() - start {
        return None;
    }
    Some(&bytes[start..start + len])
}

impl<'a> Revisions for LentPages<'a> {
    ghost contents = { λ s. Some (contents_of (get ◌==◌ s.places) s.bytes.now) };

    ghost calls = { λ s. s.calls };

    ghost faults = { λ _. 0 };

    ghost misses = { λ s. s.misses };

    ghost most_faults = { λ _. Some 0 };

    fn fetch(&mut self, alloc: Global, _place: &str, rev: u64) -> Result<Vec<u8>, NoRevision>
        ensures places { self.new.places ≡ self.old.places }
        ensures lent { self.new.bytes ≡ self.old.bytes }
        ensures told { Some (contents_of (get ◌==◌ self.new.places) self.new.bytes.now) ≡ Some (contents_of (get ◌==◌ self.old.places) self.old.bytes.now) }
        ensures called { self.new.calls ≡ counted self.old.calls }
        ensures bytes { let there = page_at (get ◌==◌ self.old.places) self.old.bytes.now rev in
            MatchResult result (λ v. there ≡ Some v.items) (λ e. AgreesWith e there) }
        ensures cause { IfErr result (λ e. HasCause e self.old.misses self.new.misses 0 0) }
        ensures more_faults { 0 ≤ 0 }
        ensures more_misses { self.old.misses ≤ self.new.misses }
    {
        self.calls = self.calls.saturating_add(1);
        let Some(page) = self.page(rev) else {
            return Err(self.miss());
        };
        Vec::from_slice(alloc, page).map_err(|_| NoRevision::OutOfMemory)
    }

    ghost within_most = { λ _. count_by-le-length {X = ℕ} (λ _. true) [] };
}
