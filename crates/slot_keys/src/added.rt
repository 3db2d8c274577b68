// Keys that are found again.

ghost use Rattle.std.specs.Prelude.{◌≡◌, ◌||◌, ◌↔◌, false, slice_get, None, Some, IsTrue, OnOk};
ghost use Rattle.slot_keys.specs.{declared.key.Key.Key as TheKey, Keys.same_key};
ghost use Rattle.slot_keys.specs.Added.{AreApart, bucket_of, is_added};

use crate::key::Key;
use base::OutOfMemory;
use std::alloc::Global;
use std::collections::BTreeSet;

// How many buckets there are for each key that may come.
pub(crate) const BUCKETS: usize = 4;

// Odd numbers that spread slots over the buckets.
const FIRST: u64 = 2_246_822_519;

const SECOND: u64 = 668_265_263;

const THIRD: u64 = 374_761_393;

/// The keys that were added: in each bucket the first one that came there, and all others in order. So a key mostly costs one look, and never
/// more than a search, whoever chose the keys.
#[derive(Drop)]
pub struct Added {
    firsts: Vec<Option<Key>>,
    others: BTreeSet<Key>,
}

impl Added {
    /// No keys, with buckets for about so many. Where memory for these is refused, it does without.
    pub fn new(alloc: Global, room: usize) -> Added
        ensures none { (key : TheKey) → is_added result key ≡ false }
        ensures apart { AreApart result }
    {
        let mut firsts = Vec::new(alloc);
        let others = BTreeSet::new(alloc);
        match firsts.resize(room.saturating_mul(BUCKETS), None) {
            Ok(()) => Added { firsts, others },
            Err(_) => Added { firsts, others },
        }
    }

    /// Whether the key was added.
    pub fn contains(&self, key: &Key) -> bool
        ensures { result ≡ is_added self.now key.now }
    {
        match self.first(bucket_of(key, self.firsts.len())) {
            None => self.others.contains(key),
            Some(None) => false,
            Some(Some(first)) => *key == first || self.others.contains(key),
        }
    }

    /// Adds a key. Where memory is refused, the set isn't used again.
    pub fn insert(&mut self, key: Key) -> Result<(), OutOfMemory>
        requires apart { AreApart self.old }
        ensures added { OnOk result ((other : TheKey) → is_added self.new other ≡ (same_key other key || is_added self.old other)) }
        ensures apart { OnOk result (AreApart self.new) }
    {
        let bucket = bucket_of(&key, self.firsts.len());
        if self.is_empty(bucket) {
            self.firsts[bucket] = Some(key);
            return Ok(());
        }
        self.others.insert(key)?;
        Ok(())
    }

    // Whether there is such a bucket, and no key in it.
    fn is_empty(&self, bucket: usize) -> bool
        ensures { IsTrue result ↔ (slice_get self.now.firsts.items bucket ≡ Some None) }
    {
        match self.first(bucket) {
            Some(None) => true,
            Some(Some(_)) => false,
            None => false,
        }
    }

    // The first key that came into a bucket, where there is such a bucket.
    fn first(&self, bucket: usize) -> Option<Option<Key>>
        ensures { result ≡ slice_get self.now.firsts.items bucket }
    {
        self.firsts.get(bucket).copied()
    }
}

// The bucket of a key among so many.
#[tactic(auto, unfolding(crate::specs::Added::bucket_of))]
pub(crate) fn bucket_of(key: &Key, buckets: usize) -> usize
    ensures { result ≡ bucket_of key.now buckets }
{
    let mixed = u64::from(key.first) * FIRST
        + u64::from(key.second) * SECOND
        + u64::from(key.third) * THIRD;
    (mixed % buckets.max(1) as u64) as usize
}
