// The stored triples, or those that agree with a pattern, and the number of the owners of one: the store's calls. A call that takes a
// counter tells it the steps in the index.

ghost use Rattle.std.specs.Prelude.{◌≡◌, ◌+◌, ◌*◌, ◌^◌, ◌<◌, ◌≤◌, ℕ, List, length, IfOk};
ghost use Rattle.std.specs.FinMap as map;
ghost use Rattle.sorted_sets.specs.Rising.{sorted};
ghost use Rattle.comparison_steps.specs.Steps.{WithinSteps};
ghost use Rattle.rdf_term.specs.{declared.triple.Triple.Triple as TheTriple, Order.triple_cmp, Pattern.rows};
ghost use Rattle.triple_catalog.specs.Counts.{count_of};
ghost use Rattle.triple_store.specs.{StoreState.AreKeysOf, StoreState.counts_in, Updates.AreStored};

use crate::store::Store;
use comparison_steps::{StepCounter, Uncounted};
use rdf_term::{OutOfMemory, Pattern, Triple, TripleSet};
use slot_keys::KeySlices;
use triple_catalog::Rows;

impl Store {
    /// The stored triples in their order. Each of their terms is ranked once, by its text, and the triples are sorted by the ranks of their
    /// terms: 12 bytes a triple, and 24 a term.
    pub fn rows(&self) -> Result<Rows<'_>, OutOfMemory>
        ensures rows { IfOk result (λ found. found ≡ map.keys (counts_in self.now)) }
    {
        self.catalog.all_rows(&self.region)
    }

    /// The stored triples, in memory of their own: each is read from its texts.
    pub fn all(&self) -> Result<TripleSet, OutOfMemory>
        ensures rows { IfOk result (λ set. set ≡ map.keys (counts_in self.now)) }
    {
        self.rows()?.to_set(self.catalog.alloc)
    }

    /// The stored triples that agree with the pattern. A wanted term costs one look-up; then it is one range of one index, and
    /// the triples of that range, three slices each, are sorted. Whatever the answer, it takes at most nine steps more than the triples that
    /// agree and the binary digits of the number of stored triples together.
    pub fn matching<C: StepCounter>(
        &self,
        pattern: &Pattern,
        steps: &mut C,
    ) -> Result<Rows<'_>, OutOfMemory>
        ensures rows { IfOk result (λ found. found ≡ rows (map.keys (counts_in self.now)) pattern.now) }
        ensures cost { WithinSteps (map.len (counts_in self.now)) (9 + length (rows (map.keys (counts_in self.now)) pattern.now)) (C.total steps.old) (C.total steps.new) }
    {
        self.catalog.matching(&self.region, pattern, steps)
    }

    /// How many stored triples agree with the pattern, which takes no memory. A wanted term costs one look-up; then it is the length of one
    /// range of one index, of which no triple is looked at but to find its ends. It takes at most twice as many steps as the number of
    /// stored triples has binary digits, and 16 more.
    pub fn matching_len<C: StepCounter>(&self, pattern: &Pattern, steps: &mut C) -> usize
        ensures len { result ≡ length (rows (map.keys (counts_in self.now)) pattern.now) }
        ensures forward { C.total steps.old ≤ C.total steps.new }
        ensures cost { (d : ℕ) → map.len (counts_in self.now) < 2 ^ d → C.total steps.new ≤ C.total steps.old + 2 * (d + 8) }
    {
        match self.catalog.slots_of(&self.region, pattern) {
            Some(wanted) => self.catalog.index.range_len(wanted, steps),
            None => 0,
        }
    }

    /// The stored triples that agree with the pattern, in memory of their own: each is read from its texts.
    pub fn matches(&self, pattern: &Pattern) -> Result<TripleSet, OutOfMemory>
        ensures rows { IfOk result (λ set. set ≡ rows (map.keys (counts_in self.now)) pattern.now) }
    {
        self.matching(pattern, &mut Uncounted)?
            .to_set(self.catalog.alloc)
    }

    /// The triples of one owner, which its keys tell: three slices each, which are sorted.
    pub fn rows_of(&self, keys: KeySlices<'_>) -> Result<Rows<'_>, OutOfMemory>
        requires stored { AreStored self.now keys.rising.now }
        ensures rows { IfOk result (λ found. (triples : List TheTriple) → AreKeysOf self.now keys.entry.rising.now triples → found ≡ sorted triple_cmp triples) }
    {
        self.catalog.rows_of(&self.region, keys.rising)
    }

    /// How many entities own the triple, which takes no memory: three look-ups and one search in one index, of at most eight steps more than
    /// the number of stored triples has binary digits.
    pub fn owners<C: StepCounter>(&self, triple: &Triple, steps: &mut C) -> u64
        ensures count { result ≡ count_of (counts_in self.now) triple.now }
        ensures cost { WithinSteps (map.len (counts_in self.now)) 8 (C.total steps.old) (C.total steps.new) }
    {
        match self.catalog.key_of(&self.region, triple) {
            Some(key) => self.catalog.index.count(key, steps),
            None => 0,
        }
    }
}
