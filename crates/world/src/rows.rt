// The triples of all that is held, or of what one entity holds, in their order, and the number of the owners of each. A lean world, which
// doesn't store them all, answers none of this.

ghost use Rattle.std.specs.Prelude.{◌≡◌, false, length, IfOk};
ghost use Rattle.std.specs.List.{AllByRecursion};
ghost use Rattle.rdf_term.specs.{Fit.HasFitAndShortTerms, Order.triple_cmp, Pattern.rows};
ghost use Rattle.replay_model.specs.{Records.record_of, Union.owners, Union.triples_held, Union.union, Versions.meaning_by};
ghost use Rattle.fetched_pages.specs.Meaning.{meaning};

use crate::world::World;
use entity_model::EntityId;
use rdf_term::{OutOfMemory, Pattern, Triple, TripleSet};
use triple_store::{Rows, Uncounted};

impl World {
    /// The triples of all that is held. Their terms are fit and short.
    pub fn export(&self) -> Result<TripleSet, OutOfMemory>
        requires { self.now.limit.lean ≡ false }
        ensures value { IfOk result (λ set. set ≡ union triple_cmp (meaning_by meaning self.now.by_two) self.now.replay.played.records) }
        ensures fit { IfOk result (AllByRecursion HasFitAndShortTerms) }
    {
        self.holdings.whole().store().all()
    }

    /// The stored triples that match the pattern, in order, in memory of their own.
    pub fn matches(&self, pattern: &Pattern) -> Result<TripleSet, OutOfMemory>
        requires { self.now.limit.lean ≡ false }
        ensures { IfOk result (λ set. set ≡ rows (union triple_cmp (meaning_by meaning self.now.by_two) self.now.replay.played.records) pattern.now) }
    {
        self.holdings.whole().store().matches(pattern)
    }

    /// The triples of what an entity holds, by the version that its page is mapped by; none if it holds nothing. Their terms are fit and
    /// short.
    #[tactic(auto, using(crate::proofs::Fit::held_fit))]
    pub fn set_of(&self, id: EntityId) -> Result<TripleSet, OutOfMemory>
        requires { self.now.limit.lean ≡ false }
        ensures value { IfOk result (λ set. set ≡ triples_held (meaning_by meaning self.now.by_two) id (record_of self.now.replay.played.records id).held) }
        ensures fit { IfOk result (AllByRecursion HasFitAndShortTerms) }
    {
        self.holdings.whole().triples_of(id)
    }

    /// How many entities hold the triple, which takes no memory.
    pub fn owners(&self, triple: &Triple) -> u64
        requires { self.now.limit.lean ≡ false }
        ensures { result ≡ owners triple_cmp (meaning_by meaning self.now.by_two) self.now.replay.played.records triple.now }
    {
        self.holdings.whole().store().owners(triple, &mut Uncounted)
    }

    /// The triples of all that is held, in order, without a copy of their texts.
    pub fn rows(&self) -> Result<Rows<'_>, OutOfMemory>
        requires { self.now.limit.lean ≡ false }
        ensures { IfOk result (λ found. found ≡ union triple_cmp (meaning_by meaning self.now.by_two) self.now.replay.played.records) }
    {
        self.holdings.whole().store().rows()
    }

    /// The stored triples that match the pattern, in order, without a copy of their texts.
    pub fn matching(&self, pattern: &Pattern) -> Result<Rows<'_>, OutOfMemory>
        requires { self.now.limit.lean ≡ false }
        ensures { IfOk result (λ found. found ≡ rows (union triple_cmp (meaning_by meaning self.now.by_two) self.now.replay.played.records) pattern.now) }
    {
        self.holdings
            .whole()
            .store()
            .matching(pattern, &mut Uncounted)
    }

    /// How many stored triples match the pattern, which takes no memory: the call looks at triples only to find the ends of their range.
    pub fn matching_len(&self, pattern: &Pattern) -> usize
        requires { self.now.limit.lean ≡ false }
        ensures { result ≡ length (rows (union triple_cmp (meaning_by meaning self.now.by_two) self.now.replay.played.records) pattern.now) }
    {
        self.holdings
            .whole()
            .store()
            .matching_len(pattern, &mut Uncounted)
    }
}
