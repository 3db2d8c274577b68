// A set of triples.

ghost use Rattle.std.specs.Prelude.{◌≡◌, IsOkAnd};
ghost use Rattle.sorted_sets.specs.Rising.{IsRising, has, sorted};

use crate::triple::Triple;
use base::{List, OutOfMemory};
use std::marker::Model;

/// A set of triples. Contracts see the list of its triples, which rises strictly.
#[derive(Drop)]
pub struct TripleSet {
    rows: List<Triple>,
}

impl Model for TripleSet {
    ghost use Rattle.std.specs.Prelude.{List};
    ghost use Rattle.sorted_sets.specs.Rising.{IsRising};
    ghost use Rattle.rdf_term.specs.{declared.triple.Triple.Triple, Order.triple_cmp};

    ghost Value = { List Triple };

    ghost view = { λ set. set.rows };

    ghost invariant = { λ set. IsRising triple_cmp set.rows };
}

impl TripleSet {
    ghost use Rattle.rdf_term.specs.Order.{triple_cmp};

    /// The set of the list's triples. It sorts once, drops the triples that stand there again, and takes no
    /// memory.
    pub fn from_list(list: List<Triple>) -> Result<TripleSet, OutOfMemory>
        ensures { IsOkAnd result (λ set. set ≡ sorted triple_cmp list) }
    {
        let mut rows = list.into_vec();
        rows.sort_unstable();
        rows.dedup();
        Ok(TripleSet {
            rows: List::from_vec(rows),
        })
    }

    /// The set of triples that rise strictly already, without a sort.
    pub fn from_rising(rows: List<Triple>) -> TripleSet
        requires { IsRising triple_cmp rows }
        ensures { result ≡ rows }
    {
        TripleSet { rows }
    }

    /// Gives the triples away, in strictly rising order.
    pub fn into_list(self) -> List<Triple>
        ensures items { result ≡ self }
        ensures rising { IsRising triple_cmp self }
    {
        let TripleSet { rows } = self;
        rows
    }

    /// The triples in strictly rising order.
    pub fn items(&self) -> &[Triple]
        ensures items { result.now ≡ self.now }
        ensures rising { IsRising triple_cmp self.now }
    {
        self.rows.as_slice()
    }

    /// Whether the triple is in the set, by binary search.
    pub fn contains(&self, triple: &Triple) -> bool
        ensures { result ≡ has triple_cmp triple.now self.now }
    {
        self.rows.as_slice().binary_search(triple).is_ok()
    }
}
