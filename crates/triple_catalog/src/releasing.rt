// Triples of one owner that go.

ghost use Rattle.std.specs.Prelude.{◌≡◌, ◌<◌, true, length};
ghost use Rattle.std.specs.FinMap as map;
ghost use Rattle.sorted_sets.specs.Rising.{IsRising, difference, has};
ghost use Rattle.rdf_term.specs.{declared.triple.Triple.Triple as TheTriple, Order.triple_cmp};
ghost use Rattle.slot_keys.specs.{declared.key.Key.Key as TheKey, Keys.key_cmp};
ghost use Rattle.triple_catalog.specs.{Costs.Costs, Counts.count_of, Moves.Loses, Moves.Removes, Stored.IsStored, Stored.counts_in, Stored.is_key};

use crate::catalog::Catalog;
use comparison_steps::StepCounter;
use rdf_term::Triple;
use slot_keys::{Key, Keys, find_from};
use text_region::Region;

impl Catalog {
    /// Takes one owner away from the triples of keys that came, but for the old ones. The keys are dropped. It takes no memory.
    pub fn undo<C: StepCounter>(
        &mut self,
        region: &mut Region,
        came: Keys,
        old: &[Key],
        steps: &mut C,
    )
        requires stored { IsStored self.old region.old }
        requires rising { IsRising key_cmp came.rising.items }
        requires others { IsRising key_cmp old.now }
        requires there { (key : TheKey) → has key_cmp key came.rising.items ≡ true → is_key self.old key ≡ true }
        ensures removes { Removes self.old region.old self.new region.new (difference key_cmp came.rising.items old.now) }
        ensures cost { Costs (map.len self.old.index) (map.len self.new.index) 0 (length came.rising.items) (C.total steps.old) (C.total steps.new) }
    {
        self.remove_beside(region, came.slices().rising, old, steps);
    }

    /// Takes one owner away from the triples of these keys, but for the keys that are among others. It takes no memory.
    pub fn remove_beside<C: StepCounter>(
        &mut self,
        region: &mut Region,
        keys: &[Key],
        others: &[Key],
        steps: &mut C,
    )
        requires stored { IsStored self.old region.old }
        requires rising { IsRising key_cmp keys.now }
        requires others { IsRising key_cmp others.now }
        requires there { (key : TheKey) → has key_cmp key keys.now ≡ true → is_key self.old key ≡ true }
        ensures removes { Removes self.old region.old self.new region.new (difference key_cmp keys.now others.now) }
        ensures cost { Costs (map.len self.old.index) (map.len self.new.index) 0 (length keys.now) (C.total steps.old) (C.total steps.new) }
    {
        let mut next = 0;
        for key in keys {
            match find_from(others, *key, next) {
                Ok(index) => next = index + 1,
                Err(index) => {
                    self.remove(region, *key, steps);
                    next = index;
                }
            }
        }
    }

    /// Counts one owner less of each triple. It takes no memory.
    pub fn remove_all<C: StepCounter>(
        &mut self,
        region: &mut Region,
        triples: &[Triple],
        steps: &mut C,
    )
        requires stored { IsStored self.old region.old }
        requires rising { IsRising triple_cmp triples.now }
        requires there { (triple : TheTriple) → has triple_cmp triple triples.now ≡ true → 0 < count_of (counts_in self.old region.old) triple }
        ensures loses { Loses self.old region.old self.new region.new triples.now }
        ensures cost { Costs (map.len self.old.index) (map.len self.new.index) 0 (length triples.now) (C.total steps.old) (C.total steps.new) }
    {
        for triple in triples {
            let Some(key) = self.key_of(region, triple) else {
                unreachable!()
            };
            self.remove(region, key, steps);
        }
    }
}
