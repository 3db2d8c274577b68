// Triples of one owner that come.

ghost use Rattle.std.specs.Prelude.{◌≡◌, ◌<◌, ◌≤◌, true, [], length, take, vec_len, vec_capacity, Err, IsOk, OnOk};
ghost use Rattle.std.specs.FinMap as map;
ghost use Rattle.std.specs.List.{AllByRecursion};
ghost use Rattle.sorted_sets.specs.Rising.{IsRising, has};
ghost use Rattle.rdf_term.specs.{declared.triple.Triple.Triple, Fit.HasFitAndShortTerms, Order.triple_cmp};
ghost use Rattle.slot_keys.specs.{declared.key.Key.Key as TheKey, Keys.key_cmp};
ghost use Rattle.triple_catalog.specs.{Costs.Costs, Counts.count_of, Moves.TakesIn, Moves.triples_at, Room.room_for};
ghost use Rattle.triple_catalog.specs.Stored.{IsStored, counts_in, is_key, limit_of};

use crate::catalog::Catalog;
use crate::finding::{Near, known_subject};
use comparison_steps::StepCounter;
use slot_keys::{Added, Left, Met, NOWHERE, Seen};
use term_pool::PoolFault;
use text_region::Region;
use triple_texts::TripleTexts;

/// The keys that the owner had, what is left of their counts, and the triples that come. A key with a count stays.
#[derive(Clone, Copy)]
pub struct Swap<'a> {
    pub left: Left<'a>,
    pub new: &'a TripleTexts,
}

impl<'a> Swap<'a> {
    // How many more triples come than there are keys, about as many as are added.
    fn more(&self) -> usize {
        self.new.len().saturating_sub(self.left.keys.rising.len())
    }
}

impl Catalog {
    /// Puts the keys of the triples at the end of a list that has room. Each triple is counted once more, but for those of
    /// the keys that the owner had. After a fault the keys tell how far it came.
    pub fn take_in<C: StepCounter>(
        &mut self,
        region: &mut Region,
        swap: Swap<'_>,
        met: &mut Met,
        steps: &mut C,
    ) -> Result<(), PoolFault>
        requires stored { IsStored self.old region.old }
        requires fit { AllByRecursion HasFitAndShortTerms swap.new.now }
        requires rising { IsRising key_cmp swap.left.keys.rising.now }
        requires there { (key : TheKey) → has key_cmp key swap.left.keys.rising.now ≡ true → is_key self.old key ≡ true }
        requires countable { (triple : Triple) → has triple_cmp triple swap.new.now ≡ true → count_of (counts_in self.old region.old) triple < 18446744073709551615 }
        requires none { met.old.keys.items ≡ [] }
        requires room { length swap.new.now ≤ vec_capacity met.old.keys }
        requires no_old_indices { vec_len met.old.old_indices ≡ 0 }
        requires room_for_indices { length swap.new.now ≤ vec_capacity met.old.old_indices }
        ensures takes { TakesIn self.old region.old self.new region.new swap.entry.left.keys.rising.now met.new.keys.items (take (vec_len met.new.keys) swap.entry.new.now) }
        ensures along { triples_at self.new region.new met.new.keys.items ≡ take (vec_len met.new.keys) swap.entry.new.now }
        ensures whole { OnOk result (vec_len met.new.keys ≡ length swap.entry.new.now) }
        ensures full { result ≡ Err PoolFault.Full → limit_of self.old < room_for (counts_in self.old region.old) swap.entry.new.now }
        ensures free { swap.entry.new.now ≡ [] → IsOk result }
        ensures few { vec_len met.new.keys ≤ length swap.entry.new.now }
        ensures cost { Costs (map.len self.old.index) (map.len self.new.index) (length swap.entry.new.now) 0 (C.total steps.old) (C.total steps.new) }
    {
        let mut added = Added::new(self.alloc, swap.more());
        let mut seen = Seen::new(self.alloc, swap.more());
        let mut last = None;
        let mut next = 0;
        for index in 0..swap.new.len() {
            let texts = swap.new.get(index);
            let subject = known_subject(&self.pool, region, swap.new, index, last);
            let old = swap.left.keys;
            let near = Near {
                subject,
                last,
                seen: &seen,
                old,
                next,
            };
            let hints = match self.find_held(region, &texts, near, &added) {
                Ok(found) => {
                    met.keys.push_reserved(found.key);
                    met.old_indices.push_reserved(found.old_index);
                    last = Some(found.key);
                    next = found.next;
                    continue;
                }
                Err(hints) => hints,
            };
            let key = match self.add(region, &texts, hints, steps) {
                Ok(key) => key,
                Err(fault) => {
                    drop_both(added, seen);
                    return Err(fault);
                }
            };
            met.keys.push_reserved(key);
            met.old_indices.push_reserved(NOWHERE);
            seen.remember(texts.subject, key.first);
            seen.remember(texts.predicate, key.second);
            seen.remember(texts.object, key.third);
            last = Some(key);
            if added.insert(key).is_err() {
                drop_both(added, seen);
                return Err(PoolFault::OutOfMemory);
            }
        }
        drop_both(added, seen);
        Ok(())
    }
}

// Drops what was at hand. Each way out of `take_in` calls it, so this drop is proved once.
fn drop_both(_added: Added, _seen: Seen) {}
