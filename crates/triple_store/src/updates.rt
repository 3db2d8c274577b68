// Triples get owners and lose them: the store's calls. A counter is told their steps in the index.

ghost use Rattle.std.specs.Prelude.{◌≡◌, ◌+◌, ◌<◌, false, List, [], length, IfNone, IfOk, IfSome, IsTrue, OnErr};
ghost use Rattle.std.specs.FinMap as map;
ghost use Rattle.sorted_sets.specs.Rising.{IsRising};
ghost use Rattle.rdf_term.specs.declared.triple.Triple.{Triple as TheTriple};
ghost use Rattle.slot_keys.specs.{KeyCounts.AddKeys, Keys.key_cmp};
ghost use Rattle.triple_catalog.specs.Costs.{Costs};
ghost use Rattle.triple_store.specs.{StoreState.counts_in, Telling.if_told};
ghost use Rattle.triple_store.specs.Updates.{AreLeft, AreLeftWithout, AreStored, AreTimesOf, ComesTo, Exceeds, IsExchange, IsPatched, IsRelease, KeepsRest, MayCome, MayGo};

use crate::StoreFault;
use crate::store::Store;
use crate::telling::{Sides, Telling, Told, change_if};
use crate::times::{less_times, once_without};
use comparison_steps::StepCounter;
use rdf_term::{OutOfMemory, Triple};
use slot_keys::{
    KeySlices, Keys, KeysBeside, Left, Met, all_in_order, copied, keys_beside, no_keys_met,
    times_after,
};
use std::alloc::Global;
use triple_catalog::Swap;
use triple_patch::Patch;
use triple_sink::emit_all;
use triple_texts::TripleTexts;

/// What an exchange gives.
#[derive(Drop)]
pub struct Exchange {
    /// The keys of the triples that the owner has from now on.
    pub keys: Keys,
    /// How many times the triple of each key comes, in the order of the keys; empty where this isn't known.
    pub times: Vec<u16>,
    /// What the exchange told of its change of the stored triples.
    pub change: Told,
}

impl Store {
    /// Puts the triples of one owner in the place of those that it had. Beside the keys of these stands what is left of the times of each,
    /// or nothing where the new triples are all that the owner has then. What is left needs no texts, no look-up and no comparison; a new
    /// triple that the owner had costs only comparisons if it comes in the order of the walk, and look-ups otherwise. If asked, the exchange
    /// tells whether it changed which triples are stored, or which it added to these and which it removed: that takes a look-up at most for
    /// each old and each new triple, and for their lines memory. After a fault every triple has the count that it had. The times are empty where one is above
    /// 65,535 or memory for them is refused. It takes at most 8 (d + 8) steps for each triple that the owner has from now on and 3 (d + 8)
    /// for each that it had, and 3 (d + 8) more for each where the change is told, or whether there was one; d is the number of binary digits of the number of
    /// stored triples and of those that it has from now on together.
    pub fn exchange<C: StepCounter>(
        &mut self,
        left: Left<'_>,
        new: &TripleTexts,
        telling: Telling,
        steps: &mut C,
    ) -> Result<Exchange, StoreFault>
        requires may_come { MayCome self.old new.now }
        requires stored { AreStored self.old left.keys.rising.now }
        requires as_many { 0 < length left.counts.now → length left.counts.now ≡ length left.keys.rising.now }
        ensures exchanged { IsExchange telling self.old self.new left.entry.keys.rising.now left.entry.counts.now new.now result }
        ensures rest { KeepsRest self.old self.new }
        ensures cost { (before after : List TheTriple) → ComesTo self.old left.entry.keys.rising.now left.entry.counts.now new.now before after → Costs (map.len (counts_in self.old)) (map.len (counts_in self.new)) (length after) (if_told telling (length after + length left.entry.keys.rising.now) + (length after + length left.entry.keys.rising.now)) (C.total steps.old) (C.total steps.new) }
    {
        if is_nothing(left, new) {
            return self.exchange_for_none(left.keys, telling, steps);
        }
        let alloc = self.catalog.alloc;
        let Ok(mut met) = no_keys_met(alloc, new.len()) else {
            return Err(StoreFault::OutOfMemory);
        };
        let old = left.keys.rising;
        let swap = Swap { left, new };
        let taken = self
            .catalog
            .take_in(&mut self.region, swap, &mut met, steps);
        if let Err(fault) = taken {
            let these = all_in_order(alloc, old, met);
            self.catalog.undo(&mut self.region, these, old, steps);
            return Err(fault);
        }
        let Ok(laid) = keys_beside(alloc, left, &met) else {
            let these = all_in_order(alloc, old, met);
            self.catalog.undo(&mut self.region, these, old, steps);
            return Err(StoreFault::OutOfMemory);
        };
        let KeysBeside { keys, counts, gone } = laid;
        let rising = keys.slices().rising;
        let sides = Sides { old, new: rising };
        let Ok(change) = change_if(&self.catalog, telling, &self.region, sides, steps) else {
            self.catalog.undo(&mut self.region, keys, old, steps);
            return Err(StoreFault::OutOfMemory);
        };
        self.catalog
            .remove_beside(&mut self.region, gone.as_slice(), rising, steps);
        Ok(timed(alloc, keys, counts, change, met))
    }

    // The same where nothing is left and nothing comes. Only the lines of a change take memory.
    fn exchange_for_none<C: StepCounter>(
        &mut self,
        old: KeySlices<'_>,
        telling: Telling,
        steps: &mut C,
    ) -> Result<Exchange, StoreFault>
        requires stored { AreStored self.old old.rising.now }
        ensures exchanged { IsExchange telling self.old self.new old.entry.rising.now [] [] result }
        ensures rest { KeepsRest self.old self.new }
        ensures cost { Costs (map.len (counts_in self.old)) (map.len (counts_in self.new)) 0 (if_told telling (length old.entry.rising.now) + length old.entry.rising.now) (C.total steps.old) (C.total steps.new) }
    {
        let alloc = self.catalog.alloc;
        match self.release(old, telling, steps) {
            Ok(change) => Ok(Exchange {
                keys: Keys::none(alloc),
                times: Vec::new(alloc),
                change,
            }),
            Err(_) => Err(StoreFault::OutOfMemory),
        }
    }

    /// What is left of the times of an owner's triples after some are gone, in the order of the keys. `None` where the times aren't known, which
    /// an empty list says, or a triple that is gone isn't one of the owner's as many times. Where the walk comes to the key of a triple, this
    /// compares texts and looks nothing up. It asks for memory for a copy of the times alone, and only where there are as many as keys.
    pub fn times_left(
        &self,
        keys: KeySlices<'_>,
        times: &[u16],
        gone: &TripleTexts,
    ) -> Result<Option<Vec<u16>>, OutOfMemory>
        requires { AreStored self.now keys.rising.now }
        ensures left { IfOk result (λ known. IfSome known (λ left. AreLeft self.now keys.entry.rising.now times.now left.items gone.now)) }
        ensures as_many { IfOk result (λ known. IfSome known (λ left. length left.items ≡ length keys.entry.rising.now)) }
        ensures some { IfOk result (λ known. IfSome known (λ left. 0 < length left.items)) }
        ensures none { IfOk result (λ known. IfNone known (0 < length times.now → (before : List TheTriple) → AreTimesOf self.now keys.entry.rising.now times.now before → Exceeds gone.now before)) }
        ensures err { OnErr result ((0 < length times.now) × (length times.now ≡ length keys.entry.rising.now)) }
    {
        if times.is_empty() || times.len() != keys.rising.len() {
            return Ok(None);
        }
        let counts = copied(self.catalog.alloc, times)?;
        Ok(less_times(&self.catalog, &self.region, keys, counts, gone))
    }

    /// What is left of an owner's triples, of which each counts once, after some are gone, in the order of the keys: 1 or 0. One that is
    /// gone twice, or that isn't the owner's, changes nothing. Where the walk comes to the key of a triple, this compares texts and looks
    /// nothing up. It asks for memory for these numbers alone.
    pub fn left_without(
        &self,
        keys: KeySlices<'_>,
        gone: &TripleTexts,
    ) -> Result<Vec<u16>, OutOfMemory>
        requires { AreStored self.now keys.rising.now }
        ensures { IfOk result (λ left. AreLeftWithout self.now keys.entry.rising.now left.items gone.now) }
    {
        let mut ones = Vec::new(self.catalog.alloc);
        ones.resize(keys.rising.len(), 1)?;
        Ok(once_without(&self.catalog, &self.region, keys, ones, gone))
    }

    /// Takes one owner away from the triples of these keys. If asked, it tells whether it made triples stored no longer, or which: only to tell
    /// which takes memory. After `OutOfMemory` the store is as it was. It takes at most 3 (d + 8) steps for each key, and as many more where
    /// something is told, where d is the number of binary digits of the number of stored triples.
    pub fn release<C: StepCounter>(
        &mut self,
        old: KeySlices<'_>,
        telling: Telling,
        steps: &mut C,
    ) -> Result<Told, OutOfMemory>
        requires stored { AreStored self.old old.rising.now }
        ensures released { IsRelease telling self.old self.new old.entry.rising.now result }
        ensures rest { KeepsRest self.old self.new }
        ensures cost { Costs (map.len (counts_in self.old)) (map.len (counts_in self.new)) 0 (if_told telling (length old.entry.rising.now) + length old.entry.rising.now) (C.total steps.old) (C.total steps.new) }
    {
        let old = old.rising;
        let sides = Sides { old, new: &[] };
        let change = change_if(&self.catalog, telling, &self.region, sides, steps)?;
        self.catalog
            .remove_beside(&mut self.region, old, &[], steps);
        Ok(change)
    }

    /// Counts one owner more of each triple that comes and one less of each that goes; what has no owner left is no longer
    /// stored. After a fault every triple has the count that it had. Where none comes it takes no memory and always succeeds.
    /// It takes at most 8 (d + 8) steps for each triple that comes and 3 (d + 8) for each that goes, where d is the number of binary digits
    /// of the number of stored triples and those that come together.
    pub fn apply<C: StepCounter>(&mut self, patch: &Patch, steps: &mut C) -> Result<(), StoreFault>
        requires may_come { MayCome self.old patch.now.adds }
        requires may_go { MayGo self.old patch.now.removes }
        ensures patched { IsPatched self.old self.new patch.now.removes patch.now.adds result }
        ensures rest { KeepsRest self.old self.new }
        ensures cost { Costs (map.len (counts_in self.old)) (map.len (counts_in self.new)) (length patch.now.adds) (length patch.now.adds + length patch.now.removes) (C.total steps.old) (C.total steps.new) }
    {
        let removes = patch.removes.items();
        if patch.adds.items().is_empty() {
            self.catalog.remove_all(&mut self.region, removes, steps);
            return Ok(());
        }
        let Ok(texts) = texts_of(self.catalog.alloc, patch.adds.items()) else {
            return Err(StoreFault::OutOfMemory);
        };
        let left = Left {
            keys: KeySlices::none(),
            counts: &[],
        };
        match self.exchange(left, &texts, Telling::Nothing, steps) {
            Ok(_given) => {
                self.catalog.remove_all(&mut self.region, removes, steps);
                Ok(())
            }
            Err(fault) => Err(fault),
        }
    }
}

// Whether nothing is left and nothing comes.
fn is_nothing(left: Left<'_>, new: &TripleTexts) -> bool
    ensures none { IsTrue result → (left.entry.counts.now ≡ []) × (new.now ≡ []) }
    ensures some { result ≡ false → left.entry.counts.now ≡ [] → new.now ≡ [] → ⊥ }
{
    left.counts.is_empty() && new.len() == 0
}

// What an exchange gave, with the times of its keys: what is left of each count, and once more for each time that its key was met.
fn timed(alloc: Global, keys: Keys, counts: Vec<u16>, change: Told, met: Met) -> Exchange
    requires rising { IsRising key_cmp keys.rising.items }
    requires as_many { length counts.items ≡ length keys.rising.items }
    ensures keys { result.keys ≡ keys }
    ensures change { result.change ≡ change }
    ensures times { 0 < length result.times.items → AddKeys keys.rising.items counts.items result.times.items met.keys.items }
{
    let times = times_after(alloc, keys.slices(), counts, met.keys.as_slice());
    Exchange {
        keys,
        times,
        change,
    }
}

// Triples by their texts.
fn texts_of(alloc: Global, triples: &[Triple]) -> Result<TripleTexts, OutOfMemory>
    ensures { IfOk result (λ texts. texts ≡ triples.now) }
{
    let mut texts = TripleTexts::new(alloc);
    emit_all(alloc, triples, &mut texts)?;
    Ok(texts)
}
