// What a record changes of stored triples.

ghost use Rattle.std.specs.Prelude.{◌≡◌, ◌+◌, ◌<◌, ◌≤◌, [], List, filter, false, true, is_some, Err, IfNone, IfOk, IfSome, IsOk, IsTrue, MatchOption, None, OnErr, OnOk, Some};
ghost use Rattle.std.specs.FinMap as map;
ghost use Rattle.std.specs.List.{AllByRecursion};
ghost use Rattle.sorted_sets.specs.Rising.{IsRising, has};
ghost use Rattle.rdf_term.specs.{declared.triple.Triple.Triple as TheTriple, Order.triple_cmp};
ghost use Rattle.triple_store.specs.{Counts.Exchanges, Updates.AreStored, Updates.KeepsRest, Updates.MayCome};
ghost use Rattle.triple_store.specs.StoreState.{AreKeysOf, counts_in, limit_of};
ghost use Rattle.replica.specs.{declared.record.PatchRecord.PatchRecord as TheRecord, Record.IsSound, TripleLine.HasReadableTerms};
ghost use Rattle.replica.specs.Applying.{AreGained, KeepsCounts};
ghost use Rattle.replica.specs.Replica.{AreOwnedOnce, effect, is_at_side, patched, patched_if, terms_with, waiting_at};

use crate::reading_back::read_set;
use crate::record::PatchRecord;
use rdf_term::{List, OutOfMemory, Triple, TripleSet};
use std::alloc::Global;
use std::collections::BTreeMap;
use triple_patch::Patch;
use triple_store::{Exchange, KeySlices, Keys, Left, Store, StoreFault, Telling, Uncounted};
use triple_texts::TripleTexts;

/// Applies the record of this number, if one waits, and says whether one did. After a fault the store has the triples that it had.
pub fn apply_waiting(
    alloc: Global,
    store: &mut Store,
    waiting: &BTreeMap<u64, PatchRecord>,
    number: u64,
) -> Result<bool, StoreFault>
    requires once { AreOwnedOnce (counts_in store.old) }
    requires sound { (item : TheRecord) → waiting_at waiting.now.entries number ≡ Some item → IsSound item }
    ensures once { AreOwnedOnce (counts_in store.new) }
    ensures answer { IfOk result (λ moved. moved ≡ is_some (waiting_at waiting.now.entries number)) }
    ensures ok { OnOk result (map.keys (counts_in store.new) ≡ patched_if (map.keys (counts_in store.old)) (waiting_at waiting.now.entries number)) }
    ensures err { OnErr result (map.keys (counts_in store.new) ≡ map.keys (counts_in store.old)) }
    ensures full { result ≡ Err StoreFault.Full → MatchOption (waiting_at waiting.now.entries number) ⊥ (λ item. limit_of store.old < terms_with (map.keys (counts_in store.old)) item.adds) }
    ensures within { OnOk result (IfSome (waiting_at waiting.now.entries number) (λ item. terms_with (map.keys (counts_in store.old)) item.adds ≤ limit_of store.old)) }
    ensures limit { limit_of store.new ≡ limit_of store.old }
    ensures free { waiting_at waiting.now.entries number ≡ None → IsOk result }
{
    match waiting.get(&number) {
        Some(item) => match apply(alloc, store, item) {
            Ok(()) => Ok(true),
            Err(fault) => Err(fault),
        },
        None => Ok(false),
    }
}

// Applies the record.
fn apply(alloc: Global, store: &mut Store, item: &PatchRecord) -> Result<(), StoreFault>
    requires once { AreOwnedOnce (counts_in store.old) }
    requires sound { IsSound item.now }
    ensures once { AreOwnedOnce (counts_in store.new) }
    ensures ok { OnOk result (map.keys (counts_in store.new) ≡ patched (map.keys (counts_in store.old)) item.now) }
    ensures err { OnErr result (map.keys (counts_in store.new) ≡ map.keys (counts_in store.old)) }
    ensures full { result ≡ Err StoreFault.Full → limit_of store.old < terms_with (map.keys (counts_in store.old)) item.now.adds }
    ensures within { OnOk result (terms_with (map.keys (counts_in store.old)) item.now.adds ≤ limit_of store.old) }
    ensures limit { limit_of store.new ≡ limit_of store.old }
{
    if apply_at_once(store, item) {
        Ok(())
    } else {
        apply_effect(alloc, store, item)
    }
}

// Applies the record if each triple that goes is stored and none that comes is, and says whether it did. All records of one producer are
// such. Then no triple is read back from its texts. Otherwise the store has the triples that it had.
fn apply_at_once(store: &mut Store, item: &PatchRecord) -> bool
    requires once { AreOwnedOnce (counts_in store.old) }
    requires sound { IsSound item.now }
    ensures once { AreOwnedOnce (counts_in store.new) }
    ensures done { IsTrue result → map.keys (counts_in store.new) ≡ patched (map.keys (counts_in store.old)) item.now }
    ensures within { IsTrue result → terms_with (map.keys (counts_in store.old)) item.now.adds ≤ limit_of store.old }
    ensures same { result ≡ false → map.keys (counts_in store.new) ≡ map.keys (counts_in store.old) }
    ensures limit { limit_of store.new ≡ limit_of store.old }
{
    let Some(gone) = gain(store, &item.removes, 0) else {
        return false;
    };
    match gain(store, &item.adds, item.adds.len()) {
        Some(came) => {
            drop(came);
            release(store, &gone);
            release(store, &gone);
            drop(gone);
            true
        }
        None => {
            release(store, &gone);
            drop(gone);
            false
        }
    }
}

// Gives each triple one owner more, if so many of them aren't stored yet, and answers their keys. Otherwise, or where there is no room or no
// memory, each has as many as before.
fn gain(store: &mut Store, triples: &TripleTexts, fresh: usize) -> Option<Keys>
    requires { MayCome store.old triples.now }
    ensures some { IfSome result (λ keys. AreGained store.old store.new triples.now fresh keys.rising.items) }
    ensures none { IfNone result (KeepsCounts store.old store.new) }
    ensures rest { KeepsRest store.old store.new }
{
    let before = store.triples();
    let left = Left {
        keys: KeySlices::none(),
        counts: &[],
    };
    let Ok(given) = store.exchange(left, triples, Telling::Nothing, &mut Uncounted) else {
        return None;
    };
    let Exchange {
        keys,
        times,
        change,
    } = given;
    drop(times);
    drop(change);
    if has_more(store, before, fresh) {
        Some(keys)
    } else {
        release(store, &keys);
        drop(keys);
        None
    }
}

// Whether the store has so many triples more than before.
fn has_more(store: &Store, before: usize, more: usize) -> bool
    ensures { result ≡ true → map.len (counts_in store.now) ≡ before + more }
{
    let count = store.triples();
    before <= count && count - before == more
}

// Takes one owner away from each triple of these keys.
fn release(store: &mut Store, keys: &Keys)
    requires { AreStored store.old keys.now.rising.items }
    ensures owners { (triples : List TheTriple) → AreKeysOf store.old keys.now.rising.items triples → Exchanges (counts_in store.old) (counts_in store.new) triples [] }
    ensures rest { KeepsRest store.old store.new }
{
    let released = store.release(keys.slices(), Telling::Nothing, &mut Uncounted);
    drop(released);
}

// Applies the record by the patch that does what it says.
fn apply_effect(alloc: Global, store: &mut Store, item: &PatchRecord) -> Result<(), StoreFault>
    requires once { AreOwnedOnce (counts_in store.old) }
    requires sound { IsSound item.now }
    ensures once { AreOwnedOnce (counts_in store.new) }
    ensures ok { OnOk result (map.keys (counts_in store.new) ≡ patched (map.keys (counts_in store.old)) item.now) }
    ensures err { OnErr result (map.keys (counts_in store.new) ≡ map.keys (counts_in store.old)) }
    ensures full { result ≡ Err StoreFault.Full → limit_of store.old < terms_with (map.keys (counts_in store.old)) item.now.adds }
    ensures within { OnOk result (terms_with (map.keys (counts_in store.old)) item.now.adds ≤ limit_of store.old) }
    ensures limit { limit_of store.new ≡ limit_of store.old }
{
    let Ok(patch) = effect(alloc, store, item) else {
        return Err(StoreFault::OutOfMemory);
    };
    store.apply(&patch, &mut Uncounted)
}

// The patch that does what the record says: of the triples that come those that aren't stored, and of those that go those that are.
#[tactic(auto, unfolding(crate::specs::Replica::effect))]
fn effect(alloc: Global, store: &Store, item: &PatchRecord) -> Result<Patch, OutOfMemory>
    requires once { AreOwnedOnce (counts_in store.now) }
    requires sound { IsSound item.now }
    ensures { IfOk result (λ patch. patch ≡ effect (map.keys (counts_in store.now)) item.now) }
{
    Ok(Patch {
        adds: read_some(alloc, store, &item.adds, false)?,
        removes: read_some(alloc, store, &item.removes, true)?,
    })
}

// Those of the triples that are stored, or those that aren't.
fn read_some(
    alloc: Global,
    store: &Store,
    triples: &TripleTexts,
    stored: bool,
) -> Result<TripleSet, OutOfMemory>
    requires owned { AreOwnedOnce (counts_in store.now) }
    requires rising { IsRising triple_cmp triples.now }
    requires readable { AllByRecursion HasReadableTerms triples.now }
    ensures { IfOk result (λ set. set ≡ filter (is_at_side (map.keys (counts_in store.now)) stored) triples.now) }
{
    let set = read_set(alloc, triples)?;
    let some = copies(alloc, store, set.items(), stored);
    drop(set);
    some
}

// Copies of those of the triples that are stored, or of those that aren't.
fn copies(
    alloc: Global,
    store: &Store,
    triples: &[Triple],
    stored: bool,
) -> Result<TripleSet, OutOfMemory>
    requires owned { AreOwnedOnce (counts_in store.now) }
    requires rising { IsRising triple_cmp triples.now }
    ensures { IfOk result (λ set. set ≡ filter (is_at_side (map.keys (counts_in store.now)) stored) triples.now) }
{
    let mut list = List::new(alloc);
    for triple in triples {
        if is_stored(store, triple) == stored {
            list.push(triple.copy(alloc)?)?;
        }
    }
    Ok(TripleSet::from_rising(list))
}

// Whether the triple is stored.
fn is_stored(store: &Store, triple: &Triple) -> bool
    requires { AreOwnedOnce (counts_in store.now) }
    ensures { result ≡ has triple_cmp triple.now (map.keys (counts_in store.now)) }
{
    store.owners(triple, &mut Uncounted) > 0
}
