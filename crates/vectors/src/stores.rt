// A store whose triples get owners and lose them, and that fills up.

ghost use Rattle.std.specs.Prelude.{◌≡◌, ◌<◌, true, [], ◌∷◌, IfSome};
ghost use Rattle.sorted_sets.specs.Rising.{has};
ghost use Rattle.rdf_term.specs.{declared.triple.Triple.Triple as TheTriple, Fit.HasFitAndShortTerms, Fit.IsFitAndShort, Order.triple_cmp};
ghost use Rattle.triple_store.specs.{Counts.count_of, StoreState.counts_in};

use crate::pools::term_of;
use crate::tester::{Subject, Tester, write_number};
use rdf_term::{List, Term, Triple, TripleSet};
use std::alloc::Global;
use std::hash::RandomState;
use triple_patch::Patch;
use triple_store::{Store, StoreFault, Uncounted};

// For a store of two terms at most: a triple gets an owner (`+`) or loses one (`-`), or gets one while the triple `<a> <b> <a>` loses
// one in the same patch (`~`). Then whether the store had room, how many owners the triple has, and how many triples are stored.
const STEPS: &str = "\
+ <a> <b> <c> => full 0 0
+ <a> <b> <a> => room 1 1
+ <a> <b> <a> => room 2 1
+ <a> <b> \"a\" => full 0 1
+ <a> <b> <b> => room 1 2
- <a> <b> <a> => room 1 2
~ <a> <b> <b> => room 2 1
+ <a> <b> <c> => full 0 1
+ <a> <b> <a> => room 1 2
~ <b> <b> <a> => room 1 2
- <b> <b> <a> => room 0 1
- <a> <b> <b> => room 1 1
- <a> <b> <b> => room 0 0
+ <c> <c> \"a\" => room 1 1
- <c> <c> \"a\" => room 0 0";

// The triple that goes where another comes.
const GOES: &str = "<a> <b> <a>";

// The triple of three terms, where all are there.
fn triple_from(
    subject: Option<Term>,
    predicate: Option<Term>,
    object: Option<Term>,
) -> Option<Triple>
    ensures { IfSome subject IsFitAndShort → IfSome predicate IsFitAndShort → IfSome object IsFitAndShort →
        IfSome result HasFitAndShortTerms }
{
    let Some(subject) = subject else {
        drop(predicate);
        drop(object);
        return None;
    };
    let Some(predicate) = predicate else {
        drop(subject);
        drop(object);
        return None;
    };
    let Some(object) = object else {
        drop(subject);
        drop(predicate);
        return None;
    };
    Some(Triple {
        subject,
        predicate,
        object,
    })
}

// The triple that three words write, where they are terms that a pool takes; None too where memory is refused.
fn triple_of(alloc: Global, words: &str) -> Option<Triple>
    ensures { IfSome result HasFitAndShortTerms }
{
    let (subject, rest) = words.split_once(' ')?;
    let (predicate, object) = rest.split_once(' ')?;
    let subject = term_of(alloc, subject);
    let predicate = term_of(alloc, predicate);
    let object = term_of(alloc, object);
    triple_from(subject, predicate, object)
}

// The set of one triple; None where memory is refused.
fn set_of(alloc: Global, triple: &Triple) -> Option<TripleSet>
    ensures { IfSome result (λ set. set ≡ triple.now ∷ []) }
{
    let triple = triple.copy(alloc).ok()?;
    let mut triples = List::new(alloc);
    if triples.push(triple).is_ok() {
        return Some(TripleSet::from_rising(triples));
    }
    drop(triples);
    None
}

// Gives a triple an owner, and takes one from those that go, and says whether that was refused since the store is full. Here and below
// there is no answer where memory is refused, or where a step asks for an owner of a triple that has none, or one more of a triple with
// 2^64 - 1.
fn is_full_for(
    alloc: Global,
    store: &mut Store,
    triple: &Triple,
    removes: TripleSet,
) -> Option<bool>
    requires fit { HasFitAndShortTerms triple.now }
    requires there { (gone : TheTriple) → has triple_cmp gone removes ≡ true → 0 < count_of (counts_in store.old) gone }
{
    if store.owners(triple, &mut Uncounted) == u64::MAX {
        drop(removes);
        return None;
    }
    let Some(adds) = set_of(alloc, triple) else {
        drop(removes);
        return None;
    };
    let patch = Patch { adds, removes };
    let applied = store.apply(&patch, &mut Uncounted);
    drop(patch);
    match applied {
        Ok(()) => Some(false),
        Err(StoreFault::Full) => Some(true),
        Err(StoreFault::OutOfMemory) => None,
    }
}

// Gives a triple an owner while another one loses one.
fn is_full_beside(alloc: Global, store: &mut Store, triple: &Triple) -> Option<bool>
    requires { HasFitAndShortTerms triple.now }
{
    let goes = triple_of(alloc, GOES)?;
    if store.owners(&goes, &mut Uncounted) == 0 {
        drop(goes);
        return None;
    }
    let removes = set_of(alloc, &goes);
    drop(goes);
    is_full_for(alloc, store, triple, removes?)
}

// Takes an owner from a triple that has one.
fn lower(alloc: Global, store: &mut Store, triple: &Triple) -> Option<()> {
    if store.owners(triple, &mut Uncounted) == 0 {
        return None;
    }
    let removes = set_of(alloc, triple)?;
    let adds = TripleSet::from_rising(List::new(alloc));
    let patch = Patch { adds, removes };
    let applied = store.apply(&patch, &mut Uncounted);
    drop(patch);
    applied.ok()
}

// Does the call of a step, and says whether the store is full for the triple.
fn is_full_for_call(alloc: Global, store: &mut Store, sign: u8, triple: &Triple) -> Option<bool>
    requires { HasFitAndShortTerms triple.now }
{
    match sign {
        b'-' => {
            lower(alloc, store, triple)?;
            Some(false)
        }
        b'~' => is_full_beside(alloc, store, triple),
        _ => {
            let none = TripleSet::from_rising(List::new(alloc));
            is_full_for(alloc, store, triple, none)
        }
    }
}

#[derive(Drop)]
struct FillingStore {
    store: Store,
}

impl Subject for FillingStore {
    fn answer(&mut self, alloc: Global, given: &str, found: &mut Vec<u8>) -> Option<()> {
        let (sign, words) = given.split_once(' ')?;
        let sign = *sign.as_bytes().first()?;
        let triple = triple_of(alloc, words)?;
        let full = is_full_for_call(alloc, &mut self.store, sign, &triple);
        let owners = self.store.owners(&triple, &mut Uncounted);
        drop(triple);
        let answer = if full? { "full " } else { "room " };
        write_number(alloc, answer, owners, found)?;
        write_number(alloc, " ", self.store.triples() as u64, found)
    }
}

pub(crate) fn try_stores(tester: &mut Tester<'_>, keys: RandomState) {
    match Store::new(tester.alloc(), keys, 2) {
        Ok(store) => {
            let mut filling = FillingStore { store };
            tester.try_rows("a store fills up", STEPS, &mut filling);
            drop(filling);
        }
        Err(_) => tester.try_text("a store fills up", STEPS, None),
    }
}
