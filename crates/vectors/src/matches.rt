// The bindings of queries over a set of triples, and over a store that has them.

ghost use Rattle.std.specs.List.{AllByRecursion};
ghost use Rattle.rdf_term.specs.Fit.{HasFitAndShortTerms};

use crate::sets::set_of;
use crate::tester::{Subject, Tester, write_number};
use delivery::Delivery;
use event_line::delivery;
use graph_match::{Query, Rows, StoreRows, solve};
use rdf_term::{List, Term, TripleSet, write_term};
use std::alloc::Global;
use std::hash::RandomState;
use triple_patch::Patch;
use triple_store::{Store, Uncounted};

// A record of the triples.
const TRIPLES: &str = "\
# patch 1 +6 -0
<Q1> <P1> \"a\" .
<Q1> <P2> <Q2> .
<Q2> <P1> \"a\" .
<Q2> <P2> <Q3> .
<Q3> <P2> <Q1> .
<Q3> <P2> <Q3> .";

// The line of a query, how many bindings it has, and these: a pair, a variable at two places of a shape, a cycle, a product, a variable for
// a predicate, a triple that is there, and one that isn't.
const QUERIES: &str =
    r#"{"match":[["?x","<P1>","?v"],["?y","<P1>","?v"]]} => 4 <Q1> "a" <Q1>; <Q1> "a" <Q2>; <Q2> "a" <Q1>; <Q2> "a" <Q2>;
{"match":[["?x","<P2>","?x"]]} => 1 <Q3>;
{"match":[["?x","<P1>","?x"]]} => 0
{"match":[["?x","<P2>","?y"],["?y","<P2>","?z"],["?z","<P2>","?x"]]} => 4 <Q1> <Q2> <Q3>; <Q2> <Q3> <Q1>; <Q3> <Q1> <Q2>; <Q3> <Q3> <Q3>;
{"match":[["<Q1>","<P2>","?a"],["<Q2>","<P2>","?b"]]} => 1 <Q2> <Q3>;
{"match":[["<Q1>","?p","?o"],["?o","<P2>","?q"]]} => 1 <P2> <Q2> <Q3>;
{"match":[["<Q1>","<P1>","\"a\""]]} => 1;
{"match":[["<Q1>","<P1>","\"b\""]]} => 0"#;

// The triples as a set, and as a store to which they came.
#[derive(Drop)]
struct Sources {
    set: TripleSet,
    store: Store,
}

impl Subject for Sources {
    // Writes the bindings of a query over the set, and those over the store behind them, where these are others.
    fn answer(&mut self, alloc: Global, given: &str, found: &mut Vec<u8>) -> Option<()> {
        let query = query_of(alloc, given)?;
        let mut over_store = Vec::new(alloc);
        let written = write_both(alloc, self, &query, found, &mut over_store);
        drop(query);
        if found.as_slice() == over_store.as_slice() {
            return written;
        }
        found.extend_from_slice(over_store.as_slice()).ok()
    }
}

// Writes the bindings of a query over a set, and over a store.
fn write_both(
    alloc: Global,
    sources: &Sources,
    query: &Query,
    over_set: &mut Vec<u8>,
    over_store: &mut Vec<u8>,
) -> Option<()> {
    write_bindings(alloc, &sources.set, query, over_set)?;
    write_bindings(alloc, &StoreRows::new(&sources.store), query, over_store)
}

// Writes how many bindings a query has over a source, and each of them.
fn write_bindings<M: Rows>(
    alloc: Global,
    source: &M,
    query: &Query,
    found: &mut Vec<u8>,
) -> Option<()> {
    let bindings = solve(alloc, source, query).ok()?;
    let written = write_all(alloc, bindings.as_slice(), found);
    drop(bindings);
    written
}

// Writes how many bindings there are, and each of them.
fn write_all(alloc: Global, bindings: &[List<Term>], found: &mut Vec<u8>) -> Option<()> {
    write_number(alloc, "", bindings.len() as u64, found)?;
    for binding in bindings {
        write_binding(binding, found)?;
    }
    Some(())
}

// Writes a binding's terms with a space before each, and a semicolon.
fn write_binding(binding: &List<Term>, found: &mut Vec<u8>) -> Option<()> {
    for term in binding.as_slice() {
        found.push(b' ').ok()?;
        write_term(term, found).ok()?;
    }
    found.push(b';').ok()
}

// The query of a line.
fn query_of(alloc: Global, line: &str) -> Option<Query> {
    match delivery(alloc, line.as_bytes()) {
        Ok(Delivery::Match(query)) => Some(query),
        Ok(other) => {
            drop(other);
            None
        }
        Err(_) => None,
    }
}

// A store to which the triples come, all in one patch.
fn store_of(alloc: Global, keys: RandomState, adds: TripleSet) -> Option<Store>
    requires { AllByRecursion HasFitAndShortTerms adds }
{
    let Ok(mut store) = Store::new(alloc, keys, 100) else {
        drop(adds);
        return None;
    };
    let removes = TripleSet::from_rising(List::new(alloc));
    let patch = Patch { adds, removes };
    let applied = store.apply(&patch, &mut Uncounted);
    drop(patch);
    if applied.is_ok() {
        return Some(store);
    }
    drop(store);
    None
}

// The set of the triples, and the store that has them.
fn make_sources(alloc: Global, keys: RandomState) -> Option<Sources> {
    let store = store_of(alloc, keys, set_of(alloc, TRIPLES)?)?;
    let Some(set) = set_of(alloc, TRIPLES) else {
        drop(store);
        return None;
    };
    Some(Sources { set, store })
}

// Whether the store has the triples of the set; not where memory is refused.
fn has_triples(store: &Store, set: &TripleSet) -> bool {
    let Ok(all) = store.all() else {
        return false;
    };
    let same = all.items() == set.items();
    drop(all);
    same
}

// The name of the test.
const NAME: &str = "bindings are found";

// Tries the store, and then the queries.
fn try_sources(tester: &mut Tester<'_>, sources: &mut Sources) {
    if has_triples(&sources.store, &sources.set) {
        tester.try_rows(NAME, QUERIES, sources);
    } else {
        tester.try_text(NAME, TRIPLES, None);
    }
}

pub(crate) fn try_matches(tester: &mut Tester<'_>, keys: RandomState) {
    match make_sources(tester.alloc(), keys) {
        Some(mut sources) => {
            try_sources(tester, &mut sources);
            drop(sources);
        }
        None => tester.try_text(NAME, TRIPLES, None),
    }
}
