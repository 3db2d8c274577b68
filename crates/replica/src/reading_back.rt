// Triples read back from their texts.

ghost use Rattle.std.specs.Prelude.{◌≡◌, IfOk};
ghost use Rattle.std.specs.List.{AllByRecursion};
ghost use Rattle.sorted_sets.specs.Rising.{IsRising};
ghost use Rattle.rdf_term.specs.{declared.triple.Triple.Triple as TheTriple, Order.triple_cmp};
ghost use Rattle.replica.specs.TripleLine.{AreTermTexts, HasReadableTerms};

use crate::triple_line::read_texts;
use rdf_term::{List, OutOfMemory, Triple, TripleSet};
use std::alloc::Global;
use triple_texts::{TripleText, TripleTexts};

/// The triples, in memory of their own.
pub fn read_set(alloc: Global, triples: &TripleTexts) -> Result<TripleSet, OutOfMemory>
    requires rising { IsRising triple_cmp triples.now }
    requires readable { AllByRecursion HasReadableTerms triples.now }
    ensures { IfOk result (λ set. set ≡ triples.now) }
{
    let mut list = List::new(alloc);
    for index in 0..triples.len() {
        list.push(read_back(alloc, triples.get(index))?)?;
    }
    Ok(TripleSet::from_rising(list))
}

// The triple with these texts.
fn read_back(alloc: Global, texts: TripleText<'_>) -> Result<Triple, OutOfMemory>
    requires { (triple : TheTriple) × AreTermTexts texts triple }
    ensures { IfOk result (λ found. AreTermTexts texts.entry found) }
{
    match read_texts(alloc, texts)? {
        Some(triple) => Ok(triple),
        None => unreachable!(),
    }
}
