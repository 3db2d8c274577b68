// The triples of a page as the store keeps them.

ghost use Rattle.std.specs.Prelude.{◌≡◌, IfOk};
ghost use Rattle.std.specs.List.{AllByRecursion, flat_map};
ghost use Rattle.rdf_term.specs.Fit.{HasFitAndShortTerms};
ghost use Rattle.munger.specs.{Munging.munge, Munging.munged, Short.HasShortLabels, Short.HasShortTerms};

use crate::sink::Munged;
use crate::verdict::Page;
use entity_model::EntityId;
use rdf_term::{List, OutOfMemory, Triple, TripleSet};
use std::alloc::Global;
use triple_sink::emit_all;

/// The set of the dump's triples of the entity's page as the store keeps them.
pub fn munge(alloc: Global, id: EntityId, triples: &TripleSet) -> Result<TripleSet, OutOfMemory>
    ensures value { IfOk result (λ set. set ≡ munge id triples.now) }

    // Terms stay short, and fit, where the labels of blank nodes are short.
    ensures short { AllByRecursion HasShortTerms triples.now → AllByRecursion HasShortLabels triples.now → IfOk result (AllByRecursion HasShortTerms) }
    ensures fit { AllByRecursion HasFitAndShortTerms triples.now → AllByRecursion HasShortLabels triples.now → IfOk result (AllByRecursion HasFitAndShortTerms) }
{
    let kept = munged(alloc, id, triples.items())?;
    TripleSet::from_list(kept)
}

// What is kept of the triples, in their order.
#[tactic(auto, using(crate::proofs::Kept::kept_is))]
fn munged(alloc: Global, id: EntityId, triples: &[Triple]) -> Result<List<Triple>, OutOfMemory>
    ensures { IfOk result (λ kept. kept ≡ flat_map (munged id) triples.now) }
{
    let mut out = Munged {
        page: Page::new(alloc, id)?,
        inner: List::new(alloc),
    };
    emit_all(alloc, triples, &mut out)?;
    Ok(out.inner)
}
