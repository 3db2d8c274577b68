// The dump of a document as a set, and what the store keeps of it.

ghost use Rattle.std.specs.Prelude.{◌≡◌, ◌++◌, IfOk};
ghost use Rattle.std.specs.List.{AllByRecursion, flat_map};
ghost use Rattle.rdf_term.specs.{Fit.HasFitAndShortTerms, Order.triple_cmp};
ghost use Rattle.sorted_sets.specs.Rising.{sorted};
ghost use Rattle.entity_model.specs.Document.{IsDocumentOf, IsSmall};
ghost use Rattle.munger.specs.{Munging.munge, Munging.munged, Short.HasShortLabels};
ghost use Rattle.entity_rdf.specs.Dump.{dump};

use crate::room::room;
use crate::walk::emit_dump;
use entity_model::{Document, EntityId};
use munger::{Munged, Page};
use rdf_term::{List, OutOfMemory, Triple, TripleSet};
use triple_sink::{Setting, TripleSink};
use triple_texts::TripleTexts;

/// The set of triples that the rules of the dump give for the document of a revision of `id`.
#[tactic(auto, using(crate::proofs::Fit::dump_fit, crate::proofs::Labels::dump_labels))]
pub fn dump_triples(
    setting: Setting,
    id: EntityId,
    rev: u64,
    document: &Document,
) -> Result<TripleSet, OutOfMemory>
    requires { IsDocumentOf id document.now }
    ensures value { IfOk result (λ set. set ≡ sorted triple_cmp (dump setting.version id rev document.now)) }

    // The terms are fit and short where the document is small, and the labels of blank nodes are always short.
    ensures fit { IsSmall document.now → IfOk result (AllByRecursion HasFitAndShortTerms) }
    ensures labels { IfOk result (AllByRecursion HasShortLabels) }
{
    let triples = dump_list(setting, id, rev, document)?;
    TripleSet::from_list(triples)
}

/// The set that munging leaves of the dump of the document of a revision of `id`, made by one walk and without the dump.
#[tactic(auto, using(crate::proofs::Direct::direct_fit, munger::proofs::MungedList::munge_of_list))]
pub fn direct_triples(
    setting: Setting,
    id: EntityId,
    rev: u64,
    document: &Document,
) -> Result<TripleSet, OutOfMemory>
    requires { IsDocumentOf id document.now }
    ensures value { IfOk result (λ set. set ≡ munge id (sorted triple_cmp (dump setting.version id rev document.now))) }

    // The terms are fit and short where the document is small.
    ensures fit { IsSmall document.now → IfOk result (AllByRecursion HasFitAndShortTerms) }
{
    let triples = munged_list(setting, id, rev, document)?;
    TripleSet::from_list(triples)
}

/// The triples that munging leaves of the dump of the document of a revision of `id`, by their texts, made by one walk. A
/// triple may stand there more than once.
#[tactic(auto, using(crate::proofs::Direct::direct_list_fit, munger::proofs::MungedList::munge_of_list))]
pub fn direct_texts(
    setting: Setting,
    id: EntityId,
    rev: u64,
    document: &Document,
) -> Result<TripleTexts, OutOfMemory>
    requires { IsDocumentOf id document.now }
    ensures value { IfOk result (λ texts. sorted triple_cmp texts ≡ munge id (sorted triple_cmp (dump setting.version id rev document.now))) }
    ensures list { IfOk result (λ texts. texts ≡ flat_map (munged id) (dump setting.version id rev document.now)) }

    // The terms are fit and short where the document is small.
    ensures fit { IsSmall document.now → IfOk result (AllByRecursion HasFitAndShortTerms) }
{
    munged_texts(setting, id, rev, document)
}

// The triples of the dump, one rule after the other.
#[tactic(auto, using(triple_sink::proofs::Gained::all_of))]
fn dump_list(
    setting: Setting,
    id: EntityId,
    rev: u64,
    document: &Document,
) -> Result<List<Triple>, OutOfMemory>
    requires { IsDocumentOf id document.now }
    ensures { IfOk result (λ triples. triples ≡ dump setting.version id rev document.now) }
{
    let mut triples = List::new(setting.alloc);
    emit_dump(setting, id, rev, document, &mut triples)?;
    Ok(triples)
}

// What is left of the triples of the dump, in their order.
#[tactic(auto, using(munger::proofs::Kept::kept_is))]
fn munged_list(
    setting: Setting,
    id: EntityId,
    rev: u64,
    document: &Document,
) -> Result<List<Triple>, OutOfMemory>
    requires { IsDocumentOf id document.now }
    ensures { IfOk result (λ triples. triples ≡ flat_map (munged id) (dump setting.version id rev document.now)) }
{
    munge_into(setting, id, rev, document, List::new(setting.alloc))
}

// What is left of the triples of the dump, by their texts, in their order.
#[tactic(auto, using(munger::proofs::Kept::kept_is))]
fn munged_texts(
    setting: Setting,
    id: EntityId,
    rev: u64,
    document: &Document,
) -> Result<TripleTexts, OutOfMemory>
    requires { IsDocumentOf id document.now }
    ensures { IfOk result (λ texts. texts ≡ flat_map (munged id) (dump setting.version id rev document.now)) }
{
    let texts = TripleTexts::with_room(setting.alloc, room(document))?;
    munge_into(setting, id, rev, document, texts)
}

// The sink after the walk, with what munging leaves of each triple of the dump.
fn munge_into<S: TripleSink + Drop>(
    setting: Setting,
    id: EntityId,
    rev: u64,
    document: &Document,
    inner: S,
) -> Result<S, OutOfMemory>
    requires { IsDocumentOf id document.now }
    ensures { IfOk result (λ sink. S.items sink ≡ S.items inner ++ flat_map (λ triple. flat_map (S.keeps inner) (munged id triple)) (dump setting.version id rev document.now)) }
{
    let mut out = Munged {
        page: Page::new(setting.alloc, id)?,
        inner,
    };
    emit_dump(setting, id, rev, document, &mut out)?;
    Ok(out.inner)
}
