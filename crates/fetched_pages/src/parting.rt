// The parts of a document, and of the bytes of a page.

ghost use Rattle.std.specs.Prelude.{◌≡◌, ◌++◌, None, Ok, Err, IfErr, IfOk, OnErr};
ghost use Rattle.std.specs.List.{AllByRecursion, flat_map};
ghost use Rattle.sorted_sets.specs.Rising.{sorted};
ghost use Rattle.rdf_term.specs.Fit.{HasFitAndShortTerms};
ghost use Rattle.entity_model.specs.{Document.IsDocumentOf, Document.IsSmall, EntityId.entity_cmp};
ghost use Rattle.entity_json.specs.Document.{unfit_of};
ghost use Rattle.munger.specs.Munging.{munged};
ghost use Rattle.entity_rdf.specs.Dump.{dump};
ghost use Rattle.fetched_pages.specs.{Fetched.IsPartedPage, Fetched.IsWhy, Fetched.reply_of_parted, Meaning.document_triples, Reply.IsJudged};
ghost use Rattle.page_parts.specs.Parts.{ArePartsOf};
ghost use Rattle.fetched_pages.specs.Parted.{ArePartsIn};

use crate::fetching::Wanted;
use entity_documents::document;
use entity_json::{DocumentFault, discard};
use entity_model::{Document, EntityId};
use entity_rdf::emit_dump;
use entity_state::Cause;
use munger::{Munged, Page};
use page_parts::{NamedParts, PageDifference, PageParts};
use rdf_term::{List, OutOfMemory};
use std::alloc::Global;
use triple_sink::{Setting, TripleSink};

/// A document as it was fetched, with its triples in two parts, where its entity is counted or isn't.
#[derive(Drop)]
pub struct PartedPage {
    pub bytes: List<u8>,
    pub is_counted: bool,
    pub parts: NamedParts,
}

/// A document as it was fetched, with what it and the page that its entity holds have of their own, where the entity is counted or isn't.
#[derive(Drop)]
pub struct DifferingPage {
    pub bytes: List<u8>,
    pub is_counted: bool,
    pub difference: PageDifference,
}

/// Whether the bytes are a document of the entity, and its triples in two parts.
pub fn judge_parted(
    alloc: Global,
    wanted: Wanted,
    bytes: Vec<u8>,
    is_counted: bool,
) -> Result<Result<PartedPage, Cause>, OutOfMemory>
    ensures judged { IfOk result (λ reply. IsJudged wanted.id bytes.items (reply_of_parted reply)) }
    ensures meant { IfOk result (λ reply. IfOk reply (IsPartedPage wanted.version wanted.id wanted.rev)) }
{
    match parts_in(alloc, wanted, bytes.as_slice(), is_counted) {
        Ok(parts) => Ok(Ok(PartedPage {
            bytes: List::from_vec(bytes),
            is_counted,
            parts,
        })),
        Err(DocumentFault::Unfit(unfit)) => Ok(Err(Cause::Unfit(unfit))),
        Err(DocumentFault::OutOfMemory) => Err(OutOfMemory),
    }
}

/// The triples of the page that the bytes of the wanted revision are, in two parts, with the other entities that it names, or why they are
/// no page. Where some entities are counted, and it is said whether the page's entity is one of them, the parts are what stands in this page
/// alone and what is stored of it. A fault is OutOfMemory only where a request for memory was refused.
pub fn parts_in(
    alloc: Global,
    wanted: Wanted,
    bytes: &[u8],
    is_counted: bool,
) -> Result<NamedParts, DocumentFault>
    ensures document { IfOk result (λ _. unfit_of wanted.id bytes.now ≡ None) }
    ensures parts { IfOk result (ArePartsIn wanted.version wanted.id wanted.rev bytes.now is_counted) }
    ensures fit_own { IfOk result (λ named. AllByRecursion HasFitAndShortTerms named.parts.own) }
    ensures err { IfErr result (IsWhy wanted.id bytes.now) }
{
    match document(alloc, wanted.id, bytes) {
        Ok(document) => {
            let parts = document_parts(alloc, wanted, &document, is_counted);
            discard(document);
            named(alloc, parts)
        }
        Err(fault) => Err(fault),
    }
}

// The parts with the entities that they name.
pub(crate) fn named(
    alloc: Global,
    parts: Result<PageParts, OutOfMemory>,
) -> Result<NamedParts, DocumentFault>
    ensures ok { IfOk result (λ named. (parts ≡ Ok named.parts) × (named.names.items ≡ sorted entity_cmp named.parts.strangers)) }
    ensures err { OnErr result (result ≡ Err DocumentFault.OutOfMemory) }
{
    let Ok(parts) = parts else {
        return Err(DocumentFault::OutOfMemory);
    };
    let Ok(named) = NamedParts::of(alloc, parts) else {
        return Err(DocumentFault::OutOfMemory);
    };
    Ok(named)
}

// The parts of a document of the wanted entity. The contract of a sink doesn't say that it goes on being that of one entity's page, so
// this is asked in the end.
pub(crate) fn document_parts(
    alloc: Global,
    wanted: Wanted,
    document: &Document,
    is_counted: bool,
) -> Result<PageParts, OutOfMemory>
    requires { IsDocumentOf wanted.id document.now }
    ensures parts { IfOk result (ArePartsOf wanted.id is_counted (document_triples wanted.version wanted.id wanted.rev document.now)) }
    ensures fit_own { IsSmall document.now → IfOk result (λ parts. AllByRecursion HasFitAndShortTerms parts.own) }
    ensures fit_shared { IsSmall document.now → IfOk result (λ parts. AllByRecursion HasFitAndShortTerms parts.shared) }
{
    let setting = Setting {
        alloc,
        version: wanted.version,
    };
    let parts = PageParts::new(alloc, wanted.id, is_counted);
    let parts = munge_into(setting, wanted.id, wanted.rev, document, parts)?;
    if parts.are_whole(wanted.id, is_counted) {
        Ok(parts)
    } else {
        drop(parts);
        Err(OutOfMemory)
    }
}

// The sink after the walk, with what munging leaves of each triple of the dump.
pub(crate) fn munge_into<S: TripleSink + Drop>(
    setting: Setting,
    id: EntityId,
    rev: u64,
    document: &Document,
    inner: S,
) -> Result<S, OutOfMemory>
    requires { IsDocumentOf id document.now }
    ensures { IfOk result (λ sink. S.items sink ≡ S.items inner
        ++ flat_map (λ triple. flat_map (S.keeps inner) (munged id triple)) (dump setting.version id rev document.now)) }
{
    let mut out = Munged {
        page: Page::new(setting.alloc, id)?,
        inner,
    };
    emit_dump(setting, id, rev, document, &mut out)?;
    Ok(out.inner)
}
