// The fetch of a revision, judged as a page of its entity.

ghost use Rattle.std.specs.Prelude.{◌≡◌, ◌≤◌, List, None, Some, IfErr, IfOk, IfSome, length, option_copied};
ghost use Rattle.std.specs.List.{AllByRecursion};
ghost use Rattle.sorted_sets.specs.Rising.{sorted};
ghost use Rattle.rdf_term.specs.{Fit.HasFitAndShortTerms, Order.triple_cmp};
ghost use Rattle.entity_model.specs.declared.id.EntityId.{EntityId as TheId};
ghost use Rattle.entity_json.specs.Document.{document_of, unfit_of};
ghost use Rattle.revisions.specs.Revisions.{counted};
ghost use Rattle.replay_model.specs.Records.{Records};
ghost use Rattle.fetched_pages.specs.Reply.{IsJudged, IsReply, ShowsReply};
ghost use Rattle.fetched_pages.specs.{Compared.HasEntity, Compared.IsChangeOfHeld, Compared.IsKnownPage, Differing.IsHeldPage};
ghost use Rattle.fetched_pages.specs.Fetched.{IsMeant, IsPageOf, IsWhy, bytes_of, reply_of, reply_of_whole};
ghost use Rattle.fetched_pages.specs.{Listed.IsListed, Meaning.meaning};
ghost use Rattle.fetched_pages.specs.Routing.{IsReplyRouted, route_by};

use crate::comparing::{ChangedPage, ChangedTexts, KnownPage, changed_texts};
use crate::judging::judge_in_parts;
use crate::meaning::map_document;
use crate::parting::{DifferingPage, PartedPage};
use entity_documents::document;
use entity_json::{DocumentFault, discard};
use entity_model::{EntityId, MappingVersion};
use entity_state::Cause;
use graph_routes::Routes;
use page_rdf::Counts;
use rdf_term::{List, OutOfMemory};
use revisions::{NoRevision, Revisions};
use std::alloc::Global;
use triple_texts::TripleTexts;

/// A document as it was fetched: its bytes, the texts of the triples that they mean by a version of the mapping, its counts, if it is that
/// of an item or a property, and the graph that it is routed to, where there are routes.
#[derive(Drop)]
pub struct Page {
    pub bytes: List<u8>,
    pub triples: TripleTexts,
    pub counts: Option<Counts>,
    pub graph: Option<usize>,
}

/// The texts of the triples of a document, its counts, if it is that of an item or a property, and the graph that it is routed to, where
/// there are routes.
#[derive(Drop)]
pub struct Mapped {
    pub triples: TripleTexts,
    pub counts: Option<Counts>,
    pub graph: Option<usize>,
}

/// A document as it was fetched, with all its triples, or with those that it changes of what its entity holds.
#[derive(Drop)]
pub enum FetchedPage {
    /// All of them.
    Whole(Page),
    /// What it changes.
    Changed(ChangedPage),
    /// All of them, in two parts.
    Parted(PartedPage),
    /// What it and the held page have of their own, in two parts.
    Differing(DifferingPage),
}

impl FetchedPage {
    /// The bytes of the document.
    pub fn bytes(&self) -> &[u8]
        ensures { result.now ≡ bytes_of self.now }
    {
        match self {
            FetchedPage::Whole(page) => page.bytes.as_slice(),
            FetchedPage::Changed(page) => page.bytes.as_slice(),
            FetchedPage::Parted(page) => page.bytes.as_slice(),
            FetchedPage::Differing(page) => page.bytes.as_slice(),
        }
    }
}

/// What a fetched page is judged beside: the routes, if there are some, and the page that its entity holds, if it may be compared with that.
/// Where its triples are wanted in two parts, the last field says what is known for that. With routes they aren't given in parts.
#[derive(Clone, Copy)]
pub struct Beside<'a> {
    pub routes: Option<&'a Routes>,
    pub known: Option<KnownPage<'a>>,
    pub parts: Option<PartsBeside<'a>>,
}

/// Whether the entity of a page is counted, and the page that it holds, if it may be compared with that.
#[derive(Clone, Copy)]
pub struct PartsBeside<'a> {
    pub is_counted: bool,
    pub held: Option<HeldPage<'a>>,
}

/// The page that an entity holds: its revision and its bytes.
#[derive(Clone, Copy)]
pub struct HeldPage<'a> {
    pub rev: u64,
    pub bytes: &'a [u8],
}

/// The revision of an entity that is to be fetched, and the version of the mapping by which it is mapped.
#[derive(Clone, Copy)]
pub struct Wanted {
    pub id: EntityId,
    pub rev: u64,
    pub version: MappingVersion,
}

/// A document, or why there is none.
pub type Reply = Result<FetchedPage, Cause>;

/// Fetches the revision once, and says whether its bytes are a document of the entity. They are read once, for that and for
/// their triples by the version, and for their graph by the routes, where there are some. Where they may be compared with the page that
/// the entity holds, what differs alone is mapped.
pub fn fetch<R: Revisions>(
    alloc: Global,
    revisions: &mut R,
    folder: &str,
    wanted: Wanted,
    beside: Beside<'_>,
) -> Result<Reply, OutOfMemory>
    requires { IfSome beside.known (HasEntity wanted.id) }
    ensures reply { IfOk result (λ reply. IsReply (R.contents revisions.old) folder.now wanted.id wanted.rev (reply_of reply)) }
    ensures meant { (records : Records) (by_two : List TheId) → IfSome beside.entry.known (IsKnownPage records by_two wanted.version wanted.id) →
        IfSome beside.entry.parts (λ parts. IfSome parts.held (IsHeldPage records by_two wanted.version wanted.id)) →
        IfOk result (IsMeant records by_two wanted.version wanted.id wanted.rev) }
    ensures routed { IfOk result (IsReplyRouted (option_copied beside.entry.routes) wanted.id) }
    ensures shown { IfOk result (λ reply. ShowsReply (reply_of reply)
        (R.misses revisions.old) (R.misses revisions.new) (R.faults revisions.old) (R.faults revisions.new)) }
    ensures told { R.contents revisions.new ≡ R.contents revisions.old }
    ensures called { R.calls revisions.new ≡ counted (R.calls revisions.old) }
    ensures more_faults { R.faults revisions.old ≤ R.faults revisions.new }
    ensures more_misses { R.misses revisions.old ≤ R.misses revisions.new }
    ensures most { R.most_faults revisions.new ≡ R.most_faults revisions.old }
{
    match revisions.fetch(alloc, folder, wanted.rev) {
        Ok(bytes) => judge_beside(alloc, wanted, bytes, beside),
        Err(NoRevision::Missing) => Ok(Err(Cause::Missing)),
        Err(NoRevision::Failed) => Ok(Err(Cause::Failed)),
        Err(NoRevision::OutOfMemory) => Err(OutOfMemory),
    }
}

// Whether the bytes are a document of the entity, and what it changes of the page that the entity holds, or else all its triples, and its
// graph.
fn judge_beside(
    alloc: Global,
    wanted: Wanted,
    bytes: Vec<u8>,
    beside: Beside<'_>,
) -> Result<Reply, OutOfMemory>
    requires { IfSome beside.known (HasEntity wanted.id) }
    ensures judged { IfOk result (λ reply. IsJudged wanted.id bytes.items (reply_of reply)) }
    ensures meant { (records : Records) (by_two : List TheId) → IfSome beside.entry.known (IsKnownPage records by_two wanted.version wanted.id) →
        IfSome beside.entry.parts (λ parts. IfSome parts.held (IsHeldPage records by_two wanted.version wanted.id)) →
        IfOk result (IsMeant records by_two wanted.version wanted.id wanted.rev) }
    ensures routed { IfOk result (IsReplyRouted (option_copied beside.entry.routes) wanted.id) }
{
    if let Some(texts) = compare(alloc, wanted, bytes.as_slice(), beside) {
        let bytes = List::from_vec(bytes);
        return Ok(Ok(FetchedPage::Changed(ChangedPage { bytes, texts })));
    }
    match beside {
        Beside {
            routes: None,
            parts: Some(parts),
            known: _,
        } => judge_in_parts(alloc, wanted, bytes, parts),
        _ => match judge(alloc, wanted, bytes, beside.routes) {
            Ok(Ok(page)) => Ok(Ok(FetchedPage::Whole(page))),
            Ok(Err(cause)) => Ok(Err(cause)),
            Err(OutOfMemory) => Err(OutOfMemory),
        },
    }
}

// The length in bytes from which a page is compared with the one that its entity holds: a shorter one is read as a whole in less time.
pub(crate) const SHORTEST_COMPARED: usize = 1024;

// What the page changes of the one that its entity holds, where it may be compared with that: not where there are routes, since these ask for all
// that a page says, and not where the page is short.
fn compare(alloc: Global, wanted: Wanted, bytes: &[u8], beside: Beside<'_>) -> Option<ChangedTexts>
    requires { IfSome beside.known (HasEntity wanted.id) }
    ensures document { IfSome result (λ _. unfit_of wanted.id bytes.now ≡ None) }
    ensures routes { IfSome result (λ _. option_copied beside.entry.routes ≡ None) }
    ensures changes { (records : Records) (by_two : List TheId) → IfSome beside.entry.known (IsKnownPage records by_two wanted.version wanted.id) →
        IfSome result (λ texts. IsChangeOfHeld records by_two wanted.version wanted.id wanted.rev bytes.now texts) }
{
    if bytes.len() < SHORTEST_COMPARED {
        return None;
    }
    if beside.routes.is_some() {
        return None;
    }
    changed_texts(alloc, wanted, beside.known?, bytes)
}

/// Whether the bytes are a document of the entity, its triples, and its graph. The document borrows the bytes, so it goes before they are
/// moved.
pub fn judge(
    alloc: Global,
    wanted: Wanted,
    bytes: Vec<u8>,
    routes: Option<&Routes>,
) -> Result<Result<Page, Cause>, OutOfMemory>
    ensures judged { IfOk result (λ reply. IsJudged wanted.id bytes.items (reply_of_whole reply)) }
    ensures meant { IfOk result (λ reply. IfOk reply (IsPageOf wanted.version wanted.id wanted.rev)) }
    ensures routed { IfOk result (λ reply. IfOk reply (λ page. page.graph ≡ route_by (option_copied routes.entry) wanted.id page.bytes)) }
{
    match texts_in(alloc, wanted, bytes.as_slice(), routes) {
        Ok(
            Mapped {
                triples,
                counts,
                graph,
            },
        ) => Ok(Ok(Page {
            bytes: List::from_vec(bytes),
            triples,
            counts,
            graph,
        })),
        Err(DocumentFault::Unfit(unfit)) => Ok(Err(Cause::Unfit(unfit))),
        Err(DocumentFault::OutOfMemory) => Err(OutOfMemory),
    }
}

/// The triples of the document of the wanted entity that the bytes are, its counts, and its graph, or why they are none.
pub fn texts_in(
    alloc: Global,
    wanted: Wanted,
    bytes: &[u8],
    routes: Option<&Routes>,
) -> Result<Mapped, DocumentFault>
    ensures document { IfOk result (λ _. unfit_of wanted.id bytes.now ≡ None) }
    ensures meant { IfOk result (λ mapped. sorted triple_cmp mapped.triples ≡ meaning wanted.version wanted.id wanted.rev bytes.now) }
    ensures listed { IfOk result (λ mapped. IfSome mapped.counts (λ counts. IsListed wanted.version wanted.id wanted.rev (document_of wanted.id bytes.now) counts mapped.triples)) }
    ensures fit { IfOk result (λ mapped. AllByRecursion HasFitAndShortTerms mapped.triples) }
    ensures short { IfOk result (λ _. length bytes.now ≤ 33554432) }
    ensures routed { IfOk result (λ mapped. mapped.graph ≡ route_by (option_copied routes.entry) wanted.id bytes.now) }
    ensures err { IfErr result (IsWhy wanted.id bytes.now) }
{
    match document(alloc, wanted.id, bytes) {
        Ok(document) => match map_document(alloc, wanted, &document, routes) {
            Ok(mapped) => {
                discard(document);
                Ok(mapped)
            }
            Err(OutOfMemory) => {
                discard(document);
                Err(DocumentFault::OutOfMemory)
            }
        },
        Err(fault) => Err(fault),
    }
}
