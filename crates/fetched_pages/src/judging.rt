// A fetched page whose triples are wanted in two parts is judged.

ghost use Rattle.std.specs.Prelude.{List as Entities, IfOk, IfSome, None};
ghost use Rattle.entity_model.specs.declared.id.EntityId.{EntityId as TheId};
ghost use Rattle.replay_model.specs.Records.{Records};
ghost use Rattle.fetched_pages.specs.{Differing.IsHeldPage, Fetched.IsMeant, Fetched.reply_of, Reply.IsJudged, Routing.IsReplyRouted};

use crate::apart::{Told, told_in};
use crate::fetching::{FetchedPage, HeldPage, PartsBeside, Reply, SHORTEST_COMPARED, Wanted};
use crate::parting::{DifferingPage, PartedPage, judge_parted};
use entity_json::DocumentFault;
use entity_state::Cause;
use rdf_term::{List, OutOfMemory};
use std::alloc::Global;

// Whether the bytes are a document of the entity, and what it and the page that the entity holds have of their own, or else all its triples
// in two parts. A short page isn't compared.
pub(crate) fn judge_in_parts(
    alloc: Global,
    wanted: Wanted,
    bytes: Vec<u8>,
    parts: PartsBeside<'_>,
) -> Result<Reply, OutOfMemory>
    ensures judged { IfOk result (λ reply. IsJudged wanted.id bytes.items (reply_of reply)) }
    ensures meant { (records : Records) (by_two : Entities TheId) → IfSome parts.entry.held (IsHeldPage records by_two wanted.version wanted.id) →
        IfOk result (IsMeant records by_two wanted.version wanted.id wanted.rev) }
    ensures routed { IfOk result (IsReplyRouted None wanted.id) }
{
    if bytes.len() >= SHORTEST_COMPARED {
        if let Some(held) = parts.held {
            return judge_differing(alloc, wanted, bytes, held, parts.is_counted);
        }
    }
    judge_whole(alloc, wanted, bytes, parts.is_counted)
}

// The same, with all its triples.
fn judge_whole(
    alloc: Global,
    wanted: Wanted,
    bytes: Vec<u8>,
    is_counted: bool,
) -> Result<Reply, OutOfMemory>
    ensures judged { IfOk result (λ reply. IsJudged wanted.id bytes.items (reply_of reply)) }
    ensures meant { (records : Records) (by_two : Entities TheId) → IfOk result (IsMeant records by_two wanted.version wanted.id wanted.rev) }
    ensures routed { IfOk result (IsReplyRouted None wanted.id) }
{
    match judge_parted(alloc, wanted, bytes, is_counted) {
        Ok(Ok(page)) => Ok(Ok(FetchedPage::Parted(page))),
        Ok(Err(cause)) => Ok(Err(cause)),
        Err(OutOfMemory) => Err(OutOfMemory),
    }
}

// The same beside the page that the entity holds.
fn judge_differing(
    alloc: Global,
    wanted: Wanted,
    bytes: Vec<u8>,
    held: HeldPage<'_>,
    is_counted: bool,
) -> Result<Reply, OutOfMemory>
    ensures judged { IfOk result (λ reply. IsJudged wanted.id bytes.items (reply_of reply)) }
    ensures meant { (records : Records) (by_two : Entities TheId) → IsHeldPage records by_two wanted.version wanted.id held.entry →
        IfOk result (IsMeant records by_two wanted.version wanted.id wanted.rev) }
    ensures routed { IfOk result (IsReplyRouted None wanted.id) }
{
    match told_in(alloc, wanted, bytes.as_slice(), held, is_counted) {
        Ok(Told::Apart(difference)) => Ok(Ok(FetchedPage::Differing(DifferingPage {
            bytes: List::from_vec(bytes),
            is_counted,
            difference,
        }))),
        Ok(Told::Parts(parts)) => Ok(Ok(FetchedPage::Parted(PartedPage {
            bytes: List::from_vec(bytes),
            is_counted,
            parts,
        }))),
        Err(DocumentFault::Unfit(unfit)) => Ok(Err(Cause::Unfit(unfit))),
        Err(DocumentFault::OutOfMemory) => Err(OutOfMemory),
    }
}
