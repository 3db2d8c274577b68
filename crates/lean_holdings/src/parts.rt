// The parts of a page, with the entities that it names.

ghost use Rattle.std.specs.Prelude.{◌≡◌, ℕ, [], None, Some, List, IfErr, IfOk, IfSome};
ghost use Rattle.sorted_sets.specs.Rising.{has};
ghost use Rattle.rdf_term.specs.declared.triple.Triple.{Triple};
ghost use Rattle.entity_model.specs.{EntityId.entity_cmp, declared.id.EntityId.EntityId as TheId};
ghost use Rattle.entity_model.specs.declared.mapping.MappingVersion.{MappingVersion};
ghost use Rattle.replay_model.specs.{Records.Records, Records.record_of, Union.Meaning, Union.triples_held, Versions.meaning_by};
ghost use Rattle.entity_json.specs.Document.{unfit_of};
ghost use Rattle.fetched_pages.specs.{Fetched.IsFetched, Fetched.IsWhy, Fetched.bytes_of, Meaning.meaning};
ghost use Rattle.page_parts.specs.Apart.{AreApart};
ghost use Rattle.triple_catalog.specs.Lines.{AreLinesOf};
ghost use Rattle.lean_holdings.specs.{Changing.IsChangeOf, Moving.ArePartsOf};

use entity_json::DocumentFault;
use entity_model::EntityId;
use fetched_pages::{FetchedPage, Wanted, parts_in};
use page_parts::{NamedParts, PageDifference, RowChange};
use parts_exchange::PartsChange;
use rdf_term::OutOfMemory;
use std::alloc::Global;
use triple_store::{Change, TripleLines};

/// The parts of nothing. They take no memory.
pub fn no_parts(alloc: Global, id: EntityId) -> NamedParts
    ensures { (counted : List TheId) (m : Meaning Triple) → ArePartsOf counted m id None result }
{
    NamedParts::none(alloc, id)
}

/// No change. It takes no memory.
pub fn no_change(alloc: Global) -> PartsChange
    ensures { (triples : List Triple) → IsChangeOf triples triples result }
{
    PartsChange {
        own: RowChange {
            came: no_lines(alloc),
            gone: no_lines(alloc),
        },
        stored: Change {
            came: no_lines(alloc),
            gone: no_lines(alloc),
        },
    }
}

// No lines.
fn no_lines(alloc: Global) -> TripleLines
    ensures { AreLinesOf result [] }
{
    TripleLines {
        count: 0,
        text: Vec::new(alloc),
    }
}

/// The parts of the page that the bytes of the wanted revision are, or why they are no document. The page's entity is counted or isn't.
pub fn document_parts(
    alloc: Global,
    wanted: Wanted,
    bytes: &[u8],
    is_counted: bool,
) -> Result<NamedParts, DocumentFault>
    ensures parts { (counted : List TheId) → has entity_cmp wanted.id counted ≡ is_counted →
        IfOk result (ArePartsOf counted (meaning wanted.version) wanted.id (Some (record { revision = wanted.rev; content = bytes.now }))) }
    ensures document { IfOk result (λ _. unfit_of wanted.id bytes.now ≡ None) }
    ensures err { IfErr result (IsWhy wanted.id bytes.now) }
{
    match parts_in(alloc, wanted, bytes, is_counted) {
        Ok(parts) => Ok(parts),
        Err(fault) => Err(fault),
    }
}

/// The parts that a fetched page has, where its entity is counted or isn't, as is said.
pub fn fetched_parts(page: &FetchedPage, is_counted: bool) -> Option<&NamedParts>
    ensures { (counted : List TheId) (records : Records) (by_two : List TheId) (version : MappingVersion) (x : TheId) (rev : ℕ) →
        has entity_cmp x counted ≡ is_counted → IsFetched records by_two version x rev page.now →
        IfSome result (λ parts. ArePartsOf counted (meaning version) x (Some (record { revision = rev; content = bytes_of page.now })) parts.now) }
{
    match page {
        FetchedPage::Parted(page) => {
            if page.is_counted == is_counted {
                Some(&page.parts)
            } else {
                None
            }
        }
        FetchedPage::Whole(_) | FetchedPage::Changed(_) | FetchedPage::Differing(_) => None,
    }
}

/// What a fetched page and the one that its entity holds have of their own, where that is known, and the entity is counted or isn't, as is
/// said.
pub fn fetched_difference(page: &FetchedPage, is_counted: bool) -> Option<&PageDifference>
    ensures { (records : Records) (by_two : List TheId) (version : MappingVersion) (x : TheId) (rev : ℕ) →
        IsFetched records by_two version x rev page.now → IfSome result (λ difference. AreApart x is_counted
        (triples_held (meaning_by meaning by_two) x (record_of records x).held) (meaning version x rev (bytes_of page.now)) difference.now) }
{
    match page {
        FetchedPage::Differing(page) => {
            if page.is_counted == is_counted {
                Some(&page.difference)
            } else {
                None
            }
        }
        FetchedPage::Whole(_) | FetchedPage::Changed(_) | FetchedPage::Parted(_) => None,
    }
}

/// The parts of the page that bytes are, and those of nothing where they are no document.
pub fn named_parts(
    alloc: Global,
    wanted: Wanted,
    bytes: &[u8],
    is_counted: bool,
) -> Result<NamedParts, OutOfMemory>
    ensures { (counted : List TheId) → has entity_cmp wanted.id counted ≡ is_counted →
        IfOk result (ArePartsOf counted (meaning wanted.version) wanted.id (Some (record { revision = wanted.rev; content = bytes.now }))) }
{
    match document_parts(alloc, wanted, bytes, is_counted) {
        Ok(parts) => Ok(parts),
        Err(DocumentFault::Unfit(_)) => Ok(no_parts(alloc, wanted.id)),
        Err(DocumentFault::OutOfMemory) => Err(OutOfMemory),
    }
}
