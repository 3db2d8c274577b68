// What a fetched page changes of the one that its entity holds.

ghost use Rattle.std.specs.Prelude.{◌≡◌, Some, IfOk, IfSome};
ghost use Rattle.entity_model.specs.{declared.entity.Entity.Entity as TheEntity, declared.document.Document.TheVariants.Entity as AnEntity};
ghost use Rattle.entity_json.specs.Document.{document_of};
ghost use Rattle.page_rdf.specs.Counted.{counts_of};
ghost use Rattle.entity_rdf.specs.Counted.{counted_kept};
ghost use Rattle.fetched_pages.specs.Compared.{AreChanged, AreTextsOfParts};

use crate::fetching::Wanted;
use entity_documents::{Changed, read_changed};
use entity_model::Entity;
use entity_rdf::counted_texts;
use page_rdf::{Counted, Counts};
use rdf_term::{List, OutOfMemory};
use std::alloc::Global;
use triple_sink::Setting;
use triple_texts::TripleTexts;

/// The page of an item or a property that an entity holds: its revision, its bytes, and the counts that it has of itself.
#[derive(Clone, Copy)]
pub struct KnownPage<'a> {
    pub rev: u64,
    pub bytes: &'a [u8],
    pub counts: Counts,
}

/// The triples that are gone from the page that an entity holds, and those that came with another one, by their texts, and the counts of
/// the other one. A triple stands there as many times as it is gone, or came.
#[derive(Drop)]
pub struct ChangedTexts {
    pub gone: TripleTexts,
    pub come: TripleTexts,
    pub counts: Counts,
}

/// A document as it was fetched: its bytes, and what it changes of the page that its entity holds.
#[derive(Drop)]
pub struct ChangedPage {
    pub bytes: List<u8>,
    pub texts: ChangedTexts,
}

/// What the page that was fetched changes of the one that is known. None where this isn't told, or memory is refused: then the page
/// is read as a whole.
pub fn changed_texts(
    alloc: Global,
    wanted: Wanted,
    known: KnownPage<'_>,
    bytes: &[u8],
) -> Option<ChangedTexts>
    ensures { IfSome result (λ texts. (old : TheEntity) → document_of wanted.id known.entry.bytes.now ≡ Some (AnEntity old) → known.entry.counts ≡ counts_of old →
        AreChanged wanted.version wanted.id known.entry.rev wanted.rev old bytes.now texts) }
{
    match read_changed(alloc, wanted.id, known.bytes, bytes) {
        Some(changed) => texts_once(alloc, wanted, known, changed),
        None => None,
    }
}

// The same of parts that aren't needed any more.
fn texts_once(
    alloc: Global,
    wanted: Wanted,
    known: KnownPage<'_>,
    changed: Changed<'_>,
) -> Option<ChangedTexts>
    ensures { IfSome result (AreTextsOfParts wanted.version wanted.id known.entry.rev wanted.rev known.entry.counts changed.entry) }
{
    let texts = texts_of(alloc, wanted, known, &changed.gone, &changed.come);
    changed.discard();
    texts
}

// The triples of the part that is gone and of the one that came.
fn texts_of(
    alloc: Global,
    wanted: Wanted,
    known: KnownPage<'_>,
    gone: &Entity,
    come: &Entity,
) -> Option<ChangedTexts>
    ensures { IfSome result (AreTextsOfParts wanted.version wanted.id known.entry.rev wanted.rev known.entry.counts (record { gone = gone.now; come = come.now })) }
{
    let counts = known.counts.after(Counts::of(gone), Counts::of(come))?;
    let before = Wanted {
        id: wanted.id,
        rev: known.rev,
        version: wanted.version,
    };
    let Ok(gone) = part_texts(alloc, before, known.counts, gone) else {
        return None;
    };
    let Ok(come) = part_texts(alloc, wanted, counts, come) else {
        drop(gone);
        return None;
    };
    Some(ChangedTexts { gone, come, counts })
}

// The triples that are kept of a part of a page that has these counts.
fn part_texts(
    alloc: Global,
    wanted: Wanted,
    counts: Counts,
    part: &Entity,
) -> Result<TripleTexts, OutOfMemory>
    ensures { IfOk result (λ texts. texts ≡ counted_kept wanted.version wanted.id wanted.rev counts part.now) }
{
    let setting = Setting {
        alloc,
        version: wanted.version,
    };
    let counted = Counted {
        rev: wanted.rev,
        counts,
        entity: part,
    };
    counted_texts(setting, wanted.id, counted)
}
