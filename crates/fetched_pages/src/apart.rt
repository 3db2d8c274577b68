// What a fetched page and the page that its entity holds have of their own.

ghost use Rattle.std.specs.Prelude.{◌≡◌, Some, None, filter, IfErr, IfOk, IfSome};
ghost use Rattle.entity_model.specs.Document.{IsDocumentOf};
ghost use Rattle.entity_json.specs.Document.{document_of, unfit_of};
ghost use Rattle.page_parts.specs.{Apart.AreApart, Marked.found_of, Marked.is_marked};
ghost use Rattle.fetched_pages.specs.Fetched.{IsWhy};
ghost use Rattle.fetched_pages.specs.Differing.{AreSides, IsDifference, IsPart, IsTold, kept_of, part_list, stays, stays_by};
ghost use Rattle.fetched_pages.specs.Meaning.{meaning};

use crate::fetching::{HeldPage, Wanted};
use crate::parting::{document_parts, munge_into, named};
use entity_documents::{Changed, document, read_changed};
use entity_json::{DocumentFault, discard};
use entity_model::{Document, Entity, EntityId};
use entity_rdf::{counted_texts, munge_counted_into};
use page_parts::{Marks, NamedParts, PageDifference, PageParts, Sifted, Without};
use page_rdf::{Counted, Counts};
use rdf_term::OutOfMemory;
use std::alloc::Global;
use triple_sink::Setting;

// What is told of a page: what it and the held page have of their own, or all its triples.
#[derive(Drop)]
pub(crate) enum Told {
    Apart(PageDifference),
    Parts(NamedParts),
}

// The bytes of a page, and the document that was read of them.
#[derive(Clone, Copy)]
pub(crate) struct ReadPage<'e, 'a> {
    pub(crate) bytes: &'a [u8],
    pub(crate) document: &'e Document<'a>,
}

// Whether the entity of two pages is counted, the parts that are gone from the first page, and those that came with the second one, each
// with the counts of its own page.
#[derive(Clone, Copy)]
pub(crate) struct Sides<'e, 'a> {
    pub(crate) is_counted: bool,
    pub(crate) gone: Counted<'e, 'a>,
    pub(crate) come: Counted<'e, 'a>,
}

// What the page of the bytes and the held one have of their own, where it is told, or else the parts of the page that the bytes are; or why
// they are no page. They are read once.
pub(crate) fn told_in(
    alloc: Global,
    wanted: Wanted,
    bytes: &[u8],
    held: HeldPage<'_>,
    is_counted: bool,
) -> Result<Told, DocumentFault>
    ensures document { IfOk result (λ _. unfit_of wanted.id bytes.now ≡ None) }
    ensures told { IfOk result (IsTold wanted.version wanted.id wanted.rev bytes.now held.entry is_counted) }
    ensures err { IfErr result (IsWhy wanted.id bytes.now) }
{
    match document(alloc, wanted.id, bytes) {
        Ok(document) => {
            let page = ReadPage {
                bytes,
                document: &document,
            };
            if let Some(difference) = apart(alloc, wanted, page, held, is_counted) {
                discard(document);
                return Ok(Told::Apart(difference));
            }
            let parts = document_parts(alloc, wanted, &document, is_counted);
            discard(document);
            match named(alloc, parts) {
                Ok(parts) => Ok(Told::Parts(parts)),
                Err(fault) => Err(fault),
            }
        }
        Err(fault) => Err(fault),
    }
}

/// What a page and the held one have of their own, each in two parts. None where this isn't told, or memory is refused: then the page is
/// mapped as a whole.
pub(crate) fn apart(
    alloc: Global,
    wanted: Wanted,
    page: ReadPage<'_, '_>,
    held: HeldPage<'_>,
    is_counted: bool,
) -> Option<PageDifference>
    requires document { document_of wanted.id page.bytes.now ≡ Some page.document.now }
    requires of_it { IsDocumentOf wanted.id page.document.now }
    ensures { unfit_of wanted.id held.entry.bytes.now ≡ None → IfSome result (AreApart wanted.id is_counted
        (meaning wanted.version wanted.id held.entry.rev held.entry.bytes.now) (meaning wanted.version wanted.id wanted.rev page.entry.bytes.now)) }
{
    let Document::Entity(entity) = page.document else {
        return None;
    };
    let changed = read_changed(alloc, wanted.id, held.bytes, page.bytes)?;
    let setting = Setting {
        alloc,
        version: wanted.version,
    };
    let difference = match sides_of(entity, &changed, held.rev, wanted.rev, is_counted) {
        Some(sides) => difference_of(setting, wanted.id, page.document, sides),
        None => None,
    };
    changed.discard();
    difference
}

// The parts with the counts of their pages: those of the old page follow from those of the new one. None where they don't.
fn sides_of<'e, 'a>(
    new: &Entity<'_>,
    changed: &'e Changed<'a>,
    old_rev: u64,
    rev: u64,
    is_counted: bool,
) -> Option<Sides<'e, 'a>>
    ensures sides { IfSome result (AreSides new.now changed.now old_rev rev) }
    ensures counted { IfSome result (λ sides. sides.is_counted ≡ is_counted) }
{
    let counts = Counts::of(new);
    let before = counts.after(Counts::of(&changed.come), Counts::of(&changed.gone))?;
    Some(Sides {
        is_counted,
        gone: Counted {
            rev: old_rev,
            counts: before,
            entity: &changed.gone,
        },
        come: Counted {
            rev,
            counts,
            entity: &changed.come,
        },
    })
}

// What the parts say, without what only one of them says and the rest of the new page too.
fn difference_of(
    setting: Setting,
    id: EntityId,
    document: &Document,
    sides: Sides<'_, '_>,
) -> Option<PageDifference>
    requires { IsDocumentOf id document.now }
    ensures { IfSome result (IsDifference setting.version id sides.entry (stays setting.version id document.now sides.entry)) }
{
    let Ok(gone) = counted_texts(setting, id, sides.gone) else {
        return None;
    };
    let Ok(come) = counted_texts(setting, id, sides.come) else {
        return None;
    };
    let Ok(marks) = Marks::of(setting.alloc, &gone, &come) else {
        return None;
    };
    difference_by(setting, id, document, sides, &marks)
}

// The same, where it is known what only one of the parts says.
fn difference_by(
    setting: Setting,
    id: EntityId,
    document: &Document,
    sides: Sides<'_, '_>,
    marks: &Marks<'_>,
) -> Option<PageDifference>
    requires { IsDocumentOf id document.now }
    ensures { IfSome result (IsDifference setting.version id sides.entry (stays_by setting.version id document.now sides.entry (is_marked marks.now))) }
{
    let Ok(came) = marked_in_part(setting, id, sides.come, marks) else {
        return None;
    };
    let Ok(all) = marked_in_page(setting, id, sides.come.rev, document, marks) else {
        return None;
    };
    let Ok(staying) = Marks::of_more(setting.alloc, all.found(), came.found()) else {
        return None;
    };
    both_parts(setting, id, sides, &staying)
}

// What is kept of both sides but for what stays, each in two parts.
fn both_parts(
    setting: Setting,
    id: EntityId,
    sides: Sides<'_, '_>,
    staying: &Marks<'_>,
) -> Option<PageDifference>
    ensures { IfSome result (IsDifference setting.version id sides.entry (is_marked staying.now)) }
{
    let gone = part(setting, id, sides.gone, sides.is_counted, staying)?;
    let Some(come) = part(setting, id, sides.come, sides.is_counted, staying) else {
        drop(gone);
        return None;
    };
    Some(PageDifference { gone, come })
}

// What is kept of a part but for what stays, in two parts, where nothing of it belongs to another entity.
fn part(
    setting: Setting,
    id: EntityId,
    counted: Counted<'_, '_>,
    is_counted: bool,
    staying: &Marks<'_>,
) -> Option<PageParts>
    ensures { IfSome result (IsPart setting.version id counted.entry is_counted (is_marked staying.now)) }
{
    let empty = PageParts::new(setting.alloc, id, is_counted);
    let sink = Without::new(setting.alloc, staying, empty);
    let Ok(sink) = munge_counted_into(setting, id, counted, sink) else {
        return None;
    };
    let parts = sink.inner;
    if parts.are_whole(id, is_counted) && parts.strangers().is_empty() {
        Some(parts)
    } else {
        drop(parts);
        None
    }
}

// The triples that are kept of a part and are marked.
fn marked_in_part<'m, 'a>(
    setting: Setting,
    id: EntityId,
    counted: Counted<'_, '_>,
    marks: &'m Marks<'a>,
) -> Result<Sifted<'m, 'a>, OutOfMemory>
    ensures { IfOk result (λ sifted. found_of sifted ≡ filter (is_marked marks.now) (part_list setting.version id counted.entry)) }
{
    let none = Sifted::new(setting.alloc, marks);
    munge_counted_into(setting, id, counted, none)
}

// The triples that are kept of a page and are marked.
fn marked_in_page<'m, 'a>(
    setting: Setting,
    id: EntityId,
    rev: u64,
    document: &Document,
    marks: &'m Marks<'a>,
) -> Result<Sifted<'m, 'a>, OutOfMemory>
    requires { IsDocumentOf id document.now }
    ensures { IfOk result (λ sifted. found_of sifted ≡ filter (is_marked marks.now) (kept_of setting.version id rev document.now)) }
{
    let none = Sifted::new(setting.alloc, marks);
    munge_into(setting, id, rev, document, none)
}
