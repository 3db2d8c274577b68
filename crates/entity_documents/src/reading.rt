// The document of a page, by its bytes.

ghost use Rattle.std.specs.Prelude.{Some, IfOk};
ghost use Rattle.entity_model.specs.Document.{IsDocumentOf, IsSmall};
ghost use Rattle.entity_json.specs.Document.{own_document};
ghost use Rattle.entity_documents.specs.Answers.{Answers, Tells};

use bumpalo::Bump;
use entity_json::{DocumentFault, PAGE_LIMIT, Page, page_of};
use entity_model::{Document, EntityId, Unfit};
use json_reader::read;
use std::alloc::Global;

// The document of a page, where it is that of the entity.
fn own_document<'a>(id: EntityId, page: Page<'a>) -> Result<Document<'a>, DocumentFault>
    ensures { Tells result (own_document id (Some page.entry)) }
{
    if page.id == id {
        Ok(page.document)
    } else {
        drop(page);
        Err(DocumentFault::Unfit(Unfit::Foreign))
    }
}

/// The document that the bytes are of the entity `id`, after Wikibase's JSON data model. Its texts are parts of the bytes,
/// but for those that the page writes with escapes.
///
/// What isn't one is refused by the first cause that it has: `Large` over 8,388,608 bytes, `Deep` and `NotJson` as the JSON reader says,
/// `Shape` if the value is no page of an item, a property, a lexeme or a redirect, and `Foreign` if the page is that of another entity.
pub fn document<'a>(
    alloc: Global,
    id: EntityId,
    bytes: &'a [u8],
) -> Result<Document<'a>, DocumentFault>
    ensures answer { Answers id bytes.now result }
    ensures small { IfOk result IsSmall }
    ensures owned { IfOk result (IsDocumentOf id) }
{
    if bytes.len() > PAGE_LIMIT {
        return Err(DocumentFault::Unfit(Unfit::Large));
    }
    let arena = Bump::new(alloc);
    let json = read(&arena, bytes)?;
    own_document(id, page_of(alloc, &json)?)
}
