// What two pages of an entity have of their own.

ghost use Rattle.std.specs.Prelude.{◌≡◌, None, Some, codes, is_some, IfSome};
ghost use Rattle.json_spell.specs.{Tree.member_of, View.json_view};
ghost use Rattle.entity_model.specs.{declared.entity.Entity.Entity as TheEntity, declared.document.Document.TheVariants.Entity as AnEntity};
ghost use Rattle.entity_json.specs.{Document.document_of, Document.unfit_of, Reading.Pages.page_of};
ghost use Rattle.entity_documents.specs.{Changed.HasChanged, Changed.IsEntityPage, Changed.depth_of};

use bumpalo::Bump;
use entity_json::{PAGE_LIMIT, Page, discard, page_of};
use entity_model::{Document, Entity, EntityId};
use json_differing::read_differing;
use json_spell::Json;
use std::alloc::Global;

// How many levels above its maps a page has that stands alone, and one that is the only member of `entities`.
const ALONE: usize = 1;

const WITHIN: usize = 3;

// What a text with `entities` begins with, mostly.
const ENTITIES: &[u8] = b"{\"entities\"";

/// The parts that are gone from one page of an entity, and those that came to another: of the labels, descriptions, aliases, properties and
/// links all that the other page doesn't have. The rest of each page stands in both.
#[derive(Drop)]
pub struct Changed<'a> {
    /// The first page, less what both have.
    pub gone: Entity<'a>,
    /// The second page, less what both have.
    pub come: Entity<'a>,
}

impl Changed<'_> {
    /// Gives back the memory of both. So their drop is proved here, and not in each crate that has them.
    pub fn discard(self) {
        drop(self);
    }
}

// The document of a value that is a page of the entity: an item or a property.
fn entity_in<'a>(alloc: Global, id: EntityId, json: &Json<'_, 'a>) -> Option<Entity<'a>>
    ensures { IfSome result (λ entity. page_of (json_view json.now) ≡ Some (record { id = id; document = AnEntity entity })) }
{
    let Page { id: own, document } = page_of(alloc, json).ok()?;
    if own != id {
        discard(document);
        return None;
    }
    match document {
        Document::Entity(entity) => Some(entity),
        Document::Redirect(_target) => None,
        Document::Lexeme(lexeme) => {
            discard(Document::Lexeme(lexeme));
            None
        }
    }
}

// Whether the value has a member `entities`.
fn has_entities(json: &Json<'_, '_>) -> bool
    ensures { result ≡ is_some (member_of (codes "entities") (json_view json.now)) }
{
    json.get("entities").is_some()
}

/// What two pages of an entity have of their own, where the first one is known to be the page of an item or a property. None where
/// the second one is no such page, where the two differ so that it isn't told apart (by another order of their members, or a name that
/// comes twice), and where memory is refused: then `document` says what the second page is. Where it is told, a first page that is some
/// document of the entity is that of an item or a property.
pub fn read_changed<'a>(
    alloc: Global,
    id: EntityId,
    old: &'a [u8],
    new: &'a [u8],
) -> Option<Changed<'a>>
    ensures changes { IfSome result (λ changed. (e : TheEntity) → document_of id old.now ≡ Some (AnEntity e) → HasChanged id new.now e changed) }
    ensures kind { IfSome result (λ changed. unfit_of id old.now ≡ None → IsEntityPage id old.now) }
{
    changed_within(alloc, id, new.starts_with(ENTITIES), old, new)
}

// The same, where the pages are the only members of `entities` in their texts, or stand alone.
fn changed_within<'a>(
    alloc: Global,
    id: EntityId,
    within: bool,
    old: &'a [u8],
    new: &'a [u8],
) -> Option<Changed<'a>>
    ensures changes { IfSome result (λ changed. (e : TheEntity) → document_of id old.now ≡ Some (AnEntity e) → HasChanged id new.now e changed) }
    ensures kind { IfSome result (λ changed. unfit_of id old.now ≡ None → IsEntityPage id old.now) }
{
    if new.len() > PAGE_LIMIT {
        return None;
    }
    let arena = Bump::new(alloc);
    let depth = depth_of(within);
    let differing = read_differing(&arena, alloc, depth, old, new)?;
    let old_within = has_entities(&differing.old);
    let new_within = has_entities(&differing.new);
    if old_within != within || new_within != within {
        return None;
    }
    let gone = entity_in(alloc, id, &differing.old)?;
    let Some(come) = entity_in(alloc, id, &differing.new) else {
        drop(gone);
        return None;
    };
    Some(Changed { gone, come })
}

// How many levels above its maps a page has.
fn depth_of(within: bool) -> usize
    ensures { result ≡ depth_of within }
{
    if within { WITHIN } else { ALONE }
}
