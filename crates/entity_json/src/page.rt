// Pages: which value of a JSON text is the page, and whether it is a redirect, an item or property, or a lexeme.

ghost use Rattle.json_spell.specs.View.{json_view};
ghost use Rattle.entity_json.specs.Finds.{Finds, FindsBy};
ghost use Rattle.entity_json.specs.Reading.Pages.{entity_page, lexeme_page, own_page, redirect_page, page_at, page_tree_of, page_of};

use crate::entity::{entity_of, page_kind};
use crate::leaf::id_at;
use crate::lexeme::lexeme_of;
use crate::map::only_of;
use crate::part::PartFault;
use entity_model::{Document, EntityId, IdKind};
use json_spell::Json;
use std::alloc::Global;

/// How many bytes a page may have.
pub const PAGE_LIMIT: usize = 8_388_608;

/// The page of an entity.
#[derive(Drop)]
pub struct Page<'a> {
    /// The entity whose page it is.
    pub id: EntityId,
    /// What the page says.
    pub document: Document<'a>,
}

// The page of an item or a property.
#[tactic(auto, unfolding(crate::specs::Reading::Pages::entity_page))]
fn entity_page<'a>(alloc: Global, json: &Json<'_, 'a>) -> Result<Page<'a>, PartFault>
    ensures { Finds result (entity_page (json_view json.now)) }
{
    let entity = entity_of(alloc, json)?;
    Ok(Page {
        id: entity.id,
        document: Document::Entity(entity),
    })
}

// The page of a lexeme.
#[tactic(auto, unfolding(crate::specs::Reading::Pages::lexeme_page))]
fn lexeme_page<'a>(alloc: Global, json: &Json<'_, 'a>) -> Result<Page<'a>, PartFault>
    ensures { Finds result (lexeme_page (json_view json.now)) }
{
    let lexeme = lexeme_of(alloc, json)?;
    Ok(Page {
        id: lexeme.id,
        document: Document::Lexeme(lexeme),
    })
}

// The page of an entity, by its kind.
#[tactic(auto, unfolding(crate::specs::Reading::Pages::own_page))]
fn own_page<'a>(alloc: Global, json: &Json<'_, 'a>) -> Result<Page<'a>, PartFault>
    ensures { Finds result (own_page (json_view json.now)) }
{
    match page_kind(json)? {
        IdKind::P | IdKind::Q => entity_page(alloc, json),
        IdKind::L => lexeme_page(alloc, json),
    }
}

// The page of a redirect.
#[tactic(auto, unfolding(crate::specs::Reading::Pages::redirect_page))]
fn redirect_page<'a>(json: &Json<'_, 'a>) -> Result<Page<'a>, PartFault>
    ensures { Finds result (redirect_page (json_view json.now)) }
{
    let id = id_at(json, "entity")?;
    let target = id_at(json, "redirect")?;
    Ok(Page {
        id,
        document: Document::Redirect(target),
    })
}

// The page that a value is: a redirect, where it has a member of that name.
#[tactic(auto, unfolding(crate::specs::Reading::Pages::page_at))]
fn page_at<'a>(alloc: Global, json: &Json<'_, 'a>) -> Result<Page<'a>, PartFault>
    ensures { Finds result (page_at (json_view json.now)) }
{
    match json.get("redirect") {
        Some(_) => redirect_page(json),
        None => own_page(alloc, json),
    }
}

// Where the page stands: the only entity, where entities are there.
#[tactic(auto, unfolding(crate::specs::Reading::Pages::page_tree_of))]
fn page_tree_of<'m, 'b, 'a>(json: &'m Json<'b, 'a>) -> Result<&'m Json<'b, 'a>, PartFault>
    ensures { FindsBy (λ value. json_view value.now) result (page_tree_of (json_view json.now)) }
{
    match json.get("entities") {
        Some(entities) => only_of(entities),
        None => Ok(json),
    }
}

/// The page of a text's value, after Wikibase's JSON data model: a redirect, an item or property, or a lexeme; or the only member of
/// `entities`, where the value has this member. Its texts are parts of the text that the value was read from, but for those that it writes
/// with escapes. `Shape` where the value is no page.
#[tactic(auto, unfolding(crate::specs::Reading::Pages::page_of))]
pub fn page_of<'a>(alloc: Global, json: &Json<'_, 'a>) -> Result<Page<'a>, PartFault>
    ensures { Finds result (page_of (json_view json.now)) }
{
    page_at(alloc, page_tree_of(json)?)
}

/// Gives back the memory of a document. So the drop of all that a document may hold is proved here, and not in each crate that has one.
pub fn discard(document: Document<'_>) {
    drop(document);
}
