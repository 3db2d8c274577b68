// The leaves of a page: members that are texts, numbers, lists or ids.

ghost use Rattle.std.specs.Prelude.{map};
ghost use Rattle.json_spell.specs.{Tree.member_of, View.json_view};
ghost use Rattle.entity_json.specs.{Found.found_items, Finds.Finds, Finds.FindsBy};
ghost use Rattle.entity_json.specs.Leaves.{text_of, number_of, list_of, text_at, number_at, id_at, optional_text_at, nullable_number_at, optional_list_at, id_of_kind, id_of_kind_at};

use crate::part::PartFault;
use base::{CowText, Text};
use entity_model::{EntityId, IdKind};
use json_spell::Json;
use std::alloc::Global;

// The member with the name.
pub fn member_at<'m, 'b, 'a>(
    json: &'m Json<'b, 'a>,
    name: &str,
) -> Result<&'m Json<'b, 'a>, PartFault>
    ensures { FindsBy (λ value. json_view value.now) result (member_of name.now (json_view json.now)) }
{
    match json.get(name) {
        Some(value) => Ok(value),
        None => Err(PartFault::Shape),
    }
}

// A text.
pub fn text_of<'m>(json: &'m Json<'_, '_>) -> Result<&'m str, PartFault>
    ensures { FindsBy (λ text. text.now) result (text_of (json_view json.now)) }
{
    match json {
        Json::Str(text) => Ok(text),
        Json::Made(text) => Ok(text),
        _ => Err(PartFault::Shape),
    }
}

// A copy of a text, which borrows it where it is a part of the page.
pub fn copy_text<'a>(alloc: Global, json: &Json<'_, 'a>) -> Result<CowText<'a>, PartFault>
    ensures { Finds result (text_of (json_view json.now)) }
{
    match json {
        Json::Str(text) => Ok(CowText::borrowed(text)),
        Json::Made(text) => Ok(CowText::owned(Text::new(alloc, text)?)),
        _ => Err(PartFault::Shape),
    }
}

// The values of an array.
pub fn list_of<'m, 'b, 'a>(json: &'m Json<'b, 'a>) -> Result<&'m [Json<'b, 'a>], PartFault>
    ensures { FindsBy (λ items. map json_view items.now) result (list_of (json_view json.now)) }
{
    match json {
        Json::Items(items) => Ok(items),
        _ => Err(PartFault::Shape),
    }
}

// The member with the name that is a text.
pub fn text_at<'m>(json: &'m Json<'_, '_>, name: &str) -> Result<&'m str, PartFault>
    ensures { FindsBy (λ text. text.now) result (text_at name.now (json_view json.now)) }
{
    match json.get(name) {
        Some(value) => text_of(value),
        None => Err(PartFault::Shape),
    }
}

// A copy of the member with the name that is a text.
pub fn copy_text_at<'a>(
    alloc: Global,
    json: &Json<'_, 'a>,
    name: &str,
) -> Result<CowText<'a>, PartFault>
    ensures { Finds result (text_at name.now (json_view json.now)) }
{
    match json.get(name) {
        Some(value) => copy_text(alloc, value),
        None => Err(PartFault::Shape),
    }
}

// A number, as it is spelled.
pub fn number_of<'a>(json: &Json<'_, 'a>) -> Result<&'a str, PartFault>
    ensures { FindsBy (λ text. text.now) result (number_of (json_view json.now)) }
{
    match json {
        Json::Number(spelling) => Ok(spelling),
        _ => Err(PartFault::Shape),
    }
}

// The member with the name that is a number.
pub fn number_at<'a>(json: &Json<'_, 'a>, name: &str) -> Result<&'a str, PartFault>
    ensures { FindsBy (λ text. text.now) result (number_at name.now (json_view json.now)) }
{
    match json.get(name) {
        Some(value) => number_of(value),
        None => Err(PartFault::Shape),
    }
}

// A copy of the member with the name that is a text and may be missing.
#[tactic(auto, using(crate::proofs::Mapped::finds_mapped))]
pub fn optional_text_at<'a>(
    alloc: Global,
    json: &Json<'_, 'a>,
    name: &str,
) -> Result<Option<CowText<'a>>, PartFault>
    ensures { Finds result (optional_text_at name.now (json_view json.now)) }
{
    match json.get(name) {
        None => Ok(None),
        Some(value) => copy_text(alloc, value).map(Some),
    }
}

// The member with the name that is a number, as a part of the page, and may be missing or null.
pub fn nullable_number_at<'a>(
    json: &Json<'_, 'a>,
    name: &str,
) -> Result<Option<CowText<'a>>, PartFault>
    ensures { Finds result (nullable_number_at name.now (json_view json.now)) }
{
    match json.get(name) {
        None | Some(Json::Null) => Ok(None),
        Some(value) => Ok(Some(CowText::borrowed(number_of(value)?))),
    }
}

// The values of the array with the name, which may be missing.
pub fn optional_list_at<'m, 'b, 'a>(
    json: &'m Json<'b, 'a>,
    name: &str,
) -> Result<Option<&'m [Json<'b, 'a>]>, PartFault>
    ensures { FindsBy found_items result (optional_list_at name.now (json_view json.now)) }
{
    match json.get(name) {
        None => Ok(None),
        Some(value) => Ok(Some(list_of(value)?)),
    }
}

// The member with the name that is the text of an id.
pub fn id_at(json: &Json<'_, '_>, name: &str) -> Result<EntityId, PartFault>
    ensures { Finds result (id_at name.now (json_view json.now)) }
{
    match EntityId::read(text_at(json, name)?) {
        Some(id) => Ok(id),
        None => Err(PartFault::Shape),
    }
}

// The id of the kind that the text is.
pub fn id_of_kind(kind: IdKind, text: &str) -> Result<EntityId, PartFault>
    ensures { Finds result (id_of_kind kind text.now) }
{
    let Some(id) = EntityId::read(text) else {
        return Err(PartFault::Shape);
    };
    match (kind, id.kind) {
        (IdKind::P, IdKind::P) | (IdKind::Q, IdKind::Q) | (IdKind::L, IdKind::L) => Ok(id),
        _ => Err(PartFault::Shape),
    }
}

// The member with the name that is the text of an id of the kind.
pub fn id_of_kind_at(kind: IdKind, json: &Json<'_, '_>, name: &str) -> Result<EntityId, PartFault>
    ensures { Finds result (id_of_kind_at kind name.now (json_view json.now)) }
{
    id_of_kind(kind, text_at(json, name)?)
}
