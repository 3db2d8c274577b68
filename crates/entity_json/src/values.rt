// Data values, by their type.

ghost use Rattle.std.specs.Prelude.{◌≡◌, ◌==◌, ◌||◌, [], ◌∷◌};
ghost use Rattle.std.specs.{Char.is_ascii_alphanumeric, List.list_all};
ghost use Rattle.json_spell.specs.View.{json_view};
ghost use Rattle.entity_model.specs.Value.{is_entity_text};
ghost use Rattle.entity_json.specs.{Finds.Finds, Values.numbered_letter};
ghost use Rattle.entity_json.specs.Reading.Values.{numbered_type, numeric_id, numbered_entity, entity_value, time_of, quantity_of, globe_of, value_of_parts, value_of_type, value_of};

use crate::leaf::{
    copy_text, copy_text_at, member_at, nullable_number_at, number_at, optional_text_at, text_at,
    text_of,
};
use crate::number::{is_whole, small_of};
use crate::part::PartFault;
use crate::terms::tagged_under;
use base::{CowText, Text};
use entity_model::{EntityId, GlobeParts, QuantityParts, TimeParts, Value};
use json_spell::Json;
use std::alloc::Global;

// A type of entities that a value may name by number.
#[derive(Clone, Copy)]
pub enum NumberedType {
    // Properties, as P31.
    Property,
    // Items, as Q42.
    Item,
}

// The type with the word.
fn numbered_type(word: &str) -> Option<NumberedType>
    ensures { result ≡ numbered_type word.now }
{
    match word {
        "item" => Some(NumberedType::Item),
        "property" => Some(NumberedType::Property),
        _ => None,
    }
}

// Whether the bytes are ASCII letters, digits and dashes.
fn are_entity_bytes(bytes: &[u8]) -> bool
    ensures { result ≡ list_all (λ byte. is_ascii_alphanumeric byte || (byte == 45)) bytes.now }
{
    bytes
        .iter()
        .all(|byte| byte.is_ascii_alphanumeric() || *byte == b'-')
}

// Whether the text is 1 to 64 ASCII letters, digits and dashes.
fn is_entity_text(text: &str) -> bool
    ensures { result ≡ is_entity_text text.now }
{
    1 <= text.len() && text.len() <= 64 && are_entity_bytes(text.as_bytes())
}

// The letter that the ids of the type begin with.
fn letter_of(numbered: NumberedType) -> &'static str
    ensures { result.now ≡ numbered_letter numbered ∷ [] }
{
    match numbered {
        NumberedType::Property => "P",
        NumberedType::Item => "Q",
    }
}

// The id with the type's letter and a number as it is spelled.
#[tactic(auto, unfolding(crate::specs::Reading::Values::numeric_id))]
fn numeric_id(alloc: Global, numbered: NumberedType, spelling: &str) -> Result<Text, PartFault>
    ensures { Finds result (numeric_id numbered spelling.now) }
{
    let letter = letter_of(numbered);
    let text = format!(in alloc; "{letter}{spelling}")?;
    match EntityId::read(text.as_str()) {
        Some(_) => Ok(Text::from_string(text)),
        None => Err(PartFault::Shape),
    }
}

// The id of an entity that is given by its type and number.
#[tactic(auto, unfolding(crate::specs::Reading::Values::numbered_entity))]
fn numbered_entity(alloc: Global, json: &Json<'_, '_>) -> Result<Text, PartFault>
    ensures { Finds result (numbered_entity (json_view json.now)) }
{
    let word = text_at(json, "entity-type")?;
    let Some(numbered) = numbered_type(word) else {
        return Err(PartFault::Shape);
    };
    let spelling = number_at(json, "numeric-id")?;
    numeric_id(alloc, numbered, spelling)
}

// The id of an entity, by its text where that is there.
#[tactic(auto, unfolding(crate::specs::Reading::Values::entity_value))]
fn entity_value<'a>(alloc: Global, json: &Json<'_, 'a>) -> Result<CowText<'a>, PartFault>
    ensures { Finds result (entity_value (json_view json.now)) }
{
    let Some(id) = json.get("id") else {
        return Ok(CowText::owned(numbered_entity(alloc, json)?));
    };
    let text = text_of(id)?;
    if !is_entity_text(text) {
        return Err(PartFault::Shape);
    }
    copy_text(alloc, id)
}

// A point in time.
#[tactic(auto, unfolding(crate::specs::Reading::Values::time_of))]
fn time_of<'a>(alloc: Global, json: &Json<'_, 'a>) -> Result<TimeParts<'a>, PartFault>
    ensures { Finds result (time_of (json_view json.now)) }
{
    let precision_text = number_at(json, "precision")?;
    let Some(precision) = small_of(precision_text) else {
        return Err(PartFault::Shape);
    };
    let timezone = number_at(json, "timezone")?;
    if !is_whole(timezone.as_bytes()) {
        return Err(PartFault::Shape);
    }
    let time = copy_text_at(alloc, json, "time")?;
    match copy_text_at(alloc, json, "calendarmodel") {
        Ok(calendar) => Ok(TimeParts {
            time,
            precision,
            precision_text: CowText::borrowed(precision_text),
            timezone: CowText::borrowed(timezone),
            calendar,
        }),
        Err(fault) => {
            drop(time);
            Err(fault)
        }
    }
}

// A number with its unit and bounds.
#[tactic(auto, unfolding(crate::specs::Reading::Values::quantity_of))]
fn quantity_of<'a>(alloc: Global, json: &Json<'_, 'a>) -> Result<QuantityParts<'a>, PartFault>
    ensures { Finds result (quantity_of (json_view json.now)) }
{
    let amount = copy_text_at(alloc, json, "amount")?;
    let unit = match copy_text_at(alloc, json, "unit") {
        Ok(unit) => unit,
        Err(fault) => {
            drop(amount);
            return Err(fault);
        }
    };
    let upper = match optional_text_at(alloc, json, "upperBound") {
        Ok(upper) => upper,
        Err(fault) => {
            drop(unit);
            drop(amount);
            return Err(fault);
        }
    };
    match optional_text_at(alloc, json, "lowerBound") {
        Ok(lower) => Ok(QuantityParts {
            amount,
            unit,
            upper,
            lower,
        }),
        Err(fault) => {
            drop(upper);
            drop(unit);
            drop(amount);
            Err(fault)
        }
    }
}

// A point on a globe.
#[tactic(auto, unfolding(crate::specs::Reading::Values::globe_of))]
fn globe_of<'a>(alloc: Global, json: &Json<'_, 'a>) -> Result<GlobeParts<'a>, PartFault>
    ensures { Finds result (globe_of (json_view json.now)) }
{
    let latitude = number_at(json, "latitude")?;
    let longitude = number_at(json, "longitude")?;
    let precision = nullable_number_at(json, "precision")?;
    match copy_text_at(alloc, json, "globe") {
        Ok(globe) => Ok(GlobeParts {
            latitude: CowText::borrowed(latitude),
            longitude: CowText::borrowed(longitude),
            precision,
            globe,
        }),
        Err(fault) => {
            drop(precision);
            Err(fault)
        }
    }
}

// A value of the type; one of a type that isn't named here may be anything.
#[tactic(auto, unfolding(crate::specs::Reading::Values::value_of_type, crate::specs::Reading::Values::value_of_parts), using(crate::proofs::Mapped::finds_mapped))]
fn value_of_type<'a>(alloc: Global, kind: &str, json: &Json<'_, 'a>) -> Result<Value<'a>, PartFault>
    ensures { Finds result (value_of_type kind.now (json_view json.now)) }
{
    match kind {
        "string" => copy_text(alloc, json).map(Value::Str),
        "wikibase-entityid" => entity_value(alloc, json).map(Value::Entity),
        _ => value_of_parts(alloc, kind, json),
    }
}

// The same of a type whose values have parts.
#[tactic(auto, unfolding(crate::specs::Reading::Values::value_of_parts), using(crate::proofs::Mapped::finds_mapped))]
fn value_of_parts<'a>(
    alloc: Global,
    kind: &str,
    json: &Json<'_, 'a>,
) -> Result<Value<'a>, PartFault>
    ensures { Finds result (value_of_parts kind.now (json_view json.now)) }
{
    match kind {
        "time" => time_of(alloc, json).map(Value::Time),
        "quantity" => quantity_of(alloc, json).map(Value::Quantity),
        "globecoordinate" => globe_of(alloc, json).map(Value::Globe),
        "monolingualtext" => tagged_under(alloc, json, "text").map(Value::Mono),
        _ => Ok(Value::Other),
    }
}

// A data value.
#[tactic(auto, unfolding(crate::specs::Reading::Values::value_of))]
pub fn value_of<'a>(alloc: Global, json: &Json<'_, 'a>) -> Result<Value<'a>, PartFault>
    ensures { Finds result (value_of (json_view json.now)) }
{
    let kind = text_at(json, "type")?;
    let value = member_at(json, "value")?;
    value_of_type(alloc, kind, value)
}
