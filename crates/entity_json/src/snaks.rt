// Snaks, and maps of lists of them.

ghost use Rattle.std.specs.Prelude.{◌≡◌, Some, []};
ghost use Rattle.std.specs.Option.{unwrap_or};
ghost use Rattle.json_spell.specs.View.{json_view, member_view};
ghost use Rattle.entity_json.specs.{Finds.Finds, Finds.Makes, Leaves.text_of, Snaks.value_type};
ghost use Rattle.entity_json.specs.Reading.Snaks.{datatype_of, content_named, snak_content, snak_of, snak_step, snaks_step, snaks_at};

use crate::each::{EntryReader, ItemReader, each_found_entry, each_item};
use crate::leaf::{copy_text, id_of_kind, list_of, member_at, text_at};
use crate::map::map_at;
use crate::part::{PartFault, finish, put};
use crate::values::value_of;
use base::{CowText, List, Text};
use entity_model::{Content, EntityId, IdKind, Snak};
use json_spell::{Json, Member};
use std::alloc::Global;

// The text that a value is, or the empty one.
fn text_or_empty<'m>(json: &'m Json<'_, '_>) -> &'m str
    ensures { result.now ≡ unwrap_or (text_of (json_view json.now)) [] }
{
    match json {
        Json::Str(text) => text,
        Json::Made(text) => text,
        _ => "",
    }
}

// The type of the data value, or the empty text where there is none.
#[tactic(auto, unfolding(crate::specs::Snaks::value_type))]
fn value_type<'m>(json: &'m Json<'_, '_>) -> &'m str
    ensures { result.now ≡ value_type (json_view json.now) }
{
    match json.get("datavalue") {
        Some(data) => match data.get("type") {
            Some(data_type) => text_or_empty(data_type),
            None => "",
        },
        None => "",
    }
}

// The datatype, which may be missing.
#[tactic(auto, unfolding(crate::specs::Reading::Snaks::datatype_of))]
fn datatype_of<'a>(alloc: Global, json: &Json<'_, 'a>) -> Result<CowText<'a>, PartFault>
    ensures { Finds result (datatype_of (json_view json.now)) }
{
    match json.get("datatype") {
        Some(datatype) => copy_text(alloc, datatype),
        None => Ok(CowText::owned(Text::new(alloc, value_type(json))?)),
    }
}

// What is said of the value.
#[tactic(auto, unfolding(crate::specs::Reading::Snaks::snak_content), using(crate::proofs::Mapped::finds_mapped))]
fn snak_content<'a>(alloc: Global, json: &Json<'_, 'a>) -> Result<Content<'a>, PartFault>
    ensures { Finds result (snak_content (json_view json.now)) }
{
    match text_at(json, "snaktype")? {
        "value" => value_of(alloc, member_at(json, "datavalue")?).map(Content::Value),
        "novalue" => Ok(Content::NoValue),
        "somevalue" => Ok(Content::SomeValue),
        _ => Err(PartFault::Shape),
    }
}

// An index in the width that a snak has. A list with greater indices wouldn't fit into memory.
fn small_place(place: usize) -> Result<u32, PartFault>
    ensures { Finds result (Some place) }
{
    if place > u32::MAX as usize {
        return Err(PartFault::OutOfMemory);
    }
    Ok(place as u32)
}

// The snak under a property, at its place.
#[tactic(auto, unfolding(crate::specs::Reading::Snaks::snak_of))]
pub fn snak_of<'a>(
    alloc: Global,
    key: &str,
    property: EntityId,
    place: usize,
    json: &Json<'_, 'a>,
) -> Result<Snak<'a>, PartFault>
    ensures { Finds result (snak_of key.now property place (json_view json.now)) }
{
    if text_at(json, "property")? != key {
        return Err(PartFault::Shape);
    }
    let place = small_place(place)?;
    let datatype = datatype_of(alloc, json)?;
    match snak_content(alloc, json) {
        Ok(content) => Ok(Snak {
            property,
            place,
            datatype,
            content,
        }),
        Err(fault) => {
            drop(datatype);
            Err(fault)
        }
    }
}

// Reads the snaks of a property, whose id is the key.
#[derive(Clone, Copy)]
struct SnakReader<'k> {
    key: &'k str,
    property: EntityId,
}

impl<'a> ItemReader<'a, Snak<'a>> for SnakReader<'_> {
    ghost reads = { λ reader item out. snak_step reader.key.now reader.property item out };

    fn read(
        &self,
        alloc: Global,
        index: usize,
        json: &Json<'_, 'a>,
        out: &mut List<Snak<'a>>,
    ) -> Result<(), PartFault> {
        put(snak_of(alloc, self.key, self.property, index, json), out)
    }
}

struct SnaksReader;

impl<'a> EntryReader<'a, Snak<'a>> for SnaksReader {
    ghost reads = { λ reader entry out. snaks_step entry out };

    #[tactic(auto, unfolding(crate::specs::Reading::Snaks::snaks_step))]
    fn read(
        &self,
        alloc: Global,
        entry: &Member<'_, 'a>,
        out: &mut List<Snak<'a>>,
    ) -> Result<(), PartFault> {
        let key = entry.key;
        let property = id_of_kind(IdKind::P, key)?;
        let reader = SnakReader { key, property };
        each_item(alloc, &reader, list_of(&entry.value)?, out)
    }
}

// The snaks of the map under the name.
#[tactic(auto, unfolding(crate::specs::Reading::Snaks::snaks_at))]
pub fn snaks_at<'a>(
    alloc: Global,
    json: &Json<'_, 'a>,
    name: &str,
) -> Result<List<Snak<'a>>, PartFault>
    ensures { Finds result (snaks_at name.now (json_view json.now)) }
{
    let entries = map_at(json, name)?;
    let mut snaks = List::new(alloc);
    let filled = each_found_entry(alloc, &SnaksReader, entries, &mut snaks);
    finish(filled, snaks)
}
