// The names of the nodes of data values.

ghost use Rattle.std.specs.Prelude.{◌≡◌, ◌++◌, IfOk, OnOk, string_bytes, option_map};
ghost use Rattle.value_nodes.specs.Name.{globe_fields, name_fields, named_unit, node_name, quantity_fields, time_fields, version_mark};

use entity_model::{GlobeParts, MappingVersion, QuantityParts, TimeParts, Value};
use rdf_term::{OutOfMemory, Text};
use rdf_vocabulary::{hashed_name, push_field, push_optional_field};
use std::alloc::Global;
use triple_sink::Setting;

// How many bytes the parts of most values have at most.
const USUAL_LENGTH: usize = 96;

/// The name of a value's node: the MD5 of the value's kind and its parts, in the second version of the
/// mapping behind a `2` and with the number one's IRI for the unit `1`. Only times, quantities and coordinates
/// have nodes.
pub fn node_name(setting: Setting, value: &Value) -> Result<Option<Text>, OutOfMemory>
    ensures { IfOk result (λ name. name ≡ node_name setting.version value.now) }
{
    match name_fields(setting, value)? {
        Some(fields) => Ok(Some(hashed_name(setting.alloc, fields.as_str())?)),
        None => Ok(None),
    }
}

fn name_fields(setting: Setting, value: &Value) -> Result<Option<String>, OutOfMemory>
    ensures { IfOk result (λ fields. option_map string_bytes fields ≡ name_fields setting.version value.now) }
{
    match value {
        Value::Time(time) => Ok(Some(time_fields(setting, time)?)),
        Value::Quantity(quantity) => Ok(Some(quantity_fields(setting, quantity)?)),
        Value::Globe(globe) => Ok(Some(globe_fields(setting, globe)?)),
        Value::Entity(_) | Value::Str(_) | Value::Mono(_) | Value::Other => Ok(None),
    }
}

fn time_fields(setting: Setting, time: &TimeParts) -> Result<String, OutOfMemory>
    ensures { IfOk result (λ fields. string_bytes fields ≡ version_mark setting.version ++ time_fields time.now) }
{
    let mut fields = begun_fields(setting, "t")?;
    push_field(time.time.as_str(), &mut fields)?;
    push_field(time.precision_text.as_str(), &mut fields)?;
    push_field(time.timezone.as_str(), &mut fields)?;
    push_field(time.calendar.as_str(), &mut fields)?;
    Ok(fields)
}

fn quantity_fields(setting: Setting, quantity: &QuantityParts) -> Result<String, OutOfMemory>
    ensures { IfOk result (λ fields. string_bytes fields ≡ version_mark setting.version ++ quantity_fields setting.version quantity.now) }
{
    let mut fields = begun_fields(setting, "q")?;
    push_field(quantity.amount.as_str(), &mut fields)?;
    push_field(
        named_unit(setting.version, quantity.unit.as_str()),
        &mut fields,
    )?;
    push_optional_field(quantity.upper.as_ref(), &mut fields)?;
    push_optional_field(quantity.lower.as_ref(), &mut fields)?;
    Ok(fields)
}

fn globe_fields(setting: Setting, globe: &GlobeParts) -> Result<String, OutOfMemory>
    ensures { IfOk result (λ fields. string_bytes fields ≡ version_mark setting.version ++ globe_fields globe.now) }
{
    let mut fields = begun_fields(setting, "g")?;
    push_field(globe.latitude.as_str(), &mut fields)?;
    push_field(globe.longitude.as_str(), &mut fields)?;
    push_optional_field(globe.precision.as_ref(), &mut fields)?;
    push_field(globe.globe.as_str(), &mut fields)?;
    Ok(fields)
}

// The version's mark and the letter of a kind, with room for most values' parts.
fn begun_fields(setting: Setting, letter: &str) -> Result<String, OutOfMemory>
    ensures { IfOk result (λ fields. string_bytes fields ≡ version_mark setting.version ++ letter.now) }
{
    let mut fields = String::with_capacity(setting.alloc, USUAL_LENGTH)?;
    fields.push_str(version_mark(setting.version))?;
    fields.push_str(letter)?;
    Ok(fields)
}

// What stands before a value's parts.
fn version_mark(version: MappingVersion) -> &'static str
    ensures { result.now ≡ version_mark version }
{
    match version {
        MappingVersion::One => "",
        MappingVersion::Two => "2",
    }
}

// The unit that names a node.
#[tactic(auto, unfolding(crate::specs::Name::one, crate::specs::Name::number_one, rdf_vocabulary::specs::Prefix::prefix_text))]
fn named_unit(version: MappingVersion, unit: &str) -> &str
    ensures { result.now ≡ named_unit version unit.now }
{
    match version {
        MappingVersion::Two if unit == "1" => "http://www.wikidata.org/entity/Q199",
        MappingVersion::One | MappingVersion::Two => unit,
    }
}
