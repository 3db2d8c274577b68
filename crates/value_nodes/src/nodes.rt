// The triples of the nodes of data values.

ghost use Rattle.std.specs.Prelude.{[], ◌∷◌, OnOk};
ghost use Rattle.std.specs.Option.{option_copied};
ghost use Rattle.rdf_vocabulary.specs.{Datatype.typed, Predicate.about};
ghost use Rattle.triple_sink.specs.{Gains.Gains, Gains.KeepsFront, TermRef.meant};
ghost use Rattle.value_nodes.specs.Nodes.{bound_triples, globe_triples, value_part_triples, precision_triples, quantity_triples, time_triples, unit_term};

use crate::simple::{emit_amount, emit_iri, emit_time};
use entity_model::{GlobeParts, QuantityParts, TimeParts, Value};
use rdf_term::{CowText, OutOfMemory};
use rdf_vocabulary::{Datatype, Predicate, Prefix, Resource};
use std::alloc::Global;
use triple_sink::{Subject, TermRef, TripleSink, emit_about, emit_class};

/// Hands on the triples of the value's node: its class and its parts. A value that has no node has none.
pub fn emit_parts<S: TripleSink>(
    alloc: Global,
    node: &TermRef<'_>,
    value: &Value,
    out: &mut S,
) -> Result<(), OutOfMemory>
    ensures gains { OnOk result (Gains S.items S.keeps out.old out.new (value_part_triples (meant node.now) value.now)) }
    ensures front { KeepsFront S.items out.old out.new }
{
    match value {
        Value::Time(time) => {
            emit_class(alloc, node, Resource::TimeValue, out)?;
            emit_time_parts(alloc, node, time, out)
        }
        Value::Quantity(quantity) => {
            emit_class(alloc, node, Resource::QuantityValue, out)?;
            emit_quantity_parts(alloc, node, quantity, out)
        }
        Value::Globe(globe) => {
            emit_class(alloc, node, Resource::GlobecoordinateValue, out)?;
            emit_globe_parts(alloc, node, globe, out)
        }
        Value::Entity(_) | Value::Str(_) | Value::Mono(_) | Value::Other => Ok(()),
    }
}

// Hands on the parts of a time.
fn emit_time_parts<S: TripleSink>(
    alloc: Global,
    node: &TermRef<'_>,
    time: &TimeParts,
    out: &mut S,
) -> Result<(), OutOfMemory>
    ensures gains { OnOk result (Gains S.items S.keeps out.old out.new (time_triples (meant node.now) time.now)) }
    ensures front { KeepsFront S.items out.old out.new }
{
    let value = TermRef::Predicate(Predicate::TimeValue);
    emit_time(alloc, &Subject::new(*node), &value, time, out)?;
    let precision = time.precision_text.as_str();
    emit_integer(alloc, node, Predicate::TimePrecision, precision, out)?;
    let timezone = time.timezone.as_str();
    emit_integer(alloc, node, Predicate::TimeTimezone, timezone, out)?;
    let calendar = TermRef::Predicate(Predicate::TimeCalendarModel);
    emit_iri(
        alloc,
        &Subject::new(*node),
        &calendar,
        time.calendar.as_str(),
        out,
    )
}

// Hands on the parts of a quantity.
fn emit_quantity_parts<S: TripleSink>(
    alloc: Global,
    node: &TermRef<'_>,
    quantity: &QuantityParts,
    out: &mut S,
) -> Result<(), OutOfMemory>
    ensures gains { OnOk result (Gains S.items S.keeps out.old out.new (quantity_triples (meant node.now) quantity.now)) }
    ensures front { KeepsFront S.items out.old out.new }
{
    let amount = TermRef::Predicate(Predicate::QuantityAmount);
    emit_amount(
        alloc,
        &Subject::new(*node),
        &amount,
        quantity.amount.as_str(),
        out,
    )?;
    emit_unit(alloc, node, quantity.unit.as_str(), out)?;
    let (upper, lower) = (quantity.upper.as_ref(), quantity.lower.as_ref());
    emit_bound(alloc, node, Predicate::QuantityUpperBound, upper, out)?;
    emit_bound(alloc, node, Predicate::QuantityLowerBound, lower, out)
}

// Hands on a bound, where it is there.
fn emit_bound<S: TripleSink>(
    alloc: Global,
    node: &TermRef<'_>,
    predicate: Predicate,
    bound: Option<&CowText<'_>>,
    out: &mut S,
) -> Result<(), OutOfMemory>
    ensures gains { OnOk result (Gains S.items S.keeps out.old out.new
        (bound_triples (meant node.now) predicate (option_copied bound.entry))) }
    ensures front { KeepsFront S.items out.old out.new }
{
    match bound {
        Some(bound) => {
            let predicate = TermRef::Predicate(predicate);
            emit_amount(alloc, &Subject::new(*node), &predicate, bound.as_str(), out)
        }
        None => Ok(()),
    }
}

// Hands on the unit, where `1` is the number one.
#[tactic(auto, unfolding(crate::specs::Name::one, crate::specs::Name::number_one))]
fn emit_unit<S: TripleSink>(
    alloc: Global,
    node: &TermRef<'_>,
    unit: &str,
    out: &mut S,
) -> Result<(), OutOfMemory>
    ensures gains { OnOk result (Gains S.items S.keeps out.old out.new
        (about (meant node.now) Predicate.QuantityUnit (unit_term unit.now) ∷ [])) }
    ensures front { KeepsFront S.items out.old out.new }
{
    let predicate = TermRef::Predicate(Predicate::QuantityUnit);
    if unit == "1" {
        return out.emit(alloc, node, &predicate, &TermRef::Named(Prefix::Wd, "Q199"));
    }
    emit_iri(alloc, &Subject::new(*node), &predicate, unit, out)
}

// Hands on the parts of a coordinate.
fn emit_globe_parts<S: TripleSink>(
    alloc: Global,
    node: &TermRef<'_>,
    globe: &GlobeParts,
    out: &mut S,
) -> Result<(), OutOfMemory>
    ensures gains { OnOk result (Gains S.items S.keeps out.old out.new (globe_triples (meant node.now) globe.now)) }
    ensures front { KeepsFront S.items out.old out.new }
{
    emit_position(alloc, node, globe, out)?;
    emit_precision(alloc, node, globe.precision.as_ref(), out)?;
    let predicate = TermRef::Predicate(Predicate::GeoGlobe);
    emit_iri(
        alloc,
        &Subject::new(*node),
        &predicate,
        globe.globe.as_str(),
        out,
    )
}

// Hands on the latitude and the longitude of a coordinate.
fn emit_position<S: TripleSink>(
    alloc: Global,
    node: &TermRef<'_>,
    globe: &GlobeParts,
    out: &mut S,
) -> Result<(), OutOfMemory>
    ensures gains { OnOk result (Gains S.items S.keeps out.old out.new
        (about (meant node.now) Predicate.GeoLatitude (typed globe.now.latitude Datatype.Double) ∷ about (meant node.now) Predicate.GeoLongitude (typed globe.now.longitude Datatype.Double) ∷ [])) }
    ensures front { KeepsFront S.items out.old out.new }
{
    let latitude = globe.latitude.as_str();
    emit_double(alloc, node, Predicate::GeoLatitude, latitude, out)?;
    let longitude = globe.longitude.as_str();
    emit_double(alloc, node, Predicate::GeoLongitude, longitude, out)
}

// Hands on the precision of a coordinate, where it is there.
fn emit_precision<S: TripleSink>(
    alloc: Global,
    node: &TermRef<'_>,
    precision: Option<&CowText<'_>>,
    out: &mut S,
) -> Result<(), OutOfMemory>
    ensures gains { OnOk result (Gains S.items S.keeps out.old out.new
        (precision_triples (meant node.now) (option_copied precision.entry))) }
    ensures front { KeepsFront S.items out.old out.new }
{
    match precision {
        Some(precision) => {
            emit_double(
                alloc,
                node,
                Predicate::GeoPrecision,
                precision.as_str(),
                out,
            )
        }
        None => Ok(()),
    }
}

// Hands on an `xsd:integer` of the node.
fn emit_integer<S: TripleSink>(
    alloc: Global,
    node: &TermRef<'_>,
    predicate: Predicate,
    text: &str,
    out: &mut S,
) -> Result<(), OutOfMemory>
    ensures gains { OnOk result (Gains S.items S.keeps out.old out.new
        (about (meant node.now) predicate (typed text.now Datatype.Integer) ∷ [])) }
    ensures front { KeepsFront S.items out.old out.new }
{
    let object = TermRef::Typed(text, Datatype::Integer.text());
    emit_about(alloc, node, predicate, &object, out)
}

// Hands on an `xsd:double` of the node.
fn emit_double<S: TripleSink>(
    alloc: Global,
    node: &TermRef<'_>,
    predicate: Predicate,
    text: &str,
    out: &mut S,
) -> Result<(), OutOfMemory>
    ensures gains { OnOk result (Gains S.items S.keeps out.old out.new
        (about (meant node.now) predicate (typed text.now Datatype.Double) ∷ [])) }
    ensures front { KeepsFront S.items out.old out.new }
{
    let object = TermRef::Typed(text, Datatype::Double.text());
    emit_about(alloc, node, predicate, &object, out)
}
