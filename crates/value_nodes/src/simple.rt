// The triples with the simple terms of data values.

ghost use Rattle.std.specs.Prelude.{◌≡◌, [], ◌∷◌, IfOk, IfSome, OnOk};
ghost use Rattle.std.specs.Str.{bytes_eq};
ghost use Rattle.rdf_term.specs.Grammar.{iri_of};
ghost use Rattle.rdf_vocabulary.specs.Prefix.{prefixed};
ghost use Rattle.triple_sink.specs.{Gains.Gains, Gains.KeepsFront, Subject.IsKnown, TermRef.meant};
ghost use Rattle.wb_values.specs.Literal.{time_literal};
ghost use Rattle.value_nodes.specs.Said.{object_triples, triple};
ghost use Rattle.value_nodes.specs.Terms.{amount_term, globe_term, julian_calendar, simple_term, text_term, time_term, time_text_term};

use entity_model::{GlobeParts, TimeParts, Value};
use rdf_term::{OutOfMemory, iri, is_iri};
use rdf_vocabulary::{Datatype, Prefix, push_escaped_name};
use std::alloc::Global;
use triple_sink::{Subject, TermRef, TripleSink};
use wb_values::{TimeText, is_decimal, point_text, time_literal};

/// Hands on the triple of the subject, the predicate and the simple term of a value of a property with this
/// datatype: an entity's IRI, an IRI, the page of a file of Wikimedia Commons, a text with or without its
/// language, an `xsd:decimal`, an `xsd:dateTime` or a `geo:wktLiteral`. Values of other types have none.
pub fn emit_simple<S: TripleSink>(
    alloc: Global,
    subject: &Subject<'_>,
    predicate: &TermRef<'_>,
    datatype: &str,
    value: &Value,
    out: &mut S,
) -> Result<(), OutOfMemory>
    requires known { IsKnown S.items out.old subject.now }
    ensures gains { OnOk result (Gains S.items S.keeps out.old out.new
        (object_triples (meant subject.now.term) (meant predicate.now) (simple_term datatype.now value.now))) }
    ensures front { KeepsFront S.items out.old out.new }
{
    match value {
        Value::Entity(id) => {
            let object = TermRef::Named(Prefix::Wd, id.as_str());
            out.emit_known(alloc, subject, predicate, &object)
        }
        Value::Str(text) => emit_text(alloc, subject, predicate, datatype, text.as_str(), out),
        Value::Time(time) => emit_time(alloc, subject, predicate, time, out),
        Value::Quantity(quantity) => {
            emit_amount(alloc, subject, predicate, quantity.amount.as_str(), out)
        }
        Value::Globe(globe) => emit_globe(alloc, subject, predicate, globe, out),
        Value::Mono(text) => {
            let object = TermRef::tagged(text.text.as_str(), text.language.as_str());
            out.emit_known(alloc, subject, predicate, &object)
        }
        Value::Other => Ok(()),
    }
}

// Hands on the triple with the term of a text.
#[tactic(auto, unfolding(crate::specs::Terms::url, crate::specs::Terms::commons_media))]
fn emit_text<S: TripleSink>(
    alloc: Global,
    subject: &Subject<'_>,
    predicate: &TermRef<'_>,
    datatype: &str,
    text: &str,
    out: &mut S,
) -> Result<(), OutOfMemory>
    requires known { IsKnown S.items out.old subject.now }
    ensures gains { OnOk result (Gains S.items S.keeps out.old out.new
        (triple (meant subject.now.term) (meant predicate.now) (text_term datatype.now text.now) ∷ [])) }
    ensures front { KeepsFront S.items out.old out.new }
{
    if datatype == "url" {
        return emit_iri(alloc, subject, predicate, text, out);
    }
    if datatype == "commonsMedia" {
        let mut name = String::new(alloc);
        push_escaped_name(text, &mut name)?;
        let object = TermRef::Named(Prefix::FilePath, name.as_str());
        return out.emit_known(alloc, subject, predicate, &object);
    }
    out.emit_known(alloc, subject, predicate, &TermRef::Plain(text))
}

/// Hands on the triple with the IRI of the text, in which what may not stand in an IRI is percent-encoded. Most are
/// IRIs of entities (calendars, units and globes), of which only the name is judged.
#[tactic(auto, using(rdf_term::proofs::IriChars::iri_of_same))]
pub fn emit_iri<S: TripleSink>(
    alloc: Global,
    subject: &Subject<'_>,
    predicate: &TermRef<'_>,
    text: &str,
    out: &mut S,
) -> Result<(), OutOfMemory>
    requires known { IsKnown S.items out.old subject.now }
    ensures gains { OnOk result (Gains S.items S.keeps out.old out.new
        (triple (meant subject.now.term) (meant predicate.now) (iri_of text.now) ∷ [])) }
    ensures front { KeepsFront S.items out.old out.new }
{
    if let Some(name) = name_in_iri(text) {
        return out.emit_known(alloc, subject, predicate, &TermRef::Named(Prefix::Wd, name));
    }
    if is_iri(text) {
        return out.emit_known(alloc, subject, predicate, &TermRef::Iri(text));
    }
    let object = iri(alloc, text)?;
    out.emit_known(alloc, subject, predicate, &TermRef::of(&object))
}

// What follows the namespace of entities in the text, where the text is an IRI as it stands.
#[tactic(auto, using(crate::proofs::Iris::entity_iri))]
fn name_in_iri(text: &str) -> Option<&str>
    ensures { IfSome result (λ name. iri_of text.now ≡ prefixed Prefix.Wd name.now) }
{
    match text.strip_prefix(Prefix::Wd.text()) {
        Some(name) if is_iri(name) => Some(name),
        _ => None,
    }
}

/// Hands on the triple with the term of an amount or of a bound of one.
pub(crate) fn emit_amount<S: TripleSink>(
    alloc: Global,
    subject: &Subject<'_>,
    predicate: &TermRef<'_>,
    text: &str,
    out: &mut S,
) -> Result<(), OutOfMemory>
    requires known { IsKnown S.items out.old subject.now }
    ensures gains { OnOk result (Gains S.items S.keeps out.old out.new
        (triple (meant subject.now.term) (meant predicate.now) (amount_term text.now) ∷ [])) }
    ensures front { KeepsFront S.items out.old out.new }
{
    if is_decimal(text) {
        let object = TermRef::Typed(text, Datatype::Decimal.text());
        return out.emit_known(alloc, subject, predicate, &object);
    }
    out.emit_known(alloc, subject, predicate, &TermRef::Plain(text))
}

/// Hands on the triple with the literal of a time.
pub(crate) fn emit_time<S: TripleSink>(
    alloc: Global,
    subject: &Subject<'_>,
    predicate: &TermRef<'_>,
    time: &TimeParts,
    out: &mut S,
) -> Result<(), OutOfMemory>
    requires known { IsKnown S.items out.old subject.now }
    ensures gains { OnOk result (Gains S.items S.keeps out.old out.new
        (triple (meant subject.now.term) (meant predicate.now) (time_term time.now) ∷ [])) }
    ensures front { KeepsFront S.items out.old out.new }
{
    let text = time_text(alloc, time)?;
    emit_time_text(alloc, subject, predicate, &text, out)
}

// The text of a time, and whether it is an `xsd:dateTime`.
fn time_text<'m>(alloc: Global, time: &'m TimeParts<'_>) -> Result<TimeText<'m>, OutOfMemory>
    ensures { IfOk result (λ text. text ≡ time_literal time.now.time time.now.precision (bytes_eq time.now.calendar julian_calendar)) }
{
    let julian = is_julian(time.calendar.as_str());
    time_literal(alloc, time.time.as_str(), time.precision, julian)
}

#[tactic(auto, unfolding(crate::specs::Terms::julian_calendar))]
fn is_julian(calendar: &str) -> bool
    ensures { result ≡ bytes_eq calendar.now julian_calendar }
{
    calendar == "http://www.wikidata.org/entity/Q1985786"
}

// Hands on the triple with the literal of a time's text.
fn emit_time_text<S: TripleSink>(
    alloc: Global,
    subject: &Subject<'_>,
    predicate: &TermRef<'_>,
    text: &TimeText<'_>,
    out: &mut S,
) -> Result<(), OutOfMemory>
    requires known { IsKnown S.items out.old subject.now }
    ensures gains { OnOk result (Gains S.items S.keeps out.old out.new
        (triple (meant subject.now.term) (meant predicate.now) (time_text_term text.now) ∷ [])) }
    ensures front { KeepsFront S.items out.old out.new }
{
    match text {
        TimeText::DateTime(text) => {
            let object = TermRef::Typed(text.as_str(), Datatype::DateTime.text());
            out.emit_known(alloc, subject, predicate, &object)
        }
        TimeText::Plain(text) => out.emit_known(
            alloc,
            subject,
            predicate,
            &TermRef::Plain(text.as_str()),
        ),
    }
}

// Hands on the triple with the literal of a point.
fn emit_globe<S: TripleSink>(
    alloc: Global,
    subject: &Subject<'_>,
    predicate: &TermRef<'_>,
    globe: &GlobeParts,
    out: &mut S,
) -> Result<(), OutOfMemory>
    requires known { IsKnown S.items out.old subject.now }
    ensures gains { OnOk result (Gains S.items S.keeps out.old out.new
        (triple (meant subject.now.term) (meant predicate.now) (globe_term globe.now) ∷ [])) }
    ensures front { KeepsFront S.items out.old out.new }
{
    let (latitude, longitude) = (globe.latitude.as_str(), globe.longitude.as_str());
    let text = point_text(alloc, latitude, longitude, globe.globe.as_str())?;
    let object = TermRef::Typed(text.as_str(), Datatype::WktLiteral.text());
    out.emit_known(alloc, subject, predicate, &object)
}
