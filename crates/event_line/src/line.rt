// One line of an event file.

ghost use Rattle.std.specs.Prelude.{◌≡◌, ◌⊎◌, None, Some, MatchResult, IfOk, option_map};
ghost use Rattle.serde_json.specs.{Data.string, View.view};
ghost use Rattle.event_line.specs.Line.{Answers, AnswersPart, data_of, delivered, delivery_in, else_cause, event_in, watermark_in, ask_in, mapping_in, match_in, version_of, pattern_of, pattern_with, term_wanted_by, kind_named, kind_name, entity_of, rev_of, text_at, time_at, whole_kind};
ghost use Rattle.event_line.specs.declared.faults.DeliveryFault.TheVariants.{Bad as Refused, OutOfMemory as DeliveryOutOfMemory};
ghost use Rattle.event_line.specs.declared.faults.LineCause.TheVariants.{NotJson as NoJson};

use crate::faults::{DeliveryFault, LineCause};
use crate::plain::{AskTexts, ask_texts, plain_event, plain_watermark};
use crate::query::query;
use crate::term::term;
use crate::time;
use delivery::Delivery;
use entity_model::{EntityId, Event, Kind, MappingVersion};
use rdf_term::{OutOfMemory, Pattern, Term};
use serde_json::Value;
use std::alloc::Global;

/// What `kind` says of an event. Of a reconciliation, `mode` says the rest.
#[derive(Clone, Copy)]
pub(crate) enum KindName {
    Edit,
    Delete,
    Undelete,
    Reconcile,
}

/// Reads one line, without its line feed: a JSON object with exactly one of the keys `kind`, `watermark`,
/// `ask`, `mapping` and `match`.
///
/// With `kind` it is an event of the page of `entity`, at `time`, with the revision `rev`; a reconciliation
/// also has `mode`. With `watermark`, whose value is a time, it is a watermark. With `ask` it is a question:
/// the value is a list of three texts, for subject, predicate and object, each `?` where any term is wanted
/// or else the term that is wanted, by the grammar of N-Triples. With `mapping`, whose value is the number 1
/// or 2, it changes the version of the mapping. With `match` it is a question of several patterns: the value is
/// a list of one to eight lists of three texts, each a variable, which is `?` and 1 to 16 letters from a to z,
/// or else a term. Other keys are passed over, and of a key that is repeated the last value counts.
pub fn delivery(alloc: Global, line: &[u8]) -> Result<Delivery, DeliveryFault>
    ensures { Answers line.now result }
{
    if let Some(event) = plain_event(line) {
        return Ok(Delivery::Event(event));
    }
    if let Some(time) = plain_watermark(line) {
        return Ok(Delivery::Watermark(time));
    }
    if let Some(texts) = ask_texts(line) {
        return match pattern_with(alloc, texts) {
            Ok(pattern) => Ok(Delivery::Ask(pattern)),
            Err(fault) => Err(fault),
        };
    }
    let value = read_value(alloc, line)?;
    let delivered = delivery_in(alloc, &value);
    drop(value);
    delivered
}

/// The JSON value of a line.
fn read_value(alloc: Global, line: &[u8]) -> Result<Value, DeliveryFault>
    ensures { MatchResult result (λ value. data_of line.now ≡ Some (view value))
        (λ fault. (fault ≡ DeliveryOutOfMemory) ⊎ ((fault ≡ Refused NoJson) × (data_of line.now ≡ None))) }
{
    match Value::from_slice(alloc, line) {
        Ok(value) => Ok(value),
        Err(error) => {
            if error.is_memory() {
                Err(DeliveryFault::OutOfMemory)
            } else {
                Err(DeliveryFault::Bad(LineCause::NotJson))
            }
        }
    }
}

/// What the value of a line delivers.
fn delivery_in(alloc: Global, value: &Value) -> Result<Delivery, DeliveryFault>
    ensures { AnswersPart (delivery_in (view value.now)) result }
{
    match (
        value.get("kind"),
        value.get("watermark"),
        value.get("ask"),
        value.get("mapping"),
        value.get("match"),
    ) {
        (Some(_), None, None, None, None) => event_delivery(value),
        (None, Some(_), None, None, None) => watermark(value),
        (None, None, Some(wanted), None, None) => ask(alloc, wanted),
        (None, None, None, Some(number), None) => mapping(number),
        (None, None, None, None, Some(shapes)) => matching(alloc, shapes),
        _ => Err(DeliveryFault::Bad(LineCause::NoForm)),
    }
}

/// The event that an object with `kind` is, delivered.
fn event_delivery(object: &Value) -> Result<Delivery, DeliveryFault>
    ensures { AnswersPart (delivered (event_in (view object.now))) result }
{
    match event(object) {
        Ok(event) => Ok(Delivery::Event(event)),
        Err(cause) => Err(DeliveryFault::Bad(cause)),
    }
}

/// The event that an object with `kind` is.
fn event(object: &Value) -> Result<Event, LineCause>
    ensures { result ≡ event_in (view object.now) }
{
    let Some(name) = kind_name(object) else {
        return Err(LineCause::Kind);
    };
    let Some(entity) = entity(object) else {
        return Err(LineCause::Entity);
    };
    let Some(rev) = rev(object) else {
        return Err(LineCause::Rev);
    };
    let Some(time) = time_at(object, "time") else {
        return Err(LineCause::Time);
    };
    let Some(kind) = whole_kind(name, object) else {
        return Err(LineCause::Mode);
    };
    Ok(Event {
        entity,
        time,
        rev,
        kind,
    })
}

/// The watermark that an object with `watermark` is.
fn watermark(object: &Value) -> Result<Delivery, DeliveryFault>
    ensures { AnswersPart (watermark_in (view object.now)) result }
{
    match time_at(object, "watermark") {
        Some(time) => Ok(Delivery::Watermark(time)),
        None => Err(DeliveryFault::Bad(LineCause::Time)),
    }
}

/// The question with that value of `ask`.
fn ask(alloc: Global, value: &Value) -> Result<Delivery, DeliveryFault>
    ensures { AnswersPart (ask_in (view value.now)) result }
{
    match pattern(alloc, value) {
        Ok(pattern) => Ok(Delivery::Ask(pattern)),
        Err(fault) => Err(fault),
    }
}

/// The change to the version with that value of `mapping`.
fn mapping(value: &Value) -> Result<Delivery, DeliveryFault>
    ensures { AnswersPart (mapping_in (view value.now)) result }
{
    match version(value) {
        Some(version) => Ok(Delivery::Mapping(version)),
        None => Err(DeliveryFault::Bad(LineCause::Mapping)),
    }
}

/// The question with that value of `match`.
fn matching(alloc: Global, value: &Value) -> Result<Delivery, DeliveryFault>
    ensures { AnswersPart (match_in (view value.now)) result }
{
    match query(alloc, value) {
        Ok(query) => Ok(Delivery::Match(query)),
        Err(fault) => Err(fault),
    }
}

/// The version whose number a value is, in digits alone.
fn version(value: &Value) -> Option<MappingVersion>
    ensures { result ≡ version_of (view value.now) }
{
    match value.as_u64()? {
        1 => Some(MappingVersion::One),
        2 => Some(MappingVersion::Two),
        _ => None,
    }
}

/// The pattern that a value is: a list of exactly three values.
fn pattern(alloc: Global, value: &Value) -> Result<Pattern, DeliveryFault>
    ensures { AnswersPart (else_cause LineCause.Pattern (pattern_of (view value.now)) Ok) result }
{
    match value.as_array().ok_or(LineCause::Pattern)?.as_slice() {
        [subject, predicate, object] => pattern_in(alloc, subject, predicate, object),
        _ => Err(DeliveryFault::Bad(LineCause::Pattern)),
    }
}

/// The pattern of three values, of which each is a text.
#[tactic(auto, using(crate::proofs::Places::no_subject, crate::proofs::Places::no_predicate, crate::proofs::Places::no_object))]
fn pattern_in(
    alloc: Global,
    subject: &Value,
    predicate: &Value,
    object: &Value,
) -> Result<Pattern, DeliveryFault>
    ensures { AnswersPart (else_cause LineCause.Pattern
        (pattern_with (view subject.now) (view predicate.now) (view object.now)) Ok) result }
{
    match (subject.as_str(), predicate.as_str(), object.as_str()) {
        (Some(subject), Some(predicate), Some(object)) => pattern_with(
            alloc,
            AskTexts {
                subject,
                predicate,
                object,
            },
        ),
        _ => Err(DeliveryFault::Bad(LineCause::Pattern)),
    }
}

/// The pattern of three texts.
fn pattern_with(alloc: Global, texts: AskTexts<'_>) -> Result<Pattern, DeliveryFault>
    ensures { AnswersPart (else_cause LineCause.Pattern
        (pattern_with (string texts.entry.subject.now) (string texts.entry.predicate.now) (string texts.entry.object.now)) Ok) result }
{
    let subject = wanted_term(alloc, texts.subject)?;
    let predicate = match wanted_term(alloc, texts.predicate) {
        Ok(predicate) => predicate,
        Err(fault) => {
            drop(subject);
            return Err(fault);
        }
    };
    let object = match wanted_term(alloc, texts.object) {
        Ok(object) => object,
        Err(fault) => {
            drop(subject);
            drop(predicate);
            return Err(fault);
        }
    };
    Ok(Pattern {
        subject,
        predicate,
        object,
    })
}

/// What a text wants at its place.
fn wanted_term(alloc: Global, text: &str) -> Result<Option<Term>, DeliveryFault>
    ensures { AnswersPart (else_cause LineCause.Pattern (term_wanted_by text.now) Ok) result }
{
    match text {
        "?" => Ok(None),
        text => match term(alloc, text) {
            Ok(Some(term)) => Ok(Some(term)),
            Ok(None) => Err(DeliveryFault::Bad(LineCause::Pattern)),
            Err(OutOfMemory) => Err(DeliveryFault::OutOfMemory),
        },
    }
}

fn kind_name(object: &Value) -> Option<KindName>
    ensures { result ≡ kind_name (view object.now) }
{
    kind_named(text_at(object, "kind")?)
}

/// The text that is the value of a key.
fn text_at<'a>(object: &'a Value, key: &str) -> Option<&'a str>
    ensures { option_map (λ text. text.now) result ≡ text_at key.now (view object.now) }
{
    object.get(key)?.as_str()
}

pub(crate) fn kind_named(text: &str) -> Option<KindName>
    ensures { result ≡ kind_named text.now }
{
    match text {
        "edit" => Some(KindName::Edit),
        "delete" => Some(KindName::Delete),
        "undelete" => Some(KindName::Undelete),
        "reconcile" => Some(KindName::Reconcile),
        _ => None,
    }
}

fn entity(object: &Value) -> Option<EntityId>
    ensures { result ≡ entity_of (view object.now) }
{
    EntityId::read(text_at(object, "entity")?)
}

fn rev(object: &Value) -> Option<u64>
    ensures { result ≡ rev_of (view object.now) }
{
    match object.get("rev")?.as_u64()? {
        0 => None,
        rev => Some(rev),
    }
}

/// The time that is the value of a key.
fn time_at(object: &Value, key: &str) -> Option<i64>
    ensures { result ≡ time_at key.now (view object.now) }
{
    time::microseconds(text_at(object, key)?.as_bytes())
}

/// The kind of an event with that name; of a reconciliation, by its mode.
fn whole_kind(name: KindName, object: &Value) -> Option<Kind>
    ensures { result ≡ whole_kind (view object.now) name }
{
    match name {
        KindName::Edit => Some(Kind::Edit),
        KindName::Delete => Some(Kind::Delete),
        KindName::Undelete => Some(Kind::Undelete),
        KindName::Reconcile => match text_at(object, "mode")? {
            "kept" => Some(Kind::ReconcileKept),
            "deleted" => Some(Kind::ReconcileDeleted),
            _ => None,
        },
    }
}
