// Which line of a snapshot a JSON value is, where a page may stand behind it.

ghost use Rattle.std.specs.Prelude.{◌≡◌, IfOk, codes, option_and_then, option_map};
ghost use Rattle.serde_json.specs.{View.view, Find.as_str, Find.get};
ghost use Rattle.snapshot.specs.Words.{kind_named};
ghost use Rattle.snapshot.specs.LineReading.{nat_in, id_in, if_there, or_null, at_key, event_in, page_in, held_in, held_or_null, state_in, record_in, revision_in, entry_in, entity_in, side_in, line_in};

use crate::head_reading::head;
use crate::line::Line;
use crate::words::{cause_named, kind_named, mode_named};
use entity_model::{EntityId, Event, Kind};
use entity_state::{Entry, Held, Record, State};
use rdf_term::{OutOfMemory, Text};
use serde_json::Value;
use std::alloc::Global;

/// The line that a value is, with the page that stands behind it, if one does.
pub(crate) fn line_in(
    alloc: Global,
    value: &Value,
    behind: Option<&str>,
) -> Result<Option<Line>, OutOfMemory>
    ensures { IfOk result (λ line. line ≡ line_in (option_map (λ s. s.now) behind.entry) (view value.now)) }
{
    match (
        behind,
        value.get("snapshot"),
        value.get("kind"),
        value.get("state"),
        value.get("entry"),
        value.get("end"),
    ) {
        (_, None, None, Some(word), None, None) => entity(alloc, value, word, behind),
        (None, Some(format), None, None, None, None) => Ok(head(value, format).map(Line::Head)),
        (None, None, Some(_), None, None, None) => Ok(event(value).map(Line::Remembered)),
        (None, None, None, None, Some(word), None) => Ok(side(value, word)),
        (None, None, None, None, None, Some(lines)) => Ok(lines.as_u64().map(Line::End)),
        _ => Ok(None),
    }
}

// The number at a key.
pub(crate) fn number_at(object: &Value, key: &str) -> Option<u64>
    ensures { result ≡ at_key nat_in key.now (view object.now) }
{
    object.get(key)?.as_u64()
}

// What was read of a value, or nothing where the value is null.
pub(crate) fn or_null<T: Copy>(value: &Value, read: Option<T>) -> Option<Option<T>>
    ensures { result ≡ or_null read (view value.now) }
{
    if value.is_null() {
        Some(None)
    } else {
        Some(Some(read?))
    }
}

// The event that an object is.
fn event(object: &Value) -> Option<Event>
    ensures { result ≡ event_in (view object.now) }
{
    let entity = entity_id(object)?;
    let kind = kind(object)?;
    let time = object.get("micros")?.as_i64()?;
    let rev = number_at(object, "rev")?;
    Some(Event {
        entity,
        time,
        rev,
        kind,
    })
}

// The kind at the key `kind`.
fn kind(object: &Value) -> Option<Kind>
    ensures { result ≡ option_and_then kind_named (at_key as_str (codes "kind") (view object.now)) }
{
    kind_named(object.get("kind")?.as_str()?)
}

// The id of an entity, by its text.
fn id(value: &Value) -> Option<EntityId>
    ensures { result ≡ id_in (view value.now) }
{
    EntityId::read(value.as_str()?)
}

// The line of a record: the entity and what is kept of it.
fn entity(
    alloc: Global,
    object: &Value,
    word: &Value,
    behind: Option<&str>,
) -> Result<Option<Line>, OutOfMemory>
    ensures { IfOk result (λ line. line ≡ entity_in (option_map (λ s. s.now) behind.entry) (view object.now) (view word.now)) }
{
    let Some(id) = entity_id(object) else {
        return Ok(None);
    };
    match record(alloc, object, word, behind)? {
        Some(record) => Ok(Some(Line::Entity(id, record))),
        None => Ok(None),
    }
}

// The id at the key `entity`.
fn entity_id(object: &Value) -> Option<EntityId>
    ensures { result ≡ at_key id_in (codes "entity") (view object.now) }
{
    id(object.get("entity")?)
}

// What is kept of an entity, whose state has that word.
fn record(
    alloc: Global,
    object: &Value,
    word: &Value,
    behind: Option<&str>,
) -> Result<Option<Record<Text>>, OutOfMemory>
    ensures { IfOk result (λ r. r ≡ record_in (option_map (λ s. s.now) behind.entry) (view object.now) (view word.now)) }
{
    let Some(state) = state(object, word) else {
        return Ok(None);
    };
    let Some(reconciled) = reconciled(object) else {
        return Ok(None);
    };
    match held_at(alloc, object, behind)? {
        Some(held) => Ok(Some(Record {
            state,
            held,
            reconciled,
        })),
        None => Ok(None),
    }
}

// The state with that word, and its revision.
fn state(object: &Value, word: &Value) -> Option<State>
    ensures { result ≡ state_in (view object.now) (view word.now) }
{
    let mode = mode_named(word.as_str()?)?;
    let rev = number_at(object, "rev")?;
    Some(State { mode, rev })
}

// The last reconciliation, or none where it is null.
fn reconciled(object: &Value) -> Option<Option<Event>>
    ensures { result ≡ at_key (if_there event_in) (codes "reconciled") (view object.now) }
{
    let value = object.get("reconciled")?;
    or_null(value, event(value))
}

// What is held, by the value of the key `held`.
fn held_at(
    alloc: Global,
    object: &Value,
    behind: Option<&str>,
) -> Result<Option<Option<Held<Text>>>, OutOfMemory>
    ensures { IfOk result (λ held. held ≡ at_key (held_or_null (option_map (λ s. s.now) behind.entry)) (codes "held") (view object.now)) }
{
    match object.get("held") {
        Some(value) => held_or_null(alloc, value, behind),
        None => Ok(None),
    }
}

// What is held, or nothing where null says so and no page stands behind.
fn held_or_null(
    alloc: Global,
    value: &Value,
    behind: Option<&str>,
) -> Result<Option<Option<Held<Text>>>, OutOfMemory>
    ensures { IfOk result (λ held. held ≡ held_or_null (option_map (λ s. s.now) behind.entry) (view value.now)) }
{
    if behind.is_none() && value.is_null() {
        return Ok(Some(None));
    }
    match held(alloc, value, behind)? {
        Some(held) => Ok(Some(Some(held))),
        None => Ok(None),
    }
}

// What an object says that is held: a revision, and its page.
fn held(
    alloc: Global,
    object: &Value,
    behind: Option<&str>,
) -> Result<Option<Held<Text>>, OutOfMemory>
    ensures { IfOk result (λ held. held ≡ held_in (option_map (λ s. s.now) behind.entry) (view object.now)) }
{
    match (revision(object), page(object, behind)) {
        (Some(revision), Some(page)) => Ok(Some(Held {
            revision,
            content: Text::new(alloc, page)?,
        })),
        _ => Ok(None),
    }
}

// The revision of a page.
fn revision(object: &Value) -> Option<u64>
    ensures { result ≡ at_key nat_in (codes "rev") (view object.now) }
{
    object.get("rev")?.as_u64()
}

// The text of a page: the object's own, or the one behind where it has none.
fn page<'a>(object: &'a Value, behind: Option<&'a str>) -> Option<&'a str>
    ensures { option_map (λ s. s.now) result ≡ page_in (option_map (λ s. s.now) behind.entry) (get (codes "page") (view object.now)) }
{
    match (behind, object.get("page")) {
        (None, Some(own)) => own.as_str(),
        (Some(page), None) => Some(page),
        _ => None,
    }
}

// The line of an entry of the side output.
fn side(object: &Value, word: &Value) -> Option<Line>
    ensures { result ≡ side_in (view object.now) (view word.now) }
{
    let entry = entry(object, word.as_str()?)?;
    Some(Line::Side(entry))
}

// The entry with that word.
fn entry(object: &Value, word: &str) -> Option<Entry>
    ensures { result ≡ entry_in (view object.now) word.now }
{
    match word {
        "late" => Some(Entry::Late(event(object.get("event")?)?)),
        _ => revision_entry(object, word),
    }
}

// The entry of a revision that was fetched in vain, by the word of its cause.
fn revision_entry(object: &Value, word: &str) -> Option<Entry>
    ensures { result ≡ revision_in (view object.now) word.now }
{
    let cause = cause_named(word)?;
    let event = event(object.get("event")?)?;
    let rev = number_at(object, "rev")?;
    Some(Entry::Revision(event, rev, cause))
}
