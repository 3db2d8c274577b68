// The JSON value of each line, and its text.

ghost use Rattle.std.specs.Prelude.{◌≡◌, IfOk, OnOk, codes};
ghost use Rattle.serde_json.specs.{Data.no_members, Data.string, Data.put as with_member, View.view, View.members_view};
ghost use Rattle.entity_model.specs.EntityId.{id_text};
ghost use Rattle.snapshot.specs.Words.{mode_word, version_number};
ghost use Rattle.snapshot.specs.LineData.{has_line_feed, if_some, nat_data, int_data, event_data, event_members, held_data, held_members, head_members, record_members, told_members, entry_members, line_members, line_data};

use crate::line::{Head, Line};
use entity_model::{EntityId, Event, MappingVersion};
use entity_state::{Entry, Held, Mode, Record};
use rdf_term::{OutOfMemory, Text};
use replay_model::{cause_word, kind_word};
use serde_json::{Map, Value};
use std::alloc::Global;

/// The value of a line, but for a page that stands behind a record.
pub(crate) fn line_value(alloc: Global, line: &Line) -> Result<Value, OutOfMemory>
    ensures { IfOk result (λ v. view v ≡ line_data line.now) }
{
    let mut object = Map::new(alloc);
    put_line(alloc, line, &mut object)?;
    Ok(Value::Object(object))
}

// Puts the members of a line into an object that has none. The object is the caller's, so that a way out of here doesn't drop it.
fn put_line(alloc: Global, line: &Line, object: &mut Map<String, Value>) -> Result<(), OutOfMemory>
    requires { members_view object.old.entries ≡ no_members }
    ensures { OnOk result (members_view object.new.entries ≡ line_members line.now) }
{
    match line {
        Line::Head(head) => put_head(alloc, head, object),
        Line::Remembered(event) => put_event(alloc, event, object),
        Line::Entity(id, record) => put_record(alloc, *id, record, object),
        Line::Side(entry) => put_entry(alloc, entry, object),
        Line::End(lines) => put_number(alloc, "end", *lines, object),
    }
}

// Puts the members of the head.
fn put_head(alloc: Global, head: &Head, object: &mut Map<String, Value>) -> Result<(), OutOfMemory>
    requires { members_view object.old.entries ≡ no_members }
    ensures { OnOk result (members_view object.new.entries ≡ head_members head.now) }
{
    let counts = head.counts;
    let mapping = version_number(head.mapping);
    put_number(alloc, "asks", counts.asks, object)?;
    put_value(alloc, "horizon", nat_or_null(head.horizon), object)?;
    put_number(alloc, "lines", counts.lines, object)?;
    put_number(alloc, "mapping", mapping, object)?;
    put_value(alloc, "mark", int_or_null(head.mark), object)?;
    put_number(alloc, "matches", counts.matches, object)?;
    put_number(alloc, "patches", counts.patches, object)?;
    put_number(alloc, "snapshot", 3, object)
}

// Puts a member whose value is a number.
fn put_number(
    alloc: Global,
    key: &str,
    number: u64,
    object: &mut Map<String, Value>,
) -> Result<(), OutOfMemory>
    ensures { OnOk result (members_view object.new.entries ≡ with_member key.now (nat_data number) (members_view object.old.entries)) }
{
    put_value(alloc, key, Value::from(number), object)
}

// Puts a member.
fn put_value(
    alloc: Global,
    key: &str,
    value: Value,
    object: &mut Map<String, Value>,
) -> Result<(), OutOfMemory>
    ensures { OnOk result (members_view object.new.entries ≡ with_member key.now (view value) (members_view object.old.entries)) }
{
    Ok(serde_json::put(object, alloc, key, value)?)
}

// The value of a number, or null.
fn nat_or_null(number: Option<u64>) -> Value
    ensures { view result ≡ if_some nat_data number }
{
    match number {
        Some(n) => Value::from(n),
        None => Value::Null,
    }
}

// The value of a number with a sign, or null.
fn int_or_null(number: Option<i64>) -> Value
    ensures { view result ≡ if_some int_data number }
{
    match number {
        Some(n) => Value::from(n),
        None => Value::Null,
    }
}

// The number of a version of the mapping.
fn version_number(version: MappingVersion) -> u64
    ensures { result ≡ version_number version }
{
    match version {
        MappingVersion::One => 1,
        MappingVersion::Two => 2,
    }
}

// Puts the members of the record of an entity.
fn put_record(
    alloc: Global,
    id: EntityId,
    kept: &Record<Text>,
    object: &mut Map<String, Value>,
) -> Result<(), OutOfMemory>
    requires { members_view object.old.entries ≡ no_members }
    ensures { OnOk result (members_view object.new.entries ≡ record_members id kept.now) }
{
    put_id(alloc, id, object)?;
    let held = held_or_null(alloc, &kept.held)?;
    put_value(alloc, "held", held, object)?;
    let reconciled = event_or_null(alloc, kept.reconciled)?;
    put_value(alloc, "reconciled", reconciled, object)?;
    put_number(alloc, "rev", kept.state.rev, object)?;
    put_text(alloc, "state", mode_word(kept.state.mode), object)
}

// Puts the id of an entity.
fn put_id(alloc: Global, id: EntityId, object: &mut Map<String, Value>) -> Result<(), OutOfMemory>
    ensures { OnOk result (members_view object.new.entries ≡ with_member (codes "entity") (string (id_text id)) (members_view object.old.entries)) }
{
    let text = id.text(alloc)?.into_string();
    put_value(alloc, "entity", Value::from(text), object)
}

// Puts a member whose value is a text.
fn put_text(
    alloc: Global,
    key: &str,
    text: &str,
    object: &mut Map<String, Value>,
) -> Result<(), OutOfMemory>
    ensures { OnOk result (members_view object.new.entries ≡ with_member key.now (string text.now) (members_view object.old.entries)) }
{
    let text = Value::try_from_str(alloc, text)?;
    put_value(alloc, key, text, object)
}

// The value of what is held, or null.
fn held_or_null(alloc: Global, held: &Option<Held<Text>>) -> Result<Value, OutOfMemory>
    ensures { IfOk result (λ v. view v ≡ if_some held_data held.now) }
{
    match held {
        Some(held) => held_value(alloc, held),
        None => Ok(Value::Null),
    }
}

// The value of what is held.
fn held_value(alloc: Global, held: &Held<Text>) -> Result<Value, OutOfMemory>
    ensures { IfOk result (λ v. view v ≡ held_data held.now) }
{
    let mut object = Map::new(alloc);
    put_held(alloc, held, &mut object)?;
    Ok(Value::Object(object))
}

// Puts the members of what is held: its page is a string where it has a line feed, and else stands behind the record.
fn put_held(
    alloc: Global,
    held: &Held<Text>,
    object: &mut Map<String, Value>,
) -> Result<(), OutOfMemory>
    requires { members_view object.old.entries ≡ no_members }
    ensures { OnOk result (members_view object.new.entries ≡ held_members (has_line_feed held.now.content) held.now) }
{
    let page = held.content.as_str();
    if has_line_feed(page) {
        put_text(alloc, "page", page, object)?;
    }
    put_number(alloc, "rev", held.revision, object)
}

/// Whether a page has a line feed, so that it can't stand in a line as it is.
pub(crate) fn has_line_feed(page: &str) -> bool
    ensures { result ≡ has_line_feed page.now }
{
    page.as_bytes().contains(&b'\n')
}

// The value of an event, or null.
fn event_or_null(alloc: Global, event: Option<Event>) -> Result<Value, OutOfMemory>
    ensures { IfOk result (λ v. view v ≡ if_some event_data event) }
{
    match event {
        Some(event) => event_value(alloc, &event),
        None => Ok(Value::Null),
    }
}

// Puts the members of an entry of the side output.
fn put_entry(
    alloc: Global,
    entry: &Entry,
    object: &mut Map<String, Value>,
) -> Result<(), OutOfMemory>
    requires { members_view object.old.entries ≡ no_members }
    ensures { OnOk result (members_view object.new.entries ≡ entry_members entry.now) }
{
    match entry {
        Entry::Late(event) => put_told(alloc, "late", event, object),
        Entry::Revision(event, rev, cause) => {
            put_told(alloc, cause_word(*cause), event, object)?;
            put_number(alloc, "rev", *rev, object)
        }
    }
}

// Puts the word of an entry and its event.
fn put_told(
    alloc: Global,
    word: &str,
    event: &Event,
    object: &mut Map<String, Value>,
) -> Result<(), OutOfMemory>
    requires { members_view object.old.entries ≡ no_members }
    ensures { OnOk result (members_view object.new.entries ≡ told_members word.now event.now no_members) }
{
    put_text(alloc, "entry", word, object)?;
    let event = event_value(alloc, event)?;
    put_value(alloc, "event", event, object)
}

// The value of an event.
fn event_value(alloc: Global, event: &Event) -> Result<Value, OutOfMemory>
    ensures { IfOk result (λ v. view v ≡ event_data event.now) }
{
    let mut object = Map::new(alloc);
    put_event(alloc, event, &mut object)?;
    Ok(Value::Object(object))
}

// Puts the members of an event.
fn put_event(
    alloc: Global,
    event: &Event,
    object: &mut Map<String, Value>,
) -> Result<(), OutOfMemory>
    requires { members_view object.old.entries ≡ no_members }
    ensures { OnOk result (members_view object.new.entries ≡ event_members event.now) }
{
    put_id(alloc, event.entity, object)?;
    put_text(alloc, "kind", kind_word(event.kind), object)?;
    put_value(alloc, "micros", Value::from(event.time), object)?;
    put_number(alloc, "rev", event.rev, object)
}

// The word for whether a page is there.
#[tactic(auto, unfolding(crate::specs::Words::mode_word))]
fn mode_word(mode: Mode) -> &'static str
    ensures { result.now ≡ mode_word mode }
{
    match mode {
        Mode::Unknown => "unknown",
        Mode::Kept => "kept",
        Mode::Deleted => "deleted",
    }
}
