// A world is written as a snapshot, which is kept.

ghost use Rattle.std.specs.Prelude.{◌≡◌, ◌+◌, false, true, IfOk, flat_map, string_bytes};
ghost use Rattle.std.specs.Str.{IsUtf8};
ghost use Rattle.std.specs.FinMap as map;
ghost use Rattle.replay_model.specs.Records.{record_of};
ghost use Rattle.snapshot.specs.declared.line.Line.TheVariants.{Entity, Remembered, Side};
ghost use Rattle.snapshot.specs.{File.file_text, Whole.head_of};
ghost use Rattle.checkpoint.specs.{Archive.Keeps, Archive.Writes, Archive.archive, Saved.ended, Saved.saved_of};

use checkpoint::Snapshots;
use entity_model::{EntityId, Event};
use entity_state::{Entry, Held, Record};
use page_packing::Unpacker;
use rdf_term::{OutOfMemory, Text};
use snapshot::{Counts, Head, Line, documents_are_text, write};
use std::alloc::Global;
use std::str;
use text_output::Unwritten;
use world::World;

/// Keeps the snapshot of a world, after those that were kept before. The snapshot has only the version in force; so the world is read back
/// if every held page is mapped by this version, and no event is due.
///
/// # Errors
/// The snapshot can't be written or kept, or memory is refused. Then it isn't kept, what was written of it is discarded, and those that
/// were kept before stay as they were.
pub fn save<F: Snapshots>(
    alloc: Global,
    world: &World,
    counts: Counts,
    snapshots: &mut F,
) -> Result<(), Unwritten>
    ensures { Keeps (file_text (saved_of world.now counts)) (archive F.Snapshots snapshots.old) (archive F.Snapshots snapshots.new) result }
{
    match write_and_keep(alloc, world, counts, snapshots) {
        Ok(()) => Ok(()),
        Err(fault) => {
            snapshots.discard();
            Err(fault)
        }
    }
}

// Begins a snapshot, writes it whole, and keeps it.
fn write_and_keep<F: Snapshots>(
    alloc: Global,
    world: &World,
    counts: Counts,
    snapshots: &mut F,
) -> Result<(), Unwritten>
    ensures { Keeps (file_text (saved_of world.now counts)) (archive F.Snapshots snapshots.old) (archive F.Snapshots snapshots.new) result }
{
    snapshots.begin()?;
    write_lines(alloc, world, counts, snapshots)?;
    snapshots.keep()
}

// The events that a world remembers, and the entities that have a record, each in their order.
#[derive(Clone, Copy)]
struct SavedLists<'a> {
    events: &'a [Event],
    entities: &'a [EntityId],
}

// Writes a snapshot line by line.
fn write_lines<F: Snapshots>(
    alloc: Global,
    world: &World,
    counts: Counts,
    out: &mut F,
) -> Result<(), Unwritten>
    ensures { Writes (file_text (saved_of world.now counts)) (archive F.Snapshots out.old) (archive F.Snapshots out.new) result }
{
    let events = world.remembered()?;
    let Ok(entities) = world.entities() else {
        drop(events);
        return Err(Unwritten::OutOfMemory);
    };
    let lists = SavedLists {
        events: events.as_slice(),
        entities: entities.as_slice(),
    };
    let written = write_parts(alloc, world, counts, lists, out);
    drop(entities);
    drop(events);
    written
}

// Writes the head with the counts, the events that are remembered, the side output, the records with the pages that are held, and the number
// of lines.
fn write_parts<F: Snapshots>(
    alloc: Global,
    world: &World,
    counts: Counts,
    lists: SavedLists<'_>,
    out: &mut F,
) -> Result<(), Unwritten>
    requires events { lists.events.now ≡ world.now.replay.buffer.kept }
    requires entities { lists.entities.now ≡ map.keys world.now.replay.played.records }
    ensures { Writes (file_text (saved_of world.now counts)) (archive F.Snapshots out.old) (archive F.Snapshots out.new) result }
{
    let entries = world.entries();
    let lines = count_lines(lists.events.len(), entries.len(), lists.entities.len())?;
    write_line(alloc, Line::Head(head_of(world, counts)), out)?;
    write_events(alloc, lists.events, out)?;
    write_entries(alloc, entries, out)?;
    write_records(alloc, world, lists.entities, out)?;
    write_line(alloc, Line::End(lines), out)
}

// How many lines there are before the last; refused where 64 bits don't count them, which would be more than any memory has.
fn count_lines(events: usize, entries: usize, records: usize) -> Result<u64, OutOfMemory>
    ensures { IfOk result (λ lines. lines ≡ events + entries + records + 1) }
{
    let lines = (events as u64)
        .checked_add(entries as u64)
        .and_then(|sum| sum.checked_add(records as u64))
        .and_then(|sum| sum.checked_add(1));
    lines.ok_or(OutOfMemory)
}

// What the first line says.
fn head_of(world: &World, counts: Counts) -> Head
    ensures { result ≡ head_of (saved_of world.now counts) }
{
    Head {
        mark: world.mark(),
        horizon: world.horizon(),
        mapping: world.mapping(),
        counts,
    }
}

// Writes the line of each event.
fn write_events<F: Snapshots>(alloc: Global, events: &[Event], out: &mut F) -> Result<(), Unwritten>
    ensures { Writes (flat_map (λ e. ended (Remembered e)) events.now) (archive F.Snapshots out.old) (archive F.Snapshots out.new) result }
{
    for event in events {
        write_line(alloc, Line::Remembered(*event), out)?;
    }
    Ok(())
}

// Writes the line of each entry of the side output.
fn write_entries<F: Snapshots>(
    alloc: Global,
    entries: &[Entry],
    out: &mut F,
) -> Result<(), Unwritten>
    ensures { Writes (flat_map (λ e. ended (Side e)) entries.now) (archive F.Snapshots out.old) (archive F.Snapshots out.new) result }
{
    for entry in entries {
        write_line(alloc, Line::Side(*entry), out)?;
    }
    Ok(())
}

// Writes the line of the record of each of these entities.
fn write_records<F: Snapshots>(
    alloc: Global,
    world: &World,
    ids: &[EntityId],
    out: &mut F,
) -> Result<(), Unwritten>
    ensures { Writes (flat_map (λ x. ended (Entity x (record_of world.now.replay.played.records x))) ids.now)
        (archive F.Snapshots out.old) (archive F.Snapshots out.new) result }
{
    let mut page = Unpacker::new(alloc);
    let written = write_each(alloc, world, ids, &mut page, out);
    drop(page);
    written
}

// The same; the pages of a lean world are unpacked into the buffer, one after the other.
fn write_each<F: Snapshots>(
    alloc: Global,
    world: &World,
    ids: &[EntityId],
    page: &mut Unpacker,
    out: &mut F,
) -> Result<(), Unwritten>
    ensures { Writes (flat_map (λ x. ended (Entity x (record_of world.now.replay.played.records x))) ids.now)
        (archive F.Snapshots out.old) (archive F.Snapshots out.new) result }
{
    for id in ids {
        write_record(alloc, world, *id, page, out)?;
    }
    Ok(())
}

// Writes the line of the record of an entity. It has a copy of the page, which goes before the next one is made.
fn write_record<F: Snapshots>(
    alloc: Global,
    world: &World,
    id: EntityId,
    page: &mut Unpacker,
    out: &mut F,
) -> Result<(), Unwritten>
    ensures { Writes (ended (Entity id (record_of world.now.replay.played.records id))) (archive F.Snapshots out.old) (archive F.Snapshots out.new) result }
{
    let entity = record_of(alloc, world, id, page)?;
    write_line(alloc, Line::Entity(id, entity), out)
}

// The record of an entity, with a copy of the page that it holds.
fn record_of(
    alloc: Global,
    world: &World,
    id: EntityId,
    page: &mut Unpacker,
) -> Result<Record<Text>, OutOfMemory>
    ensures { IfOk result (λ entity. entity ≡ record_of world.now.replay.played.records id) }
{
    let held = if world.is_lean() {
        unpacked_page(alloc, world, id, page)?
    } else {
        held_page(alloc, world, id)?
    };
    Ok(Record {
        state: world.state(id),
        held,
        reconciled: world.reconciled(id),
    })
}

// A copy of the page that an entity of a lean world holds.
fn unpacked_page(
    alloc: Global,
    world: &World,
    id: EntityId,
    page: &mut Unpacker,
) -> Result<Option<Held<Text>>, OutOfMemory>
    requires { world.now.limit.lean ≡ true }
    ensures { IfOk result (λ held. held ≡ (record_of world.now.replay.played.records id).held) }
{
    documents_are_text();
    let Some(revision) = world.read_held(id, page)? else {
        return Ok(None);
    };
    let content = text_of(alloc, page.text())?;
    Ok(Some(Held { revision, content }))
}

// A copy of the page that an entity holds, unless the world is lean.
fn held_page(alloc: Global, world: &World, id: EntityId) -> Result<Option<Held<Text>>, OutOfMemory>
    requires { world.now.limit.lean ≡ false }
    ensures { IfOk result (λ held. held ≡ (record_of world.now.replay.played.records id).held) }
{
    documents_are_text();
    let Some((revision, bytes)) = world.held(id) else {
        return Ok(None);
    };
    let content = text_of(alloc, bytes)?;
    Ok(Some(Held { revision, content }))
}

// A copy of a text, which is UTF-8.
fn text_of(alloc: Global, bytes: &[u8]) -> Result<Text, OutOfMemory>
    requires { IsUtf8 bytes.now }
    ensures { IfOk result (λ text. text ≡ bytes.now) }
{
    let Ok(text) = str::from_utf8(bytes) else {
        unreachable!();
    };
    Text::new(alloc, text)
}

// Writes a line, and the line feed that ends it.
fn write_line<F: Snapshots>(alloc: Global, line: Line, out: &mut F) -> Result<(), Unwritten>
    ensures { Writes (ended line) (archive F.Snapshots out.old) (archive F.Snapshots out.new) result }
{
    let text = line_and_feed(alloc, &line);
    drop(line);
    let Ok(text) = text else {
        return Err(Unwritten::OutOfMemory);
    };
    let written = out.write(text.as_bytes());
    drop(text);
    written
}

// The text of a line with its line feed.
#[tactic(auto, unfolding(checkpoint::specs::Saved::ended))]
fn line_and_feed(alloc: Global, line: &Line) -> Result<String, OutOfMemory>
    ensures { IfOk result (λ text. string_bytes text ≡ ended line.now) }
{
    let mut text = write(alloc, line)?;
    text.push_str("\n")?;
    Ok(text)
}
