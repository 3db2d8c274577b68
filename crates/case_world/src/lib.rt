//! What a case sees of a world, in lines: its entities, its side output, and how many entities own a triple.
//!
//! No public function here has a contract: all only serve the gate.
#![tactic(auto)]

ghost use Rattle.std.specs.Prelude.{◌≡◌, false};

use anyhow::{Context, Result, bail};
use entity_model::{EntityId, Event, Kind, Unfit};
use entity_state::{Cause, Entry, Mode, State};
use page_packing::Unpacker;
use rdf_term::{OutOfMemory, Pattern, Term, Triple, TripleSet};
use std::alloc::{AllocError, Global};
use std::str;
use term_reading::read_term;
use world::World;

/// The entities with what the events say of them and what is held, a line each.
///
/// # Errors
/// Memory was refused.
pub fn records(alloc: Global, world: &World) -> Result<String> {
    let mut lines = String::new(alloc);
    push_records(alloc, world, &mut lines)?;
    Ok(lines)
}

// Appends a line for each entity.
fn push_records(alloc: Global, world: &World, lines: &mut String) -> Result<(), OutOfMemory> {
    let ids = world.entities()?;
    let mut page = Unpacker::new(alloc);
    for id in ids.as_slice() {
        push_record(alloc, world, *id, &mut page, lines)?;
    }
    Ok(())
}

// Appends the line of an entity. The page that it holds may be unpacked into a buffer.
fn push_record(
    alloc: Global,
    world: &World,
    id: EntityId,
    page: &mut Unpacker,
    lines: &mut String,
) -> Result<(), OutOfMemory> {
    let held = held_revision(world, id, page)?;
    let name = id.text(alloc)?;
    let written = write_record(world.state(id), held, name.as_str(), lines);
    Ok(written?)
}

// The revision that an entity holds, if it holds one. In a lean world its page is unpacked into a buffer.
fn held_revision(
    world: &World,
    id: EntityId,
    page: &mut Unpacker,
) -> Result<Option<u64>, OutOfMemory> {
    if world.is_lean() {
        return world.read_held(id, page);
    }
    match world.held(id) {
        Some((revision, _)) => Ok(Some(revision)),
        None => Ok(None),
    }
}

// Writes the line of an entity with this name, which is in this state and may hold a revision.
fn write_record(
    state: State,
    held: Option<u64>,
    name: &str,
    lines: &mut String,
) -> Result<(), AllocError> {
    let mode = match state.mode {
        Mode::Unknown => "unknown",
        Mode::Kept => "kept",
        Mode::Deleted => "deleted",
    };
    let rev = state.rev;
    match held {
        Some(held) => write!(lines, "{name} {mode} {rev}, holds {held}\n"),
        None => write!(lines, "{name} {mode} {rev}, holds nothing\n"),
    }
}

/// The entries of the side output, as the program prints them.
///
/// # Errors
/// Memory was refused.
pub fn side(alloc: Global, world: &World) -> Result<String> {
    let mut lines = String::new(alloc);
    push_side(alloc, world, &mut lines)?;
    Ok(lines)
}

// Appends a line for each entry of the side output.
fn push_side(alloc: Global, world: &World, lines: &mut String) -> Result<(), OutOfMemory> {
    for index in 0..world.side_len() {
        let stands = if world.side_open(index) {
            "open"
        } else {
            "closed"
        };
        if let Some(entry) = world.side(index) {
            push_entry(alloc, entry, stands, lines)?;
        }
    }
    Ok(())
}

// Appends the line of an entry.
fn push_entry(
    alloc: Global,
    entry: &Entry,
    stands: &str,
    lines: &mut String,
) -> Result<(), OutOfMemory> {
    match entry {
        Entry::Late(event) => push_late(alloc, event, stands, lines),
        Entry::Revision(event, rev, cause) => {
            let id = event.entity.text(alloc)?;
            let written = write_vain(id.as_str(), *rev, *cause, stands, lines);
            Ok(written?)
        }
    }
}

// Writes the line of a fetch in vain.
fn write_vain(
    id: &str,
    rev: u64,
    cause: Cause,
    stands: &str,
    lines: &mut String,
) -> Result<(), AllocError> {
    let cause = cause_word(cause);
    write!(lines, "# side {cause} {stands} {id} {rev}\n")
}

// Appends the line of a late event.
fn push_late(
    alloc: Global,
    event: &Event,
    stands: &str,
    lines: &mut String,
) -> Result<(), OutOfMemory> {
    let id = event.entity.text(alloc)?;
    let written = write_late(event, id.as_str(), stands, lines);
    Ok(written?)
}

// Writes the line of a late event of the entity with this name.
fn write_late(event: &Event, id: &str, stands: &str, lines: &mut String) -> Result<(), AllocError> {
    let kind = match event.kind {
        Kind::Edit => "edit",
        Kind::Delete => "delete",
        Kind::Undelete => "undelete",
        Kind::ReconcileDeleted => "reconcile-deleted",
        Kind::ReconcileKept => "reconcile-kept",
    };
    let rev = event.rev;
    let time = event.time;
    write!(lines, "# side late {stands} {id} {kind} {rev} {time}\n")
}

// The word for a cause.
fn cause_word(cause: Cause) -> &'static str {
    match cause {
        Cause::Missing => "missing",
        Cause::Failed => "failed",
        Cause::Unfit(Unfit::Large) => "unfit-large",
        Cause::Unfit(Unfit::Deep) => "unfit-deep",
        Cause::Unfit(Unfit::NotJson) => "unfit-notjson",
        Cause::Unfit(Unfit::Shape) => "unfit-shape",
        Cause::Unfit(Unfit::Foreign) => "unfit-foreign",
    }
}

/// Lines like those given, a number and a triple each, with the number of entities that hold the triple. Of a lean world it says nothing.
///
/// # Errors
/// A line can't be read, memory was refused, or the sets of stored triples disagree with the owners.
pub fn owners(alloc: Global, world: &World, given: &[u8]) -> Result<String> {
    let mut lines = String::new(alloc);
    if !world.is_lean() {
        push_all_owners(alloc, world, str::from_utf8(given)?, &mut lines)?;
    }
    Ok(lines)
}

// Appends a line like each of these, with the number of entities that hold its triple.
fn push_all_owners(alloc: Global, world: &World, given: &str, lines: &mut String) -> Result<()>
    requires { world.now.limit.lean ≡ false }
{
    for line in given.lines() {
        push_owners(alloc, world, line, lines)?;
    }
    Ok(())
}

// Appends a line like this one, with the number of entities that hold its triple.
fn push_owners(alloc: Global, world: &World, line: &str, lines: &mut String) -> Result<()>
    requires { world.now.limit.lean ≡ false }
{
    let (_, triple_text) = line.split_once(' ').context("a number and a triple")?;
    let count = owners_of(alloc, world, triple_text)?;
    Ok(write!(lines, "{count} {triple_text}\n")?)
}

// How many entities hold the triple with this text.
fn owners_of(alloc: Global, world: &World, text: &str) -> Result<u64>
    requires { world.now.limit.lean ≡ false }
{
    let Some(triple) = triple_in(alloc, text) else {
        bail!("no triple, or no memory: {text}");
    };
    let count = agreed_owners(alloc, world, &triple, text);
    drop(triple);
    count
}

// How many entities hold a triple. What is stored has to agree, and so has what each entity holds.
fn agreed_owners(alloc: Global, world: &World, triple: &Triple, text: &str) -> Result<u64>
    requires { world.now.limit.lean ≡ false }
{
    let count = world.owners(triple);
    let stored = is_stored(alloc, world, triple).context(format_args!("{text}"))?;
    if stored != (count > 0) {
        bail!("what is stored doesn't agree with the owners of {text}");
    }
    if holders(world, triple).context("out of memory")? != count {
        bail!("what the entities hold doesn't agree with the owners of {text}");
    }
    Ok(count)
}

// How many entities have the triple in the set of what they hold; None where memory is refused.
fn holders(world: &World, triple: &Triple) -> Option<u64>
    requires { world.now.limit.lean ≡ false }
{
    let ids = world.entities().ok()?;
    let mut count: u64 = 0;
    for id in ids.as_slice() {
        if is_held(world, *id, triple)? {
            count = count.saturating_add(1);
        }
    }
    Some(count)
}

// Whether an entity has the triple in the set of what it holds; None where memory is refused.
fn is_held(world: &World, id: EntityId, triple: &Triple) -> Option<bool>
    requires { world.now.limit.lean ≡ false }
{
    let set = world.set_of(id).ok()?;
    Some(set.contains(triple))
}

// Whether the triple is in both sets: of all that is stored, and of what agrees with its object.
fn is_stored(alloc: Global, world: &World, triple: &Triple) -> Result<bool>
    requires { world.now.limit.lean ≡ false }
{
    let all = is_exported(world, triple).context("out of memory")?;
    let found = is_found(alloc, world, triple).context("out of memory")?;
    if all != found {
        bail!("a triple is in one of two sets alone");
    }
    Ok(all)
}

// Whether the triple is in the set of all that is stored; None where memory is refused.
fn is_exported(world: &World, triple: &Triple) -> Option<bool>
    requires { world.now.limit.lean ≡ false }
{
    let all = world.export().ok()?;
    Some(all.contains(triple))
}

// Whether the triple is in the set of what agrees with its object; None where memory is refused.
fn is_found(alloc: Global, world: &World, triple: &Triple) -> Option<bool>
    requires { world.now.limit.lean ≡ false }
{
    let object = triple.object.copy(alloc).ok()?;
    let found = found_by_object(world, object)?;
    Some(found.contains(triple))
}

// The set of what agrees with an object; None where memory is refused.
fn found_by_object(world: &World, object: Term) -> Option<TripleSet>
    requires { world.now.limit.lean ≡ false }
{
    let pattern = Pattern {
        subject: None,
        predicate: None,
        object: Some(object),
    };
    let found = world.matches(&pattern);
    drop(pattern);
    found.ok()
}

// The triple of a line of N-Triples; None too where memory is refused.
fn triple_in(alloc: Global, line: &str) -> Option<Triple> {
    let line = line.strip_suffix(" .")?;
    let (subject, rest) = line.split_once(' ')?;
    let (predicate, object) = rest.split_once(' ')?;
    triple_of(alloc, subject, predicate, object)
}

// The triple of three texts; None too where memory is refused.
fn triple_of(alloc: Global, subject: &str, predicate: &str, object: &str) -> Option<Triple> {
    let subject = term_in(alloc, subject)?;
    let Some((predicate, object)) = terms_in(alloc, predicate, object) else {
        drop(subject);
        return None;
    };
    Some(Triple {
        subject,
        predicate,
        object,
    })
}

// The terms of two texts; None too where memory is refused.
fn terms_in(alloc: Global, first: &str, second: &str) -> Option<(Term, Term)> {
    let first = term_in(alloc, first)?;
    let Some(second) = term_in(alloc, second) else {
        drop(first);
        return None;
    };
    Some((first, second))
}

// The term of a text; None too where memory is refused.
fn term_in(alloc: Global, text: &str) -> Option<Term> {
    read_term(alloc, text).unwrap_or(None)
}
