// What is told of a drill.

ghost use Rattle.std.specs.Prelude.{◌≡◌, ◌++◌, ◌∷◌, [], false, IfOk, OnOk, map, string_bytes};
ghost use Rattle.replay_model.specs.Union.{union};
ghost use Rattle.rdf_term.specs.Order.{triple_cmp};
ghost use Rattle.entity_model.specs.declared.mapping.MappingVersion.TheVariants.{One};
ghost use Rattle.fetched_pages.specs.Meaning.{meaning};
ghost use Rattle.md5.specs.Md5.{md5};
ghost use Rattle.drill_replay.specs.Drill.{drill};
ghost use Rattle.drill_replay.specs.Playing.{Counted, IsByFirst};
ghost use Rattle.drill_replay.specs.Summary.{digest_line, drilled, kept_in, summary_lines, number_line, summary_of, triple_lines};

use crate::counts::DrillCounts;
use entity_state::Mode;
use md5::{Digest, Md5};
use rdf_term::OutOfMemory;
use std::alloc::Global;
use triple_store::Rows;
use world::World;

/// What is told of a drill: its size, its deliveries, how many distinct events were accepted and were late, how many
/// entities' pages are kept and how many triples there are at its end, and the MD5 (RFC 1321) of the lines of these triples.
#[derive(Clone, Copy, PartialEq, Eq)]
pub struct Summary {
    pub size: u32,
    pub deliveries: u64,
    pub accepted: u64,
    pub late: u64,
    pub kept: u64,
    pub triples: usize,
    pub digest: [u8; 16],
}

/// What is told of a drill whose deliveries were counted so, by the world at its end, all of which is mapped by the first version. The world isn't
/// lean.
pub fn summarize(
    alloc: Global,
    size: u32,
    counts: DrillCounts,
    world: &World,
) -> Result<Summary, OutOfMemory>
    requires counted { Counted (drill size) counts }
    requires world { world.now.replay ≡ drilled size }
    requires first { IsByFirst world.now }
    requires whole { world.now.limit.lean ≡ false }
    ensures { IfOk result (λ summary. summary ≡ summary_of size) }
{
    let kept = kept(world)?;
    let rows = rows(world)?;
    let triples = rows.len();
    let digest = digest(alloc, &rows);
    drop(rows);
    Ok(Summary {
        size,
        deliveries: counts.deliveries,
        accepted: counts.accepted,
        late: counts.late,
        kept,
        triples,
        digest: digest?,
    })
}

/// The seven lines of a summary, each with its line feed.
pub fn summary_lines(alloc: Global, summary: &Summary) -> Result<Vec<String>, OutOfMemory>
    ensures { IfOk result (λ lines. map (λ line. string_bytes line) lines.items ≡ summary_lines summary.now) }
{
    let mut lines = Vec::new(alloc);
    match push_lines(alloc, summary, &mut lines) {
        Ok(()) => Ok(lines),
        Err(refused) => {
            drop(lines);
            Err(refused)
        }
    }
}

// Appends the seven lines. The list is the caller's, so that a way out of here doesn't drop it.
fn push_lines(alloc: Global, summary: &Summary, lines: &mut Vec<String>) -> Result<(), OutOfMemory>
    ensures { OnOk result (map (λ line. string_bytes line) lines.new.items ≡ map (λ line. string_bytes line) lines.old.items ++ summary_lines summary.now) }
{
    push_number(alloc, "drill", u64::from(summary.size), lines)?;
    push_number(alloc, "deliveries", summary.deliveries, lines)?;
    push_number(alloc, "accepted", summary.accepted, lines)?;
    push_number(alloc, "late", summary.late, lines)?;
    push_number(alloc, "kept", summary.kept, lines)?;
    push_number(alloc, "triples", summary.triples as u64, lines)?;
    push_digest(alloc, &summary.digest, lines)
}

// Appends the line of a number under a word.
fn push_number(
    alloc: Global,
    word: &str,
    number: u64,
    lines: &mut Vec<String>,
) -> Result<(), OutOfMemory>
    ensures { OnOk result (map (λ line. string_bytes line) lines.new.items ≡ map (λ line. string_bytes line) lines.old.items ++ number_line word.now number ∷ []) }
{
    Ok(lines.push(number_line(alloc, word, number)?)?)
}

// Appends the line of the MD5.
fn push_digest(alloc: Global, digest: &[u8; 16], lines: &mut Vec<String>) -> Result<(), OutOfMemory>
    ensures { OnOk result (map (λ line. string_bytes line) lines.new.items ≡ map (λ line. string_bytes line) lines.old.items ++ digest_line digest.now ∷ []) }
{
    Ok(lines.push(digest_line(alloc, digest)?)?)
}

// The triples of all that is held, by version One of the mapping.
fn rows(world: &World) -> Result<Rows<'_>, OutOfMemory>
    requires first { IsByFirst world.now }
    requires whole { world.now.limit.lean ≡ false }
    ensures { IfOk result (λ rows. rows ≡ union triple_cmp (meaning One) world.now.replay.played.records) }
{
    world.rows()
}

// How many entities' pages are kept.
fn kept(world: &World) -> Result<u64, OutOfMemory>
    ensures { IfOk result (λ count. count ≡ kept_in world.now.replay.played.records) }
{
    let ids = world.entities()?;
    let mut count = 0;
    for id in ids.as_slice() {
        if world.state(*id).mode == Mode::Kept {
            count += 1;
        }
    }
    Ok(count)
}

// The MD5 of the lines of the triples, line by line.
fn digest(alloc: Global, rows: &Rows<'_>) -> Result<[u8; 16], OutOfMemory>
    ensures { IfOk result (λ digest. digest ≡ md5 (triple_lines rows.now)) }
{
    let mut hasher = Md5::new();
    let mut line = Vec::new(alloc);
    for index in 0..rows.len() {
        line.clear();
        rows.write(index, &mut line)?;
        hasher.update(line.as_slice());
    }
    Ok(hasher.finalize())
}

// The line of a number under a word.
fn number_line(alloc: Global, word: &str, number: u64) -> Result<String, OutOfMemory>
    ensures { IfOk result (λ line. string_bytes line ≡ number_line word.now number) }
{
    Ok(format!(in alloc; "# {word} {number}\n")?)
}

// The line of the MD5, in lower-case hexadecimal digits.
fn digest_line(alloc: Global, digest: &[u8; 16]) -> Result<String, OutOfMemory>
    ensures { IfOk result (λ line. string_bytes line ≡ digest_line digest.now) }
{
    let digits = hex::encode(alloc, *digest)?;
    Ok(format!(in alloc; "# export {digits}\n")?)
}
