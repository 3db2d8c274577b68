// The answer to a question, and the sections after the end.

ghost use Rattle.std.specs.Prelude.{◌≡◌, cond, false, []};
ghost use Rattle.rdf_term.specs.{Order.triple_cmp, Pattern.rows};
ghost use Rattle.replay_model.specs.Transcript.{ask_section, export_section, side_section, state_section};
ghost use Rattle.replay_model.specs.{Union.union, Versions.meaning_by};
ghost use Rattle.fetched_pages.specs.Meaning.{meaning};
ghost use Rattle.text_output.specs.Printing.{Prints, output};
ghost use Rattle.replay_parts.specs.Closing.{closing_of};
ghost use Rattle.transcript.specs.Sections.{chosen};

use crate::entries::print_entries;
use crate::lines::answer_line;
use crate::states::print_states;
use rdf_term::Pattern;
use std::alloc::Global;
use text_output::{Unwritten, print_section, print_triples};
use world::World;
use wq_io::Sink;

/// Which sections are printed after the end.
#[derive(Clone, Copy, PartialEq, Eq)]
pub struct Sections {
    /// The export: the triples of the world.
    pub export: bool,
    /// The states of the entities.
    pub state: bool,
    /// The side output.
    pub side: bool,
}

/// Prints the answer to the question with this number: how many triples of the world agree with the pattern, and the line of
/// each. The world isn't lean.
///
/// # Errors
/// The output could not be written, or memory was refused: then a prefix of the answer was written, and nothing else.
pub fn print_answer<K: Sink>(
    alloc: Global,
    number: u64,
    pattern: &Pattern,
    world: &World,
    out: &mut K,
) -> Result<(), Unwritten>
    requires { world.now.limit.lean ≡ false }
    ensures { Prints (ask_section number (rows (union triple_cmp (meaning_by meaning world.now.by_two) world.now.replay.played.records) pattern.now))
        (output K.Sink out.old) (output K.Sink out.new) result }
{
    let rows = world.matching(pattern)?;
    let head = answer_line(alloc, number, rows.len())?;
    print_section(alloc, head.as_str(), &rows, out)
}

/// Prints the sections that are asked for: the export, the states and the side output. The world isn't lean.
///
/// # Errors
/// The output could not be written, or memory was refused: then a prefix of the sections was written, and nothing else.
pub fn print_closing<K: Sink>(
    alloc: Global,
    sections: Sections,
    world: &World,
    out: &mut K,
) -> Result<(), Unwritten>
    requires { world.now.limit.lean ≡ false }
    ensures { Prints (closing_of (union triple_cmp (meaning_by meaning world.now.by_two) world.now.replay.played.records) (chosen sections) world.now.replay.played)
        (output K.Sink out.old) (output K.Sink out.new) result }
{
    print_export(alloc, sections.export, world, out)?;
    print_state(alloc, sections.state, world, out)?;
    print_side(alloc, sections.side, world, out)
}

// Prints the section of the export, where it is wanted.
fn print_export<K: Sink>(
    alloc: Global,
    wanted: bool,
    world: &World,
    out: &mut K,
) -> Result<(), Unwritten>
    requires { world.now.limit.lean ≡ false }
    ensures { Prints (cond wanted (export_section (union triple_cmp (meaning_by meaning world.now.by_two) world.now.replay.played.records)) [])
        (output K.Sink out.old) (output K.Sink out.new) result }
{
    if !wanted {
        return Ok(());
    }
    let rows = world.rows()?;
    print_triples(alloc, &rows, out)
}

// Prints the section of the states, where it is wanted.
fn print_state<K: Sink>(
    alloc: Global,
    wanted: bool,
    world: &World,
    out: &mut K,
) -> Result<(), Unwritten>
    ensures { Prints (cond wanted (state_section world.now.replay.played.records) []) (output K.Sink out.old) (output K.Sink out.new) result }
{
    if !wanted {
        return Ok(());
    }
    print_states(alloc, world, out)
}

// Prints the section of the side output, where it is wanted.
fn print_side<K: Sink>(
    alloc: Global,
    wanted: bool,
    world: &World,
    out: &mut K,
) -> Result<(), Unwritten>
    ensures { Prints (cond wanted (side_section world.now.replay.played.records world.now.replay.played.side) [])
        (output K.Sink out.old) (output K.Sink out.new) result }
{
    if !wanted {
        return Ok(());
    }
    print_entries(alloc, world, out)
}
