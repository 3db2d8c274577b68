// A section of triples: its head, and the line of each triple.

ghost use Rattle.std.specs.Prelude.{◌≡◌, ◌++◌, ◌<◌, IfOk, flat_map, length, string_bytes};
ghost use Rattle.rdf_term.specs.Text.{triple_text};
ghost use Rattle.replay_model.specs.Transcript.{export_head, export_section};
ghost use Rattle.text_output.specs.Printing.{Prints, Puts, output};

use crate::write::{Unwritten, flush, write_all};
use rdf_term::OutOfMemory;
use std::alloc::Global;
use triple_store::Rows;
use wq_io::Sink;

/// Prints a section, its head and the line of each triple, and hands it on to the outside.
///
/// # Errors
/// The output could not be written, or memory was refused: then a prefix of the section was written, and nothing else.
pub fn print_section<K: Sink>(
    alloc: Global,
    head: &str,
    rows: &Rows<'_>,
    out: &mut K,
) -> Result<(), Unwritten>
    ensures { Prints (head.now ++ flat_map triple_text rows.now) (output K.Sink out.old) (output K.Sink out.new) result }
{
    write_all(head.as_bytes(), out)?;
    print_rows(alloc, rows, out)?;
    let is_printed = !head.is_empty() | (rows.len() > 0);
    flush(is_printed, out)
}

// Prints the line of each triple, each from the same buffer.
fn print_rows<K: Sink>(alloc: Global, rows: &Rows<'_>, out: &mut K) -> Result<(), Unwritten>
    ensures { Puts (flat_map triple_text rows.now) (output K.Sink out.old) (output K.Sink out.new) result }
{
    let mut line = Vec::new(alloc);
    for index in 0..rows.len() {
        line.clear();
        rows.write(index, &mut line)?;
        write_all(line.as_slice(), out)?;
    }
    Ok(())
}

/// Prints the section of an export: how many triples there are, and the line of each.
///
/// # Errors
/// The output could not be written, or memory was refused: then a prefix of the section was written, and nothing else.
pub fn print_triples<K: Sink>(alloc: Global, rows: &Rows<'_>, out: &mut K) -> Result<(), Unwritten>
    ensures { Prints (export_section rows.now) (output K.Sink out.old) (output K.Sink out.new) result }
{
    let head = export_line(alloc, rows.len())?;
    print_section(alloc, head.as_str(), rows, out)
}

// The first line of an export.
#[tactic(auto, unfolding(replay_model::specs::Transcript::export_head))]
fn export_line(alloc: Global, count: usize) -> Result<String, OutOfMemory>
    ensures { IfOk result (λ line. string_bytes line ≡ export_head count) }
{
    Ok(format!(in alloc; "# export: {count} triples\n")?)
}
