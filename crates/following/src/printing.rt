// What a follower prints at the end.

ghost use Rattle.std.specs.Prelude.{◌≡◌, [], cond, IfOk, string_bytes};
ghost use Rattle.replay_model.specs.Transcript.{export_section};
ghost use Rattle.text_output.specs.Printing.{Prints, output};
ghost use Rattle.following.specs.Following.{replica_line, replica_text};

use rdf_term::OutOfMemory;
use replica::Replica;
use std::alloc::Global;
use text_output::{Unwritten, flush, print_triples, write_all};
use wq_io::Sink;

// Prints how many records were applied, and, where it is wanted, the section of the triples.
pub fn print_replica<K: Sink>(
    alloc: Global,
    replica: &Replica,
    export: bool,
    out: &mut K,
) -> Result<(), Unwritten>
    ensures { Prints (replica_text export replica.now.applied replica.now.triples) (output K.Sink out.old) (output K.Sink out.new) result }
{
    let line = replica_line(alloc, replica.applied())?;
    let text = line.as_bytes();
    write_all(text, out)?;
    flush(!text.is_empty(), out)?;
    print_export(alloc, replica, export, out)
}

// The line of how many records were applied.
#[tactic(auto, unfolding(crate::specs::Following::replica_line))]
fn replica_line(alloc: Global, applied: u64) -> Result<String, OutOfMemory>
    ensures { IfOk result (λ line. string_bytes line ≡ replica_line applied) }
{
    Ok(format!(in alloc; "# replica {applied}\n")?)
}

// Prints the section of the triples, where it is wanted.
fn print_export<K: Sink>(
    alloc: Global,
    replica: &Replica,
    wanted: bool,
    out: &mut K,
) -> Result<(), Unwritten>
    ensures { Prints (cond wanted (export_section replica.now.triples) []) (output K.Sink out.old) (output K.Sink out.new) result }
{
    if !wanted {
        return Ok(());
    }
    let rows = replica.rows()?;
    print_triples(alloc, &rows, out)
}
