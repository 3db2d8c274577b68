// Sets of triples that are read from their lines, and written.

ghost use Rattle.std.specs.Prelude.{IfSome};
ghost use Rattle.std.specs.List.{AllByRecursion};
ghost use Rattle.rdf_term.specs.Fit.{HasFitAndShortTerms};
ghost use Rattle.replica.specs.Record.{IsSound};

use rdf_term::{OutOfMemory, TripleSet, write_triple};
use replica::{PatchReader, PatchRecord};
use std::alloc::Global;

// The triples that a record adds, where it is one; None too where memory is refused.
#[tactic(auto, using(crate::proofs::Fitting::added_fit))]
pub(crate) fn set_of(alloc: Global, record: &str) -> Option<TripleSet>
    ensures { IfSome result (AllByRecursion HasFitAndShortTerms) }
{
    let mut reader = PatchReader::new(alloc);
    let read = read_record(&mut reader, record);
    drop(reader);
    let item = read?;
    let added = item.added(alloc);
    drop(item);
    added.ok()
}

// The first record of these lines.
fn read_record(reader: &mut PatchReader, lines: &str) -> Option<PatchRecord>
    ensures { IfSome result IsSound }
{
    for line in lines.lines() {
        match reader.line(line.as_bytes()) {
            Ok(None) => {}
            Ok(read) => return read,
            Err(_) => return None,
        }
    }
    None
}

// Writes each triple of a set as a line.
pub(crate) fn write_set(set: TripleSet, found: &mut Vec<u8>) -> Option<()> {
    let written = write_lines(&set, found);
    drop(set);
    written.ok()
}

// Writes each triple as a line.
pub(crate) fn write_lines(set: &TripleSet, found: &mut Vec<u8>) -> Result<(), OutOfMemory> {
    for triple in set.items() {
        write_triple(triple, found)?;
    }
    Ok(())
}
