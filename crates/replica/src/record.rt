// A record of a patch, and the writing of it.

ghost use Rattle.rdf_term.specs.{Append.Appends, Text.triple_text};
ghost use Rattle.std.specs.Prelude.{◌≡◌, ◌∷◌, ◌++◌, [], IfOk, flat_map};
ghost use Rattle.replica.specs.{Head.head_line, Record.IsSound, Record.head_of, Record.record_text, Record.text_line};

use crate::head::Head;
use crate::reading_back::read_set;
use rdf_term::{OutOfMemory, TripleSet};
use std::alloc::Global;
use triple_texts::{TripleText, TripleTexts};

/// One change of the triples of a producer.
#[derive(Drop)]
pub struct PatchRecord {
    /// The place among the producer's records, from 1.
    pub number: u64,
    /// The triples that were added.
    pub adds: TripleTexts,
    /// The triples that were removed.
    pub removes: TripleTexts,
}

impl PatchRecord {
    /// The triples that were added, each read from its line.
    pub fn added(&self, alloc: Global) -> Result<TripleSet, OutOfMemory>
        requires { IsSound self.now }
        ensures { IfOk result (λ set. set ≡ self.now.adds) }
    {
        read_set(alloc, &self.adds)
    }
}

/// Appends the record's text: a line `# patch NUMBER +ADDS -REMOVES`, with how many triples are added and removed, and a line of canonical
/// N-Triples for each of them: first the added, then the removed ones, each part in the order of triples.
///
/// # Errors
/// Memory was refused: `out` begins with what it held, and a part of the record may follow.
pub fn write_patch(alloc: Global, item: &PatchRecord, out: &mut Vec<u8>) -> Result<(), OutOfMemory>
    ensures { Appends out.old.items out.new.items (record_text item.now) result }
{
    write_head(alloc, item, out)?;
    write_triples(&item.adds, out)?;
    write_triples(&item.removes, out)
}

// Appends the first line.
fn write_head(alloc: Global, item: &PatchRecord, out: &mut Vec<u8>) -> Result<(), OutOfMemory>
    ensures { Appends out.old.items out.new.items (head_line (head_of item.now) ++ 10 ∷ []) result }
{
    let head = Head {
        number: item.number,
        adds: item.adds.len() as u64,
        removes: item.removes.len() as u64,
    };
    let line = head.line(alloc)?;
    append_bytes(line.as_bytes(), out)?;
    append_bytes(b"\n", out)
}

// Appends the lines of the triples.
fn write_triples(triples: &TripleTexts, out: &mut Vec<u8>) -> Result<(), OutOfMemory>
    ensures { Appends out.old.items out.new.items (flat_map triple_text triples.now) result }
{
    for index in 0..triples.len() {
        write_texts(&triples.get(index), out)?;
    }
    Ok(())
}

// Appends the line of the triple with these texts.
#[tactic(auto, using(rdf_term::proofs::Appending::still_front, std::proofs::lemmas::List::append_assoc))]
fn write_texts(texts: &TripleText<'_>, out: &mut Vec<u8>) -> Result<(), OutOfMemory>
    ensures { Appends out.old.items out.new.items (text_line texts.now) result }
{
    append_spaced(texts.subject, out)?;
    append_spaced(texts.predicate, out)?;
    append_spaced(texts.object, out)?;
    append_bytes(b".\n", out)
}

// Appends a text and a space.
#[tactic(auto, using(rdf_term::proofs::Appending::still_front, std::proofs::lemmas::List::append_assoc))]
fn append_spaced(text: &[u8], out: &mut Vec<u8>) -> Result<(), OutOfMemory>
    ensures { Appends out.old.items out.new.items (text.now ++ 32 ∷ []) result }
{
    append_bytes(text, out)?;
    append_bytes(b" ", out)
}

// Appends the bytes.
fn append_bytes(bytes: &[u8], out: &mut Vec<u8>) -> Result<(), OutOfMemory>
    ensures { Appends out.old.items out.new.items bytes.now result }
{
    out.extend_from_slice(bytes)?;
    Ok(())
}
