// What the triples of one page change of those of another.

ghost use Rattle.std.specs.Prelude.{◌≡◌, ◌++◌, ◌∷◌, [], length, map, IfOk, is_ok};
ghost use Rattle.std.specs.{List.All, List.Sorted.IsSearchInRange};
ghost use Rattle.sorted_sets.specs.Rising.{IsRising, difference, has};
ghost use Rattle.rdf_term.specs.Append.{Appends};
ghost use Rattle.triple_catalog.specs.Lines.{AreLinesOf};
ghost use Rattle.page_parts.specs.{Row.HasCanonicalTexts, Row.line_of, Row.row_cmp, Row.row_triple, Rows.IsRowChange};

use crate::row::Row;
use crate::rows::rows_of;
use crate::subjects::subjects_of;
use rdf_term::OutOfMemory;
use std::alloc::Global;
use triple_catalog::{TripleLines, line_size};
use triple_texts::{TripleText, TripleTexts};

/// The triples that came with a page, and those that are gone with the page before it.
#[derive(Drop)]
pub struct RowChange {
    pub came: TripleLines,
    pub gone: TripleLines,
}

/// What the triples of a page change of those of the page before it. It sorts the triples of both, and compares a subject once for all
/// triples that follow one another with it, however long it is.
pub fn row_change(
    alloc: Global,
    old: &TripleTexts,
    new: &TripleTexts,
) -> Result<RowChange, OutOfMemory>
    ensures { IfOk result (IsRowChange old.now new.now) }
{
    let subjects = subjects_of(alloc, old, new)?;
    let old_rows = rows_of(alloc, subjects.as_slice(), old)?;
    let new_rows = rows_of(alloc, subjects.as_slice(), new)?;
    let came = lines_without(alloc, new_rows.as_slice(), old_rows.as_slice())?;
    let gone = lines_without(alloc, old_rows.as_slice(), new_rows.as_slice())?;
    Ok(RowChange { came, gone })
}

// The lines of the rows that aren't among others, in their order.
fn lines_without<'a>(
    alloc: Global,
    rows: &[Row<'a>],
    others: &[Row<'a>],
) -> Result<TripleLines, OutOfMemory>
    requires canonical { All HasCanonicalTexts rows.now }
    requires rising { IsRising row_cmp others.now }
    ensures { IfOk result (λ lines. AreLinesOf lines (map row_triple (difference row_cmp rows.now others.now))) }
{
    if others.is_empty() {
        return lines_of(alloc, rows);
    }
    let found = rows_without(alloc, rows, others)?;
    lines_of(alloc, found.as_slice())
}

// The rows that aren't among others, in their order.
fn rows_without<'a>(
    alloc: Global,
    rows: &[Row<'a>],
    others: &[Row<'a>],
) -> Result<Vec<Row<'a>>, OutOfMemory>
    requires { IsRising row_cmp others.now }
    ensures { IfOk result (λ found. found.items ≡ difference row_cmp rows.now others.now) }
{
    let mut found = Vec::new(alloc);
    let mut next = 0;
    for row in rows {
        match find_from(others, row, next) {
            Ok(index) => next = index + 1,
            Err(index) => {
                next = index;
                found.push(*row)?;
            }
        }
    }
    Ok(found)
}

// The lines of the rows, in their order. The memory that they take is asked for at once.
fn lines_of(alloc: Global, rows: &[Row<'_>]) -> Result<TripleLines, OutOfMemory>
    requires { All HasCanonicalTexts rows.now }
    ensures { IfOk result (λ lines. AreLinesOf lines (map row_triple rows.now)) }
{
    let mut text = Vec::with_capacity(alloc, size_of(rows))?;
    for row in rows {
        write_row(&row.texts, &mut text)?;
    }
    Ok(TripleLines {
        count: rows.len(),
        text,
    })
}

// How many bytes the lines of the rows take, as far as a number counts them.
fn size_of(rows: &[Row<'_>]) -> usize {
    let mut size = 0;
    for row in rows {
        size = line_size(&row.texts).saturating_add(size);
    }
    size
}

// Where a row stands among rows in order, or would stand. A place is tried first, so that rows that are nearly the same ones cost no
// search.
fn find_from<'a>(rows: &[Row<'a>], row: &Row<'a>, next: usize) -> Result<usize, usize>
    requires { IsRising row_cmp rows.now }
    ensures bound { IsSearchInRange result (length rows.now) }
    ensures there { is_ok result ≡ has row_cmp row.now rows.now }
{
    if next < rows.len() && *row == rows[next] {
        return Ok(next);
    }
    rows.binary_search(row)
}

// Appends the line of a triple by its texts, its LF included; after `OutOfMemory` a part of it may stand there.
#[tactic(auto, using(rdf_term::proofs::Appending::still_front, std::proofs::lemmas::List::append_assoc))]
fn write_row(texts: &TripleText<'_>, out: &mut Vec<u8>) -> Result<(), OutOfMemory>
    ensures { Appends out.old.items out.new.items (line_of texts.now) result }
{
    append_spaced(texts.subject, out)?;
    append_spaced(texts.predicate, out)?;
    append_spaced(texts.object, out)?;
    append_bytes(b".\n", out)
}

// Appends a text and a space. The space is pushed, which costs less than a copy.
#[tactic(auto, using(rdf_term::proofs::Appending::still_front, std::proofs::lemmas::List::append_assoc))]
fn append_spaced(text: &[u8], out: &mut Vec<u8>) -> Result<(), OutOfMemory>
    ensures { Appends out.old.items out.new.items (text.now ++ 32 ∷ []) result }
{
    append_bytes(text, out)?;
    append_byte(b' ', out)
}

// Appends a byte.
#[inline(always)]
fn append_byte(byte: u8, out: &mut Vec<u8>) -> Result<(), OutOfMemory>
    ensures { Appends out.old.items out.new.items (byte ∷ []) result }
{
    out.push(byte)?;
    Ok(())
}

// Appends bytes.
fn append_bytes(bytes: &[u8], out: &mut Vec<u8>) -> Result<(), OutOfMemory>
    ensures { Appends out.old.items out.new.items bytes.now result }
{
    out.extend_from_slice(bytes)?;
    Ok(())
}
