// The triples that only one of two lists has.

ghost use Rattle.std.specs.Prelude.{◌≡◌, true, IfOk, OnOk};
ghost use Rattle.std.specs.{List.Sorted.IsSorted, Ordering.eq_by_cmp};
ghost use Rattle.sorted_sets.specs.Rising.{has};
ghost use Rattle.rdf_term.specs.{declared.triple.Triple.Triple as TheTriple, Text.term_text};
ghost use Rattle.triple_sink.specs.TermRef.{meant, meant_triple};
ghost use Rattle.page_parts.specs.{InOne.in_one, Marked.is_marked, Row.row_cmp};

use crate::marks::Marks;
use crate::row::Row;
use crate::rows::rows_of;
use crate::subjects::{FEW, find_subject, may_be, subjects_of};
use rdf_term::OutOfMemory;
use std::alloc::Global;
use triple_sink::TermRef;
use triple_texts::{TripleText, TripleTexts};

// The texts of a triple that is looked for.
#[derive(Drop)]
pub(crate) struct SoughtTexts {
    pub(crate) subject: Vec<u8>,
    pub(crate) predicate: Vec<u8>,
    pub(crate) object: Vec<u8>,
}

impl<'a> Marks<'a> {
    /// The triples that only one of the lists has.
    pub fn of(
        alloc: Global,
        first: &'a TripleTexts,
        second: &'a TripleTexts,
    ) -> Result<Marks<'a>, OutOfMemory>
        ensures { IfOk result (λ marks. (t : TheTriple) → is_marked marks t ≡ in_one first.now second.now t) }
    {
        let subjects = subjects_of(alloc, first, second)?;
        let first = rows_of(alloc, subjects.as_slice(), first)?;
        let second = rows_of(alloc, subjects.as_slice(), second)?;
        Ok(Marks {
            subjects,
            first,
            second,
        })
    }

    // Whether only one of the lists has the triple. The texts are written anew, those of the predicate and the object only where the lists
    // have the subject.
    pub(crate) fn has_marked(
        &self,
        subject: &TermRef<'_>,
        predicate: &TermRef<'_>,
        object: &TermRef<'_>,
        sought: &mut SoughtTexts,
    ) -> Result<bool, OutOfMemory>
        ensures { IfOk result (λ marked. marked ≡ is_marked self.now (meant_triple subject.now predicate.now object.now)) }
    {
        rewrite(subject, &mut sought.subject)?;
        let Some(rank) = find_subject(self.subjects.as_slice(), sought.subject.as_slice()) else {
            return Ok(false);
        };
        rewrite(predicate, &mut sought.predicate)?;
        rewrite(object, &mut sought.object)?;
        let texts = TripleText {
            subject: sought.subject.as_slice(),
            predicate: sought.predicate.as_slice(),
            object: sought.object.as_slice(),
        };
        let row = Row { rank, texts };
        Ok(is_among(&row, self.first.as_slice()) != is_among(&row, self.second.as_slice()))
    }
}

// Whether a row stands among rows in order.
fn is_among<'a>(row: &Row<'a>, rows: &[Row<'a>]) -> bool
    requires sorted { IsSorted row_cmp rows.now }
    ensures { result ≡ has row_cmp row.now rows.now }
{
    if rows.len() <= FEW {
        return is_one_of(row, rows);
    }
    rows.binary_search(row).is_ok()
}

// The same, told by looking at each of them.
fn is_one_of<'a>(row: &Row<'a>, rows: &[Row<'a>]) -> bool
    ensures { result ≡ has row_cmp row.now rows.now }
{
    for other in rows {
        if may_be_row(row, other) && *row == *other {
            return true;
        }
    }
    false
}

// Whether two rows may be the same, by their ranks and what tells their objects apart soon.
pub(crate) fn may_be_row(one: &Row<'_>, other: &Row<'_>) -> bool
    ensures { eq_by_cmp row_cmp one.now other.now ≡ true → result ≡ true }
{
    one.rank == other.rank && may_be(one.texts.object, other.texts.object)
}

// Writes the text of a term in the place of another.
fn rewrite(term: &TermRef<'_>, out: &mut Vec<u8>) -> Result<(), OutOfMemory>
    ensures { OnOk result (out.new.items ≡ term_text (meant term.now)) }
{
    out.clear();
    term.write(out)
}
