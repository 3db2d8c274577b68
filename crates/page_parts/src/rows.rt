// The triples of a page in rows.

ghost use Rattle.std.specs.Prelude.{◌≡◌, ◌+◌, ◌<◌, ℕ, length, map, IfOk};
ghost use Rattle.std.specs.{List.All, List.Sorted.IsSorted};
ghost use Rattle.page_parts.specs.Row.{IsRanked, row_triple, subject_cmp, subject_texts};
ghost use Rattle.page_parts.specs.Rows.{AreRowsOf, HaveSubjects, IsRankAt};

use crate::row::Row;
use crate::subjects::{SubjectText, rank_of};
use rdf_term::OutOfMemory;
use std::alloc::Global;
use triple_texts::TripleTexts;

// The rows of the triples, each once, in order. The subjects have those of the triples among them.
pub(crate) fn rows_of<'a>(
    alloc: Global,
    subjects: &[SubjectText<'a>],
    texts: &'a TripleTexts,
) -> Result<Vec<Row<'a>>, OutOfMemory>
    requires sorted { IsSorted subject_cmp subjects.now }
    requires there { HaveSubjects (subject_texts subjects.now) texts.now (length texts.now) }
    ensures { IfOk result (λ rows. AreRowsOf (subject_texts subjects.now) rows.items texts.now) }
{
    let mut rows = listed_rows(alloc, subjects, texts)?;
    rows.sort_unstable();
    rows.dedup();
    Ok(rows)
}

// The rows of the triples, in the order in which these came.
pub(crate) fn listed_rows<'a>(
    alloc: Global,
    subjects: &[SubjectText<'a>],
    texts: &'a TripleTexts,
) -> Result<Vec<Row<'a>>, OutOfMemory>
    requires sorted { IsSorted subject_cmp subjects.now }
    requires there { HaveSubjects (subject_texts subjects.now) texts.now (length texts.now) }
    ensures triples { IfOk result (λ rows. map row_triple rows.items ≡ texts.now) }
    ensures ranked { IfOk result (λ rows. All (IsRanked (subject_texts subjects.now)) rows.items) }
{
    let count = texts.len();
    let mut rows = Vec::with_capacity(alloc, count)?;
    let mut rank = 0;
    for index in 0..count {
        rank = rank_at(subjects, texts, index, rank);
        let row = texts.get(index);
        rows.push(Row { rank, texts: row })?;
    }
    Ok(rows)
}

// The first place of the subject of the triple at an index: that of the triple before, where the subject is known to be the same.
fn rank_at(subjects: &[SubjectText<'_>], texts: &TripleTexts, index: usize, before: usize) -> usize
    requires sorted { IsSorted subject_cmp subjects.now }
    requires there { HaveSubjects (subject_texts subjects.now) texts.now (length texts.now) }
    requires within { index < length texts.now }
    requires before { (k : ℕ) → k + 1 ≡ index → IsRankAt (subject_texts subjects.now) texts.now k before }
    ensures { IsRankAt (subject_texts subjects.now) texts.now index result }
{
    if texts.repeats_subject(index) {
        return before;
    }
    let row = texts.get(index);
    rank_of(subjects, row.subject)
}
