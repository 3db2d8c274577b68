// The triples that one list has more often than another.

ghost use Rattle.std.specs.Prelude.{◌≡◌, count_by, filter, IfOk};
ghost use Rattle.std.specs.Ordering.{eq_by_cmp};
ghost use Rattle.rdf_term.specs.declared.triple.Triple.{Triple as TheTriple};
ghost use Rattle.page_parts.specs.{InOne.has_more, Marked.is_marked, Row.row_cmp, Row.row_has_more};

use crate::marking::may_be_row;
use crate::marks::Marks;
use crate::row::Row;
use crate::rows::listed_rows;
use crate::subjects::subjects_of;
use rdf_term::OutOfMemory;
use std::alloc::Global;
use triple_texts::TripleTexts;

// How many triples the first list has at most: each is compared with all.
const MOST: usize = 1024;

impl<'a> Marks<'a> {
    /// The triples that the first list has more often than the second. Where the first has more than 1,024 triples, it answers
    /// `OutOfMemory`.
    pub fn of_more(
        alloc: Global,
        many: &'a TripleTexts,
        few: &'a TripleTexts,
    ) -> Result<Marks<'a>, OutOfMemory>
        ensures { IfOk result (λ marks. (t : TheTriple) → is_marked marks t ≡ has_more many.now few.now t) }
    {
        if many.len() > MOST {
            return Err(OutOfMemory);
        }
        let subjects = subjects_of(alloc, many, few)?;
        let all = listed_rows(alloc, subjects.as_slice(), many)?;
        let others = listed_rows(alloc, subjects.as_slice(), few)?;
        let mut rows = rows_more(alloc, all.as_slice(), others.as_slice())?;
        rows.sort_unstable();
        Ok(Marks {
            subjects,
            first: rows,
            second: Vec::new(alloc),
        })
    }
}

// The rows that stand more often among all than among others, in their order.
fn rows_more<'a>(
    alloc: Global,
    all: &[Row<'a>],
    others: &[Row<'a>],
) -> Result<Vec<Row<'a>>, OutOfMemory>
    ensures { IfOk result (λ rows. rows.items ≡ filter (row_has_more all.now others.now) all.now) }
{
    let mut rows = Vec::new(alloc);
    for row in all {
        if count_of(row, others) < count_of(row, all) {
            rows.push(*row)?;
        }
    }
    Ok(rows)
}

// How many times a row stands among rows.
fn count_of<'a>(row: &Row<'a>, rows: &[Row<'a>]) -> usize
    ensures { result ≡ count_by (eq_by_cmp row_cmp row.now) rows.now }
{
    let mut count = 0;
    for other in rows {
        if may_be_row(row, other) && *row == *other {
            count += 1;
        }
    }
    count
}
