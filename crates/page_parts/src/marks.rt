// The rows of two lists, by which the triples are known that only one of both has.

ghost use Rattle.std.specs.{List.All, List.Sorted.IsSorted};
ghost use Rattle.page_parts.specs.Row.{IsRanked, row_cmp, subject_cmp, subject_texts};

use crate::row::Row;
use crate::subjects::SubjectText;

/// The triples that only one of two lists has: the rows of both, in order, and the subjects of both.
#[derive(Drop)]
pub struct Marks<'a> {
    pub(crate) subjects: Vec<SubjectText<'a>>,
    pub(crate) first: Vec<Row<'a>>,
    pub(crate) second: Vec<Row<'a>>,
    ghost sorted: { IsSorted subject_cmp subjects.items },
    ghost first_ranked: { All (IsRanked (subject_texts subjects.items)) first.items },
    ghost first_sorted: { IsSorted row_cmp first.items },
    ghost second_ranked: { All (IsRanked (subject_texts subjects.items)) second.items },
    ghost second_sorted: { IsSorted row_cmp second.items },
}
