// A triple by its texts, with the rank of its subject.

ghost use Rattle.std.specs.Prelude.{◌≡◌, refl};
ghost use Rattle.std.specs.Cmp.{partial_equiv_from_equiv, eq_by_cmp_equiv, partial_order_from_total};
ghost use Rattle.std.specs.Ordering.{as_partial_cmp, eq_by_cmp, ordering_then};
ghost use Rattle.rdf_term.specs.Order.{bytes_cmp};
ghost use Rattle.page_parts.specs.Row.{row_cmp, row_cmp-total};

use std::cmp::Ordering;
use triple_catalog::compare_texts;
use triple_texts::TripleText;

// A triple by its texts. Its rank says how its subject is ordered among the subjects of other rows, so that no long subject is compared
// for each of its triples.
#[derive(Clone, Copy)]
pub(crate) struct Row<'a> {
    pub(crate) rank: usize,
    pub(crate) texts: TripleText<'a>,
}

impl<'a> PartialEq for Row<'a> {
    ghost eq = { eq_by_cmp row_cmp };

    ghost laws = { partial_equiv_from_equiv (eq_by_cmp_equiv row_cmp-total) };

    fn eq(&self, other: &Row<'a>) -> bool {
        compare(self, other) == Ordering::Equal
    }
}

impl<'a> Eq for Row<'a> {
    ghost laws = { eq_by_cmp_equiv row_cmp-total };
}

impl<'a> Ord for Row<'a> {
    ghost cmp = { row_cmp };

    ghost total = { row_cmp-total };

    ghost matches_partial_cmp = { λ x y. refl };

    ghost matches_eq = { λ x y. refl };

    fn cmp(&self, other: &Row<'a>) -> Ordering {
        compare(self, other)
    }
}

impl<'a> PartialOrd for Row<'a> {
    ghost partial_cmp = { as_partial_cmp row_cmp };

    ghost laws = { partial_order_from_total row_cmp-total };

    fn partial_cmp(&self, other: &Row<'a>) -> Option<Ordering> {
        Some(compare(self, other))
    }
}

// The order of rows: by the ranks, then by the texts of the predicates, then by those of the objects.
fn compare(a: &Row<'_>, b: &Row<'_>) -> Ordering
    ensures { result ≡ row_cmp a.now b.now }
{
    match a.rank.cmp(&b.rank) {
        Ordering::Equal => compare_rest(&a.texts, &b.texts),
        decided => decided,
    }
}

// The order by the predicates, then by the objects.
fn compare_rest(a: &TripleText<'_>, b: &TripleText<'_>) -> Ordering
    ensures { result ≡ ordering_then (bytes_cmp a.now.predicate.now b.now.predicate.now) (bytes_cmp a.now.object.now b.now.object.now) }
{
    match compare_texts(a.predicate, b.predicate) {
        Ordering::Equal => compare_texts(a.object, b.object),
        decided => decided,
    }
}
