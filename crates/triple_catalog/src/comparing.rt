// The order of texts by their bytes, and of triples by their texts.

ghost use Rattle.std.specs.Prelude.{◌≡◌, ◌+◌, ◌≤◌, min, length};
ghost use Rattle.std.specs.{Ordering.ordering_then, Slice.Scan.IsFirstPlace, Slice.Scan.Marks, Slice.Scan.differ};
ghost use Rattle.rdf_term.specs.Order.{bytes_cmp};
ghost use Rattle.triple_catalog.specs.Rows.{text_cmp};

use std::cmp::Ordering;
use std::simd::prelude::*;
use triple_texts::TripleText;

// How many bytes are compared at a time.
const LANES: usize = 16;

/// The order of two texts by their bytes, as `cmp` tells it. Sixteen bytes are compared at a time, since IRIs are long and begin alike.
pub fn compare_texts(a: &[u8], b: &[u8]) -> Ordering
    ensures { result ≡ bytes_cmp a.now b.now }
{
    let both = a.len().min(b.len());
    if both < LANES {
        return a.cmp(b);
    }
    let place = first_difference(a, b, both);
    if place < both {
        a[place].cmp(&b[place])
    } else {
        a.len().cmp(&b.len())
    }
}

// The order of two triples by the texts of their terms.
pub(crate) fn compare_rows(a: &TripleText<'_>, b: &TripleText<'_>) -> Ordering
    ensures { result ≡ text_cmp a.now b.now }
{
    match compare_texts(a.subject, b.subject) {
        Ordering::Equal => compare_rest(a, b),
        decided => decided,
    }
}

// The order by the predicates, then by the objects.
fn compare_rest(a: &TripleText<'_>, b: &TripleText<'_>) -> Ordering
    ensures { result ≡ ordering_then (bytes_cmp a.now.predicate.now b.now.predicate.now) (bytes_cmp a.now.object.now b.now.object.now) }
{
    match compare_texts(a.predicate, b.predicate) {
        Ordering::Equal => compare_texts(a.object, b.object),
        decided => decided,
    }
}

// The first place where two texts differ, or the length of the shorter one.
fn first_difference(a: &[u8], b: &[u8], both: usize) -> usize
    requires both { both ≡ min (length a.now) (length b.now) }
    requires long { 16 ≤ both }
    ensures { IsFirstPlace (differ a.now b.now) 0 both result }
{
    let mut from = 0;
    while LANES < both - from {
        let place = difference_from(a, b, from);
        if place < from + LANES {
            return place;
        }
        from += LANES;
    }
    difference_from(a, b, both - LANES)
}

// The first of sixteen places where two texts differ, or the place behind them.
#[inline(always)]
fn difference_from(a: &[u8], b: &[u8], from: usize) -> usize
    requires first { from + 16 ≤ length a.now }
    requires second { from + 16 ≤ length b.now }
    ensures { IsFirstPlace (differ a.now b.now) from (from + 16) result }
{
    let marks = marks_from(a, b, from);
    if marks == 0 {
        return from + LANES;
    }
    from + marks.trailing_zeros() as usize
}

// A bit for each of sixteen places, which is set where two texts differ.
#[inline(always)]
fn marks_from(a: &[u8], b: &[u8], from: usize) -> u64
    requires first { from + 16 ≤ length a.now }
    requires second { from + 16 ≤ length b.now }
    ensures { Marks (differ a.now b.now) from 16 result }
{
    u8x16::from_slice(&a[from..])
        .simd_ne(u8x16::from_slice(&b[from..]))
        .to_bitmask()
}
