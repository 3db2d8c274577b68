// The subjects of triples, in order, and their places among them.

ghost use Rattle.std.specs.Prelude.{◌≡◌, ◌+◌, ◌<◌, ℕ, false, true, List, None, Some, length, slice_get, IfOk, IfSome, OnOk};
ghost use Rattle.std.specs.List.Sorted.{IsPermutation, IsSorted};
ghost use Rattle.sorted_sets.specs.Rising.{has};
ghost use Rattle.rdf_term.specs.Order.{bytes_cmp};
ghost use Rattle.page_parts.specs.{Row.IsFirst, Row.IsFirstOf, Row.subject_cmp, Row.subject_texts, Rows.HaveSubjects};

use rdf_term::OutOfMemory;
use std::alloc::Global;
use triple_catalog::compare_texts;
use triple_texts::TripleTexts;

// So many subjects or rows are looked through one by one, which tells sooner than a search that one isn't among them.
pub(crate) const FEW: usize = 256;

// The text of a subject.
#[derive(Clone, Copy)]
pub(crate) struct SubjectText<'a> {
    pub(crate) text: &'a [u8],
}

// The subjects of the triples of two pages, in order. A subject may stand there more than once, but not for each of its triples: where
// it is known to be that of the triple before, it isn't named again.
pub(crate) fn subjects_of<'a>(
    alloc: Global,
    first: &'a TripleTexts,
    second: &'a TripleTexts,
) -> Result<Vec<SubjectText<'a>>, OutOfMemory>
    ensures sorted { IfOk result (λ subjects. IsSorted subject_cmp subjects.items) }
    ensures first { IfOk result (λ subjects. HaveSubjects (subject_texts subjects.items) first.now (length first.now)) }
    ensures second { IfOk result (λ subjects. HaveSubjects (subject_texts subjects.items) second.now (length second.now)) }
{
    let mut subjects = Vec::new(alloc);
    push_subjects(first, &mut subjects)?;
    push_subjects(second, &mut subjects)?;
    sort_subjects(&mut subjects);
    Ok(subjects)
}

// Appends the subjects of the triples.
fn push_subjects<'a>(
    texts: &'a TripleTexts,
    subjects: &mut Vec<SubjectText<'a>>,
) -> Result<(), OutOfMemory>
    ensures kept { OnOk result ((text : List ℕ) → has bytes_cmp text (subject_texts subjects.old.items) ≡ true →
        has bytes_cmp text (subject_texts subjects.new.items) ≡ true) }
    ensures all { OnOk result (HaveSubjects (subject_texts subjects.new.items) texts.now (length texts.now)) }
{
    for index in 0..texts.len() {
        push_subject(texts, index, subjects)?;
    }
    Ok(())
}

// Appends the subject of the triple at an index, unless it is known to be that of the triple before.
fn push_subject<'a>(
    texts: &'a TripleTexts,
    index: usize,
    subjects: &mut Vec<SubjectText<'a>>,
) -> Result<(), OutOfMemory>
    requires within { index < length texts.now }
    requires before { HaveSubjects (subject_texts subjects.old.items) texts.now index }
    ensures kept { OnOk result ((text : List ℕ) → has bytes_cmp text (subject_texts subjects.old.items) ≡ true →
        has bytes_cmp text (subject_texts subjects.new.items) ≡ true) }
    ensures next { OnOk result (HaveSubjects (subject_texts subjects.new.items) texts.now (index + 1)) }
{
    if texts.repeats_subject(index) {
        return Ok(());
    }
    let row = texts.get(index);
    subjects.push(SubjectText { text: row.subject })?;
    Ok(())
}

// Sorts subjects by their texts. It takes no memory.
fn sort_subjects(subjects: &mut Vec<SubjectText<'_>>)
    ensures same { IsPermutation subjects.old.items subjects.new.items }
    ensures sorted { IsSorted subject_cmp subjects.new.items }
{
    subjects.sort_unstable_by(|a, b| compare_texts(a.text, b.text));
}

// The first place of a text among subjects in order, if it is there.
pub(crate) fn find_subject(subjects: &[SubjectText<'_>], text: &[u8]) -> Option<usize>
    requires sorted { IsSorted subject_cmp subjects.now }
    ensures first { IfSome result (IsFirstOf (subject_texts subjects.now) text.now) }
    ensures none { result ≡ None → has bytes_cmp text.now (subject_texts subjects.now) ≡ false }
{
    if subjects.len() <= FEW {
        return first_among(subjects, text);
    }
    let place = place_of(subjects, text);
    if is_at(subjects, place, text) {
        Some(place)
    } else {
        None
    }
}

// The first place of a text among subjects in order, if it is there. It is compared with those that it may be.
fn first_among(subjects: &[SubjectText<'_>], text: &[u8]) -> Option<usize>
    requires sorted { IsSorted subject_cmp subjects.now }
    ensures first { IfSome result (IsFirstOf (subject_texts subjects.now) text.now) }
    ensures none { result ≡ None → has bytes_cmp text.now (subject_texts subjects.now) ≡ false }
{
    for index in 0..subjects.len() {
        let subject = subjects[index].text;
        if may_be(subject, text) && subject == text {
            return Some(index);
        }
    }
    None
}

// Whether two texts may be the same, by their lengths and a byte near their ends: the subjects of a page mostly begin alike.
pub(crate) fn may_be(one: &[u8], other: &[u8]) -> bool
    ensures { one.now ≡ other.now → result ≡ true }
{
    let len = one.len();
    if len != other.len() {
        return false;
    }
    if len < 3 {
        return true;
    }
    one[len - 2] == other[len - 2] && one[len - 3] == other[len - 3]
}

// Whether a text stands at a place.
fn is_at(subjects: &[SubjectText<'_>], place: usize, text: &[u8]) -> bool
    ensures there { result ≡ true → has bytes_cmp text.now (subject_texts subjects.now) ≡ true }
    ensures none { result ≡ false → slice_get (subject_texts subjects.now) place ≡ Some text.now → ⊥ }
{
    if place < subjects.len() {
        subjects[place].text == text
    } else {
        false
    }
}

// How many subjects in order are below a text: its first place, if it is there.
fn place_of(subjects: &[SubjectText<'_>], text: &[u8]) -> usize
    requires sorted { IsSorted subject_cmp subjects.now }
    ensures { has bytes_cmp text.now (subject_texts subjects.now) ≡ true → IsFirst (subject_texts subjects.now) result text.now }
{
    subjects.partition_point(|subject| compare_texts(subject.text, text).is_lt())
}

// The first place of a text among subjects in order.
pub(crate) fn rank_of(subjects: &[SubjectText<'_>], text: &[u8]) -> usize
    requires sorted { IsSorted subject_cmp subjects.now }
    requires there { has bytes_cmp text.now (subject_texts subjects.now) ≡ true }
    ensures { IsFirst (subject_texts subjects.now) result text.now }
{
    match find_subject(subjects, text) {
        Some(place) => place,
        None => unreachable!(),
    }
}
