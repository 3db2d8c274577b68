// Two texts of lines, each in order, are merged.

ghost use Rattle.std.specs.Prelude.{◌≡◌, ◌≢◌, ◌⊎◌, ◌+◌, ◌<◌, ◌≤◌, ℕ, List, ◌++◌, length, slice_index, IfOk};
ghost use Rattle.std.specs.List.{flat_map};
ghost use Rattle.sorted_sets.specs.Rising.{sorted};
ghost use Rattle.rdf_term.specs.{declared.triple.Triple.Triple, Order.triple_cmp, Text.triple_text};
ghost use Rattle.triple_catalog.specs.Lines.{AreLinesOf};
ghost use Rattle.parts_exchange.specs.Merging.{AreOrderedLines, IsNext};

use memchr::memchr;
use rdf_term::OutOfMemory;
use std::alloc::Global;
use std::cmp::Ordering;
use triple_catalog::compare_texts;
use triple_store::TripleLines;

/// Merges the lines of two lists of fit triples, each in order: the lines of the triples of both, each once. It takes memory for as many bytes
/// as both have.
pub fn merged_lines(
    alloc: Global,
    first: &TripleLines,
    second: &TripleLines,
) -> Result<TripleLines, OutOfMemory>
    ensures { (some others : List Triple) → AreLinesOf first.now some → AreLinesOf second.now others →
        AreOrderedLines some → AreOrderedLines others → IfOk result (λ lines. AreLinesOf lines (sorted triple_cmp (some ++ others))) }
{
    let mut left = first.text.as_slice();
    let mut right = second.text.as_slice();
    let mut text = Vec::new(alloc);
    let mut count = 0;
    while !left.is_empty() || !right.is_empty() {
        let next = next_line(left, right);
        text.extend_from_slice(next.line)?;
        left = next.left;
        right = next.right;
        count += 1;
    }
    Ok(TripleLines { count, text })
}

/// The next line of two texts, its line feed included, and what is left of each.
#[derive(Clone, Copy)]
pub struct NextLine<'a> {
    pub line: &'a [u8],
    pub left: &'a [u8],
    pub right: &'a [u8],
}

/// The lesser of the first lines of two texts, not both of them empty. Where both are the same line, it is taken from both. It takes no
/// memory.
pub fn next_line<'a>(left: &'a [u8], right: &'a [u8]) -> NextLine<'a>
    requires { 0 < length left.now + length right.now }
    ensures next { (some others : List Triple) → left.now ≡ flat_map triple_text some → right.now ≡ flat_map triple_text others →
        AreOrderedLines some → AreOrderedLines others → IsNext some others result }
    ensures shorter { length result.left.now + length result.right.now < length left.now + length right.now }
    ensures some { 0 < length result.line.now }
{
    if right.is_empty() {
        let (line, rest) = left.split_at(line_end(left));
        return NextLine {
            line,
            left: rest,
            right,
        };
    }
    if left.is_empty() {
        let (line, rest) = right.split_at(line_end(right));
        return NextLine {
            line,
            left,
            right: rest,
        };
    }
    let (left_line, left_rest) = left.split_at(line_end(left));
    let (right_line, right_rest) = right.split_at(line_end(right));
    match compare_texts(left_line, right_line) {
        Ordering::Less => NextLine {
            line: left_line,
            left: left_rest,
            right,
        },
        Ordering::Equal => NextLine {
            line: left_line,
            left: left_rest,
            right: right_rest,
        },
        Ordering::Greater => NextLine {
            line: right_line,
            left,
            right: right_rest,
        },
    }
}

// Where the first line of a text ends, its line feed included; that of a text without a line feed ends where the text does.
fn line_end(text: &[u8]) -> usize
    requires { 0 < length text.now }
    ensures before { (k : ℕ) → k + 1 < result → slice_index text.now k ≢ 10 }
    ensures ended { (k : ℕ) → k + 1 ≡ result → (slice_index text.now k ≡ 10) ⊎ (result ≡ length text.now) }
    ensures some { 0 < result }
    ensures within { result ≤ length text.now }
{
    match memchr(b'\n', text) {
        Some(index) => index + 1,
        None => text.len(),
    }
}
