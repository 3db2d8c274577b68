// The stored triples in their order, by the texts of their terms.

ghost use Rattle.std.specs.Prelude.{◌≡◌, ◌+◌, ◌<◌, ◌≤◌, ◌++◌, ◌∷◌, [], true, length, slice_get, map as mapped, IfOk, IfSome, OnOk, OnErr};
ghost use Rattle.std.specs.FinMap as map;
ghost use Rattle.std.specs.{List.All, List.Sorted.IsPermutation, List.Sorted.IsSorted};
ghost use Rattle.sorted_sets.specs.Rising.{IsRising, has, sorted};
ghost use Rattle.comparison_steps.specs.Steps.{WithinSteps};
ghost use Rattle.rdf_term.specs.{Append.Appends, Order.triple_cmp, Pattern.rows, Text.triple_text};
ghost use Rattle.slot_keys.specs.{declared.key.Key.Key as TheKey, Keys.key_cmp};
ghost use Rattle.triple_catalog.specs.{Moves.triples_at, Rows.line_of, Rows.text_cmp};
ghost use Rattle.triple_catalog.specs.Slots.{HasCanonicalTexts, HasTexts, triple_at, triple_of};
ghost use Rattle.triple_catalog.specs.{Stored.IsStored, Stored.counts_in, Stored.is_key, Lines.AreLinesOf};

use crate::catalog::Catalog;
use crate::comparing::compare_rows;
use crate::lines::{TripleLines, line_size};
use crate::ranking::Ranked;
use crate::reading::read_row;
use comparison_steps::{StepCounter, Uncounted};
use rdf_term::{List, OutOfMemory, Pattern, TripleSet};
use slot_index::SlotPattern;
use slot_keys::Key;
use std::alloc::Global;
use std::marker::Model;
use term_pool::Slot;
use text_region::Region;
use triple_texts::TripleText;

/// Stored triples in strictly rising order, whose texts lie in the region. Contracts see the list of the triples.
#[derive(Drop)]
pub struct Rows<'a> {
    found: Found<'a>,
}

// Triples by the texts of their terms, or by the ranks of these.
#[derive(Drop)]
pub(crate) enum Found<'a> {
    ByTexts(Vec<TripleText<'a>>),
    ByRanks(Ranked<'a>),
}

impl<'a> Model for Rows<'a> {
    ghost use Rattle.std.specs.Prelude.{List};
    ghost use Rattle.rdf_term.specs.declared.triple.Triple.{Triple};
    ghost use Rattle.triple_catalog.specs.Rows.{AreFound, found_triples};

    ghost Value = { List Triple };

    ghost view = { λ r. found_triples r.found };

    ghost invariant = { λ r. AreFound r.found };
}

impl<'a> Rows<'a> {
    /// The number of triples.
    pub fn len(&self) -> usize
        ensures { result ≡ length self.now }
    {
        self.count()
    }

    // The same. The triples rise.
    fn count(&self) -> usize
        ensures count { result ≡ length self.now }
        ensures rising { IsRising triple_cmp self.now }
    {
        match &self.found {
            Found::ByTexts(rows) => rows.len(),
            Found::ByRanks(ranked) => ranked.keys.len(),
        }
    }

    // The texts of the triple at an index.
    fn row(&self, index: usize) -> TripleText<'a>
        requires { index < length self.now }
        ensures triple { slice_get self.now index ≡ Some (triple_of result) }
        ensures canonical { HasCanonicalTexts result }
    {
        match &self.found {
            Found::ByTexts(rows) => rows[index],
            Found::ByRanks(ranked) => ranked.row(index),
        }
    }

    /// Appends the line of the triple at a place from 0, its LF included. After `OutOfMemory` the buffer has what it had.
    pub fn write(&self, index: usize, out: &mut Vec<u8>) -> Result<(), OutOfMemory>
        requires { index < length self.now }
        ensures ok { OnOk result (IfSome (slice_get self.now index) (λ triple. out.new.items ≡ out.old.items ++ triple_text triple)) }
        ensures err { OnErr result (out.new.items ≡ out.old.items) }
    {
        write_row(&self.row(index), out)
    }

    /// The lines of the triples, in their order. The memory that they take is asked for at once.
    pub fn lines(&self, alloc: Global) -> Result<TripleLines, OutOfMemory>
        ensures { IfOk result (λ lines. AreLinesOf lines self.now) }
    {
        let mut text = Vec::with_capacity(alloc, self.size())?;
        let count = self.len();
        for index in 0..count {
            self.write(index, &mut text)?;
        }
        Ok(TripleLines { count, text })
    }

    // How many bytes the lines take, as far as a number counts them.
    fn size(&self) -> usize {
        let mut size = 0;
        for index in 0..self.count() {
            size = line_size(&self.row(index)).saturating_add(size);
        }
        size
    }

    /// The triples in memory of their own.
    pub fn to_set(&self, alloc: Global) -> Result<TripleSet, OutOfMemory>
        ensures { IfOk result (λ set. set ≡ self.now) }
    {
        let count = self.count();
        let mut triples = Vec::with_capacity(alloc, count)?;
        for index in 0..count {
            triples.push(read_row(alloc, &self.row(index))?)?;
        }
        Ok(TripleSet::from_rising(List::from_vec(triples)))
    }
}

impl Catalog {
    /// The stored triples that agree with the pattern. A wanted term costs one look-up; then it is one range of one index, and the
    /// triples of that range, three slices each, are sorted.
    pub fn matching<'a, C: StepCounter>(
        &self,
        region: &'a Region,
        pattern: &Pattern,
        steps: &mut C,
    ) -> Result<Rows<'a>, OutOfMemory>
        requires { IsStored self.now region.now }
        ensures rows { IfOk result (λ found. found ≡ rows (map.keys (counts_in self.now region.now)) pattern.now) }
        ensures cost { WithinSteps (map.len (counts_in self.now region.now)) (9 + length (rows (map.keys (counts_in self.now region.now)) pattern.now)) (C.total steps.old) (C.total steps.new) }
    {
        let Some(wanted) = self.slots_of(region, pattern) else {
            return Ok(Rows {
                found: Found::ByTexts(Vec::new(self.alloc)),
            });
        };
        let keys = self.index.range(wanted, steps)?;
        let mut rows = self.texts_of(region, keys.as_slice())?;
        sort_rows(&mut rows);
        Ok(Rows {
            found: Found::ByTexts(rows),
        })
    }

    /// All stored triples, sorted by the ranks of their terms.
    pub fn all_rows<'a>(&self, region: &'a Region) -> Result<Rows<'a>, OutOfMemory>
        requires { IsStored self.now region.now }
        ensures { IfOk result (λ found. found ≡ map.keys (counts_in self.now region.now)) }
    {
        let every = SlotPattern {
            first: None,
            second: None,
            third: None,
        };
        let keys = self.index.range(every, &mut Uncounted)?;
        if let Some(ranked) = self.ranked(region, keys.as_slice())? {
            return Ok(Rows {
                found: Found::ByRanks(ranked),
            });
        }
        let mut rows = self.texts_of(region, keys.as_slice())?;
        sort_rows(&mut rows);
        Ok(Rows {
            found: Found::ByTexts(rows),
        })
    }

    /// The triples of keys, in their own order.
    pub fn rows_of<'a>(&self, region: &'a Region, keys: &[Key]) -> Result<Rows<'a>, OutOfMemory>
        requires stored { IsStored self.now region.now }
        requires rising { IsRising key_cmp keys.now }
        requires there { (key : TheKey) → has key_cmp key keys.now ≡ true → is_key self.now key ≡ true }
        ensures { IfOk result (λ rows. rows ≡ sorted triple_cmp (triples_at self.now region.now keys.now)) }
    {
        let mut rows = self.texts_of(region, keys)?;
        sort_rows(&mut rows);
        Ok(Rows {
            found: Found::ByTexts(rows),
        })
    }

    // The texts of stored triples of slots.
    fn texts_of<'a>(
        &self,
        region: &'a Region,
        keys: &[Key],
    ) -> Result<Vec<TripleText<'a>>, OutOfMemory>
        requires stored { IsStored self.now region.now }
        requires there { (key : TheKey) → has key_cmp key keys.now ≡ true → is_key self.now key ≡ true }
        ensures triples { IfOk result (λ rows. mapped triple_of rows.items ≡ mapped (triple_at self.now.pool region.now) keys.now) }
        ensures canonical { IfOk result (λ rows. All HasCanonicalTexts rows.items) }
    {
        let mut rows = Vec::with_capacity(self.alloc, keys.len())?;
        for key in keys {
            rows.push(self.texts_at(region, *key))?;
        }
        Ok(rows)
    }

    // The texts of a stored triple of slots.
    fn texts_at<'a>(&self, region: &'a Region, key: Key) -> TripleText<'a>
        requires stored { IsStored self.now region.now }
        requires there { is_key self.now key ≡ true }
        ensures { HasTexts self.now.pool region.now key result }
    {
        TripleText {
            subject: self.pool.text(region, Slot { number: key.first }),
            predicate: self.pool.text(region, Slot { number: key.second }),
            object: self.pool.text(region, Slot { number: key.third }),
        }
    }
}

// Sorts triples by the texts of their terms. It takes no memory.
fn sort_rows(rows: &mut Vec<TripleText<'_>>)
    ensures same { IsPermutation rows.old.items rows.new.items }
    ensures sorted { IsSorted text_cmp rows.new.items }
{
    rows.sort_unstable_by(|a, b| compare_rows(a, b));
}

// Appends the line of a triple, its LF included.
fn write_row(row: &TripleText<'_>, out: &mut Vec<u8>) -> Result<(), OutOfMemory>
    requires { HasCanonicalTexts row.now }
    ensures ok { OnOk result (out.new.items ≡ out.old.items ++ triple_text (triple_of row.now)) }
    ensures err { OnErr result (out.new.items ≡ out.old.items) }
{
    let start = out.len();
    match append_row(row, out) {
        Ok(()) => Ok(()),
        Err(refused) => {
            out.truncate(start);
            Err(refused)
        }
    }
}

// Appends the line; after `OutOfMemory` a part of it may stand there.
#[tactic(auto, using(rdf_term::proofs::Appending::still_front, std::proofs::lemmas::List::append_assoc))]
fn append_row(row: &TripleText<'_>, out: &mut Vec<u8>) -> Result<(), OutOfMemory>
    ensures { Appends out.old.items out.new.items (line_of row.now) result }
{
    append_spaced(row.subject, out)?;
    append_spaced(row.predicate, out)?;
    append_spaced(row.object, out)?;
    append_bytes(b".\n", out)
}

// Appends a text and a space. The space is pushed, which costs less than a copy.
#[tactic(auto, using(rdf_term::proofs::Appending::still_front, std::proofs::lemmas::List::append_assoc))]
fn append_spaced(text: &[u8], out: &mut Vec<u8>) -> Result<(), OutOfMemory>
    ensures { Appends out.old.items out.new.items (text.now ++ 32 ∷ []) result }
{
    append_bytes(text, out)?;
    append_byte(b' ', out)
}

// Appends a byte.
#[inline(always)]
fn append_byte(byte: u8, out: &mut Vec<u8>) -> Result<(), OutOfMemory>
    ensures { Appends out.old.items out.new.items (byte ∷ []) result }
{
    out.push(byte)?;
    Ok(())
}

// Appends bytes.
fn append_bytes(bytes: &[u8], out: &mut Vec<u8>) -> Result<(), OutOfMemory>
    ensures { Appends out.old.items out.new.items bytes.now result }
{
    out.extend_from_slice(bytes)?;
    Ok(())
}
