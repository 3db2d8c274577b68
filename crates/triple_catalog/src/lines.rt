// The triples that have one owner: their lines, and whether there is one.

ghost use Rattle.std.specs.Prelude.{◌≡◌, ◌<◌, ◌^◌, true, length, nat_lt, IfOk};
ghost use Rattle.std.specs.FinMap as map;
ghost use Rattle.sorted_sets.specs.Rising.{IsRising, has, sorted};
ghost use Rattle.rdf_term.specs.Order.{triple_cmp};
ghost use Rattle.slot_keys.specs.{declared.key.Key.Key as TheKey, Keys.key_cmp};
ghost use Rattle.triple_catalog.specs.{Costs.Costs, Lines.AreLinesOf, Lines.sole, Moves.triples_at, Rows.line_of, Stored.IsStored, Stored.is_key};

use crate::catalog::Catalog;
use comparison_steps::StepCounter;
use rdf_term::OutOfMemory;
use slot_keys::{Key, find_from};
use text_region::Region;
use triple_texts::TripleText;

/// The lines of triples in rising order, each with its LF, and the number of the triples.
#[derive(Drop)]
pub struct TripleLines {
    pub count: usize,
    pub text: Vec<u8>,
}

/// How many bytes the line of a triple takes by its texts, its LF included, as far as a number counts them.
pub fn line_size(texts: &TripleText<'_>) -> usize
    ensures { length (line_of texts.now) < 2 ^ 64 → result ≡ length (line_of texts.now) }
{
    let named = texts.subject.len().saturating_add(texts.predicate.len());
    named.saturating_add(texts.object.len()).saturating_add(5)
}

impl Catalog {
    /// The lines of the triples with one owner whose keys are these, but for the keys that are among others.
    pub fn sole_lines<C: StepCounter>(
        &self,
        region: &Region,
        keys: &[Key],
        others: &[Key],
        steps: &mut C,
    ) -> Result<TripleLines, OutOfMemory>
        requires stored { IsStored self.now region.now }
        requires rising { IsRising key_cmp keys.now }
        requires others { IsRising key_cmp others.now }
        requires there { (key : TheKey) → has key_cmp key keys.now ≡ true → is_key self.now key ≡ true }
        ensures lines { IfOk result (λ lines. AreLinesOf lines (sorted triple_cmp (triples_at self.now region.now (sole self.now keys.now others.now)))) }
        ensures cost { Costs (map.len self.now.index) (map.len self.now.index) 0 (length keys.now) (C.total steps.old) (C.total steps.new) }
    {
        let found = self.sole_keys(keys, others, steps)?;
        let rows = self.rows_of(region, found.as_slice())?;
        rows.lines(self.alloc)
    }

    /// Whether one of these keys has one owner, but for those that are among others. It takes no memory, and stops at the first.
    pub fn has_sole<C: StepCounter>(&self, keys: &[Key], others: &[Key], steps: &mut C) -> bool
        requires others { IsRising key_cmp others.now }
        ensures some { result ≡ nat_lt 0 (length (sole self.now keys.now others.now)) }
        ensures cost { Costs (map.len self.now.index) (map.len self.now.index) 0 (length keys.now) (C.total steps.old) (C.total steps.new) }
    {
        let mut next = 0;
        for key in keys {
            match find_from(others, *key, next) {
                Ok(index) => next = index + 1,
                Err(index) => {
                    next = index;
                    if self.index.count(*key, steps) == 1 {
                        return true;
                    }
                }
            }
        }
        false
    }

    // The keys with one owner, but for those that are among others.
    fn sole_keys<C: StepCounter>(
        &self,
        keys: &[Key],
        others: &[Key],
        steps: &mut C,
    ) -> Result<Vec<Key>, OutOfMemory>
        requires others { IsRising key_cmp others.now }
        ensures sole { IfOk result (λ found. found.items ≡ sole self.now keys.now others.now) }
        ensures cost { Costs (map.len self.now.index) (map.len self.now.index) 0 (length keys.now) (C.total steps.old) (C.total steps.new) }
    {
        let mut found = Vec::new(self.alloc);
        let mut next = 0;
        for key in keys {
            match find_from(others, *key, next) {
                Ok(index) => next = index + 1,
                Err(index) => {
                    next = index;
                    if self.index.count(*key, steps) == 1 {
                        found.push(*key)?;
                    }
                }
            }
        }
        Ok(found)
    }
}
