// All stored triples in their order, by the ranks of their terms.

ghost use Rattle.std.specs.Prelude.{◌≡◌, ◌<◌, length, map as mapped, slice_get, IfOk, IfSome, Some};
ghost use Rattle.std.specs.{List.Sorted.IsPermutation, List.Sorted.IsSorted};
ghost use Rattle.rdf_term.specs.Order.{triple_cmp};
ghost use Rattle.term_pool.specs.Pool.{text_in_slot};
ghost use Rattle.triple_catalog.specs.Ranks.{AreRankedRows, AreTextsOf, ranked_triples, text_order};
ghost use Rattle.triple_catalog.specs.{Slots.HasCanonicalTexts, Slots.triple_at, Slots.triple_of, Stored.IsStored};

use crate::catalog::Catalog;
use rdf_term::OutOfMemory;
use slot_keys::{Key, SlotText, highest_slot, ranked_keys, ranks_of};
use text_region::Region;
use triple_texts::TripleText;

// Triples whose terms are named by their ranks: the indices in a rising list of texts.
#[derive(Drop)]
pub(crate) struct Ranked<'a> {
    pub(crate) terms: Vec<SlotText<'a>>,
    pub(crate) keys: Vec<Key>,
}

impl<'a> Ranked<'a> {
    // The texts of the triple at an index.
    pub(crate) fn row(&self, index: usize) -> TripleText<'a>
        requires index { index < length self.now.keys.items }
        requires rows { AreRankedRows self.now }
        ensures triple { slice_get (ranked_triples self.now) index ≡ Some (triple_of result) }
        ensures canonical { HasCanonicalTexts result }
    {
        let key = self.keys[index];
        TripleText {
            subject: self.terms[key.first as usize].text,
            predicate: self.terms[key.second as usize].text,
            object: self.terms[key.third as usize].text,
        }
    }
}

impl Catalog {
    // The triples of keys in their order. Each term of the store is ranked once, by its text, and then the triples are sorted by the ranks.
    // `None` where a key has a slot without a rank: a stored triple has none.
    pub(crate) fn ranked<'a>(
        &self,
        region: &'a Region,
        keys: &[Key],
    ) -> Result<Option<Ranked<'a>>, OutOfMemory>
        requires { IsStored self.now region.now }
        ensures same { IfOk result (λ found. IfSome found (λ ranked. IsPermutation (mapped (triple_at self.now.pool region.now) keys.now) (ranked_triples ranked))) }
        ensures sorted { IfOk result (λ found. IfSome found (λ ranked. IsSorted triple_cmp (ranked_triples ranked))) }
        ensures rows { IfOk result (λ found. IfSome found AreRankedRows) }
    {
        let slots = highest_slot(keys).saturating_add(1);
        let terms = self.terms_by_text(region, slots)?;
        let ranks = ranks_of(self.alloc, terms.as_slice(), slots as usize)?;
        let Some(keys) = ranked_keys(self.alloc, terms.as_slice(), ranks.as_slice(), keys)? else {
            return Ok(None);
        };
        let mut keys = keys;
        keys.sort_unstable();
        Ok(Some(Ranked { terms, keys }))
    }

    // The terms in the first slots, so many as it says, in the order of their texts.
    fn terms_by_text<'a>(
        &self,
        region: &'a Region,
        slots: u32,
    ) -> Result<Vec<SlotText<'a>>, OutOfMemory>
        requires { IsStored self.now region.now }
        ensures texts { IfOk result (λ terms. AreTextsOf self.now.pool region.now terms.items) }
        ensures sorted { IfOk result (λ terms. IsSorted text_order terms.items) }
    {
        let mut terms = Vec::new(self.alloc);
        for slot in 0..slots {
            let Some(text) = self.pool.text_at(region, slot) else {
                continue;
            };
            terms.push(SlotText { text, slot })?;
        }
        sort_terms(&mut terms);
        Ok(terms)
    }
}

// Sorts terms by their texts. It takes no memory.
fn sort_terms(terms: &mut Vec<SlotText<'_>>)
    ensures same { IsPermutation terms.old.items terms.new.items }
    ensures sorted { IsSorted text_order terms.new.items }
{
    terms.sort_unstable_by(|a, b| a.text.cmp(b.text));
}
