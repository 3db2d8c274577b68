// The slots of a triple, and those that a pattern wants.

ghost use Rattle.std.specs.Prelude.{◌≡◌, ◌<◌, ℕ, true, IfNone, IfSome};
ghost use Rattle.rdf_term.specs.Pattern.{agrees, agrees_at};
ghost use Rattle.term_pool.specs.Pool.{LiesIn, count_at, text_in_slot};
ghost use Rattle.slot_keys.specs.declared.key.Key.{Key as TheKey};
ghost use Rattle.triple_catalog.specs.Matching.{key_agrees, slot_agrees};
ghost use Rattle.triple_catalog.specs.{Slots.HasTriple, Slots.term_in, Slots.triple_at, Stored.IsStored, Stored.is_key};

use crate::catalog::Catalog;
use rdf_term::{Pattern, Term, Triple};
use slot_index::SlotPattern;
use slot_keys::Key;
use term_pool::Pool;
use text_region::Region;

impl Catalog {
    /// The triple of slots of a triple, where each of its terms is in one.
    pub fn key_of(&self, region: &Region, triple: &Triple) -> Option<Key>
        requires { IsStored self.now region.now }
        ensures found { IfSome result (λ key. HasTriple self.now.pool region.now key triple.now) }
        ensures nowhere { IfNone result ((key : TheKey) → HasTriple self.now.pool region.now key triple.now → ⊥) }
    {
        let first = self.pool.find(region, &triple.subject)?;
        let second = self.pool.find(region, &triple.predicate)?;
        let third = self.pool.find(region, &triple.object)?;
        Some(Key {
            first: first.number,
            second: second.number,
            third: third.number,
        })
    }

    /// The pattern of slots; `None` where a wanted term is in none.
    pub fn slots_of(&self, region: &Region, pattern: &Pattern) -> Option<SlotPattern>
        requires { IsStored self.now region.now }
        ensures { (key : TheKey) → is_key self.now key ≡ true → agrees pattern.now (triple_at self.now.pool region.now key) ≡ key_agrees result key }
    {
        let first = slot_of(&self.pool, region, &pattern.subject)?;
        let second = slot_of(&self.pool, region, &pattern.predicate)?;
        let third = slot_of(&self.pool, region, &pattern.object)?;
        Some(SlotPattern {
            first,
            second,
            third,
        })
    }
}

// The slot that is wanted at a place, or none where each agrees; `None` where the wanted term is in no slot.
fn slot_of(pool: &Pool, region: &Region, wanted: &Option<Term>) -> Option<Option<u32>>
    requires { LiesIn pool.now region.now }
    ensures { (slot : ℕ) → 0 < count_at pool.now slot → agrees_at wanted.now (term_in (text_in_slot pool.now region.now slot)) ≡ slot_agrees result slot }
{
    let Some(term) = wanted else {
        return Some(None);
    };
    let slot = pool.find(region, term)?;
    Some(Some(slot.number))
}
