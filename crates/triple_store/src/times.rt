// How many times each triple of one owner comes.

ghost use Rattle.std.specs.Prelude.{◌≡◌, ◌<◌, ℕ, true, List, length, get_or, Some, IfNone, IfSome};
ghost use Rattle.sorted_sets.specs.Rising.{IsRising, has};
ghost use Rattle.slot_keys.specs.{declared.key.Key.Key as TheKey, Keys.key_cmp};
ghost use Rattle.triple_catalog.specs.{Slots.HasTexts, Stored.IsStored, Stored.is_key};
ghost use Rattle.rdf_term.specs.declared.triple.Triple.{Triple};
ghost use Rattle.triple_store.specs.Times.{AddTimes, AreLeftWithout, AreTimesOf, Exceeds};

use slot_keys::{Key, KeySlices, hinted, index_from};
use text_region::Region;
use triple_catalog::Catalog;
use triple_texts::{TripleText, TripleTexts};

// What is left of the counts of the keys after the triples are gone. None where a triple is gone that has none of the keys, or more often than
// its key's count says. The walk is a hint: where it comes to a triple's key, this takes no look-up.
pub(crate) fn less_times(
    catalog: &Catalog,
    region: &Region,
    keys: KeySlices<'_>,
    counts: Vec<u16>,
    triples: &TripleTexts,
) -> Option<Vec<u16>>
    requires stored { IsStored catalog.now region.now }
    requires rising { IsRising key_cmp keys.rising.now }
    requires there { (key : TheKey) → has key_cmp key keys.rising.now ≡ true → is_key catalog.now key ≡ true }
    requires as_many { length counts.items ≡ length keys.rising.now }
    ensures left { IfSome result (λ left. AddTimes catalog.now region.now keys.entry.rising.now left.items counts.items triples.now) }
    ensures none { IfNone result ((before : List Triple) → AreTimesOf catalog.now region.now keys.entry.rising.now counts.items before → Exceeds triples.now before) }
{
    let mut left = counts;
    for index in 0..triples.len() {
        let texts = triples.get(index);
        let at = index_of(catalog, region, keys, &texts, index)?;
        left[at] = left[at].checked_sub(1)?;
    }
    Some(left)
}

// What is left of the keys, of which each counts once, after the triples are gone. One that has none of the keys, or that is gone already,
// changes nothing. The walk is a hint: where it comes to a triple's key, this takes no look-up.
pub(crate) fn once_without(
    catalog: &Catalog,
    region: &Region,
    keys: KeySlices<'_>,
    ones: Vec<u16>,
    gone: &TripleTexts,
) -> Vec<u16>
    requires stored { IsStored catalog.now region.now }
    requires rising { IsRising key_cmp keys.rising.now }
    requires there { (key : TheKey) → has key_cmp key keys.rising.now ≡ true → is_key catalog.now key ≡ true }
    requires as_many { length ones.items ≡ length keys.rising.now }
    requires once { (index : ℕ) → index < length ones.items → get_or ones.items index 0 ≡ 1 }
    ensures { AreLeftWithout catalog.now region.now keys.entry.rising.now result.items gone.now }
{
    let mut left = ones;
    for index in 0..gone.len() {
        let texts = gone.get(index);
        if let Some(at) = index_of(catalog, region, keys, &texts, index) {
            left[at] = 0;
        }
    }
    left
}

// The index of the key of a triple, by its texts. Where the walk comes to it at the place, this takes no look-up.
fn index_of(
    catalog: &Catalog,
    region: &Region,
    keys: KeySlices<'_>,
    texts: &TripleText<'_>,
    place: usize,
) -> Option<usize>
    requires stored { IsStored catalog.now region.now }
    requires rising { IsRising key_cmp keys.rising.now }
    ensures within { IfSome result (λ index. index < length keys.entry.rising.now) }
    ensures texts { IfSome result (λ index. (other : TheKey) → HasTexts catalog.now.pool region.now (get_or keys.entry.rising.now index other) texts.now) }
    ensures none { IfNone result ((key : TheKey) → has key_cmp key keys.entry.rising.now ≡ true → HasTexts catalog.now.pool region.now key texts.now → ⊥) }
{
    if let Some(index) = hinted(keys, place) {
        if catalog.has_texts(region, keys.rising[index], texts, None) {
            return Some(index);
        }
    }
    let key = key_of_texts(catalog, region, texts)?;
    index_from(keys.rising, key, place)
}

// The triple of slots with these texts.
fn key_of_texts(catalog: &Catalog, region: &Region, texts: &TripleText<'_>) -> Option<Key>
    requires { IsStored catalog.now region.now }
    ensures texts { IfSome result (λ key. HasTexts catalog.now.pool region.now key texts.now) }
    ensures nowhere { IfNone result ((key : TheKey) → HasTexts catalog.now.pool region.now key texts.now → ⊥) }
{
    let first = catalog.pool.find_text(region, texts.subject)?;
    let second = catalog.pool.find_text(region, texts.predicate)?;
    let third = catalog.pool.find_text(region, texts.object)?;
    Some(Key {
        first: first.number,
        second: second.number,
        third: third.number,
    })
}
