// Where the keys of the triples that come are found.

ghost use Rattle.std.specs.Prelude.{◌≡◌, ◌<◌, true, false, length, Some, IfSome, IfErr, IfNone, IfOk, IsTrue};
ghost use Rattle.sorted_sets.specs.Rising.{IsRising, has};
ghost use Rattle.term_pool.specs.Pool.{IsNowhere, LiesIn, text_in_slot};
ghost use Rattle.slot_keys.specs.{declared.key.Key.Key as TheKey, Added.is_held, Keys.key_cmp};
ghost use Rattle.triple_catalog.specs.{Interning.AreHints, Interning.IsOfSubject, Interning.IsOfTripleBefore, Slots.HasTexts, Stored.IsStored};

use crate::catalog::Catalog;
use crate::interning::Hints;
use slot_keys::{Added, Key, KeySlices, NOWHERE, Seen, behind, narrowed};
use term_pool::Pool;
use text_region::Region;
use triple_texts::{TripleText, TripleTexts};

// How many indices of the walk are tried for the next triple: a triple or two may be gone.
const TRIED: usize = 3;

// Where a triple is looked for first: among the keys that the owner had, from an index of their walk on, and in the slots of the key before
// it or those that came a short time ago. The slot of its subject may be known.
#[derive(Clone, Copy)]
pub(crate) struct Near<'a> {
    pub(crate) subject: Option<u32>,
    pub(crate) last: Option<Key>,
    pub(crate) seen: &'a Seen,
    pub(crate) old: KeySlices<'a>,
    pub(crate) next: usize,
}

// A key that is at hand, its index among the old ones where it was found there, and where the walk goes on.
#[derive(Clone, Copy)]
pub(crate) struct Found {
    pub(crate) key: Key,
    pub(crate) old_index: u32,
    pub(crate) next: usize,
}

impl Catalog {
    // The key of the triple with these texts, if it is among the old ones or those that were added, and otherwise the slots of its terms
    // that are there.
    pub(crate) fn find_held(
        &self,
        region: &Region,
        texts: &TripleText<'_>,
        near: Near<'_>,
        added: &Added,
    ) -> Result<Found, Hints>
        requires stored { IsStored self.now region.now }
        requires rising { IsRising key_cmp near.old.rising.now }
        requires known { IfSome near.subject (λ slot. text_in_slot self.now.pool region.now slot ≡ Some texts.now.subject.now) }
        ensures texts { IfOk result (λ found. HasTexts self.now.pool region.now found.key texts.now) }
        ensures held { IfOk result (λ found. is_held near.entry.old.rising.now added.now found.key ≡ true) }
        ensures none { IfErr result (λ _. (key : TheKey) → HasTexts self.now.pool region.now key texts.now → is_held near.entry.old.rising.now added.now key ≡ false) }
        ensures hints { IfErr result (λ hints. AreHints self.now.pool region.now hints texts.now) }
    {
        if let Some(found) = self.find_again(region, texts, near) {
            return Ok(found);
        }
        let key = match self.find_key(region, texts, near) {
            Ok(key) => key,
            Err(hints) => return Err(hints),
        };
        let next = near.next;
        if let Ok(old_index) = near.old.rising.binary_search(&key) {
            let old_index = narrowed(old_index);
            let next = behind(near.old.walk, next, old_index);
            return Ok(Found {
                key,
                old_index,
                next,
            });
        }
        if added.contains(&key) {
            let old_index = NOWHERE;
            Ok(Found {
                key,
                old_index,
                next,
            })
        } else {
            Err(Hints {
                subject: Some(key.first),
                predicate: Some(key.second),
                object: Some(key.third),
            })
        }
    }

    // The key of the triple with these texts, where the walk that the old keys have comes to it next. What stays mostly comes
    // in the order in which it came before, so this saves most look-ups.
    fn find_again(&self, region: &Region, texts: &TripleText<'_>, near: Near<'_>) -> Option<Found>
        requires stored { IsStored self.now region.now }
        requires known { IfSome near.subject (λ slot. text_in_slot self.now.pool region.now slot ≡ Some texts.now.subject.now) }
        ensures texts { IfSome result (λ found. HasTexts self.now.pool region.now found.key texts.now) }
        ensures there { IfSome result (λ found. has key_cmp found.key near.entry.old.rising.now ≡ true) }
    {
        for past in 0..TRIED {
            let at = near.next.saturating_add(past);
            let old_index = *near.old.walk.get(at)?;
            let Some(key) = near.old.rising.get(old_index as usize) else {
                continue;
            };
            if self.has_texts(region, *key, texts, near.subject) {
                return Some(Found {
                    key: *key,
                    old_index,
                    next: at.saturating_add(1),
                });
            }
        }
        None
    }

    // The triple of slots with these texts, if each of them is there; the triple need not be stored. The slot of the subject may be known.
    // Otherwise subject and predicate are tried first in the slots that they have in a triple near by, since triples that follow each other
    // mostly share one of them. If one has no slot, the answer is the slots of those before it. Takes no memory.
    fn find_key(
        &self,
        region: &Region,
        texts: &TripleText<'_>,
        near: Near<'_>,
    ) -> Result<Key, Hints>
        requires stored { IsStored self.now region.now }
        requires known { IfSome near.subject (λ slot. text_in_slot self.now.pool region.now slot ≡ Some texts.now.subject.now) }
        ensures found { IfOk result (λ key. HasTexts self.now.pool region.now key texts.now) }
        ensures nowhere { IfErr result (λ _. (key : TheKey) → HasTexts self.now.pool region.now key texts.now → ⊥) }
        ensures hints { IfErr result (λ hints. AreHints self.now.pool region.now hints texts.now) }
    {
        let mut hints = Hints {
            subject: None,
            predicate: None,
            object: None,
        };
        let pool = &self.pool;
        let last = near.last.map(|key| key.first);
        let Some(subject) = find_known(pool, region, texts.subject, near, last) else {
            return Err(hints);
        };
        hints.subject = Some(subject);
        let last = near.last.map(|key| key.second);
        let Some(predicate) = find_near(pool, region, texts.predicate, near.seen, last) else {
            return Err(hints);
        };
        hints.predicate = Some(predicate);
        let Some(object) = find_near(pool, region, texts.object, near.seen, None) else {
            return Err(hints);
        };
        Ok(Key {
            first: subject,
            second: predicate,
            third: object,
        })
    }

    // Whether the three slots have these texts, which costs no look-up. The slot of the subject may be known: then its text isn't
    // looked at.
    pub fn has_texts(
        &self,
        region: &Region,
        key: Key,
        texts: &TripleText<'_>,
        known: Option<u32>,
    ) -> bool
        requires stored { IsStored self.now region.now }
        requires known { IfSome known (λ slot. text_in_slot self.now.pool region.now slot ≡ Some texts.now.subject.now) }
        ensures { IsTrue result → HasTexts self.now.pool region.now key texts.now }
    {
        has_known(&self.pool, region, key.first, texts.subject, known)
            && self.pool.has_text(region, key.second, texts.predicate)
            && self.pool.has_text(region, key.third, texts.object)
    }
}

// The slot of the subject of the triple at an index, where it is known to be that of the triple before, whose key was the last one.
pub(crate) fn known_subject(
    pool: &Pool,
    region: &Region,
    triples: &TripleTexts,
    index: usize,
    last: Option<Key>,
) -> Option<u32>
    requires lies { LiesIn pool.now region.now }
    requires within { index < length triples.now }
    requires last { IfSome last (λ key. IsOfTripleBefore pool.now region.now key triples.now index) }
    ensures { IsOfSubject pool.now region.now result triples.now index }
{
    if triples.repeats_subject(index) {
        Some(last?.first)
    } else {
        None
    }
}

// The slot with this text; the last one and one that was seen are tried first.
fn find_near(
    pool: &Pool,
    region: &Region,
    text: &[u8],
    seen: &Seen,
    last: Option<u32>,
) -> Option<u32>
    requires { LiesIn pool.now region.now }
    ensures found { IfSome result (λ slot. text_in_slot pool.now region.now slot ≡ Some text.now) }
    ensures nowhere { IfNone result (IsNowhere pool.now region.now text.now) }
{
    if let Some(number) = last {
        if pool.has_text(region, number, text) {
            return Some(number);
        }
    }
    if let Some(number) = seen.slot(text) {
        if pool.has_text(region, number, text) {
            return Some(number);
        }
    }
    let slot = pool.find_text(region, text)?;
    Some(slot.number)
}

// The slot with the text of a subject: the one that is known, or else the last one is tried first.
fn find_known(
    pool: &Pool,
    region: &Region,
    text: &[u8],
    near: Near<'_>,
    last: Option<u32>,
) -> Option<u32>
    requires lies { LiesIn pool.now region.now }
    requires known { IfSome near.subject (λ slot. text_in_slot pool.now region.now slot ≡ Some text.now) }
    ensures found { IfSome result (λ slot. text_in_slot pool.now region.now slot ≡ Some text.now) }
    ensures nowhere { IfNone result (IsNowhere pool.now region.now text.now) }
{
    match near.subject {
        Some(slot) => Some(slot),
        None => find_near(pool, region, text, near.seen, last),
    }
}

// Whether the slot has this text: where a slot with it is known, whether it is this one.
fn has_known(pool: &Pool, region: &Region, number: u32, text: &[u8], known: Option<u32>) -> bool
    requires lies { LiesIn pool.now region.now }
    requires known { IfSome known (λ slot. text_in_slot pool.now region.now slot ≡ Some text.now) }
    ensures { IsTrue result → text_in_slot pool.now region.now number ≡ Some text.now }
{
    match known {
        Some(slot) => slot == number,
        None => pool.has_text(region, number, text),
    }
}
