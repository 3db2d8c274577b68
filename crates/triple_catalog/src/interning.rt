// The terms of a triple, used once more and once less.

ghost use Rattle.std.specs.Prelude.{◌≡◌, ℕ, ◌<◌, ◌≤◌, List, Err, IfOk, OnErr};
ghost use Rattle.rdf_term.specs.declared.term.Term.{Term};
ghost use Rattle.text_region.specs.Region.{Texts};
ghost use Rattle.term_pool.specs.Pool.{LiesIn, KeepsBeside, SameSlots, count_at};
ghost use Rattle.triple_catalog.specs.Interning.{AreHints, HasTermsOf, InternsTriple, ReleasesTriple};
ghost use Rattle.triple_catalog.specs.{Room.distinct, Room.terms_of, Slots.HasCanonicalTexts, Slots.IsAllOf, Slots.triple_of, Slots.uses};

use slot_keys::Key;
use term_pool::{Pool, PoolFault, Slot};
use text_region::Region;
use triple_texts::TripleText;

// The slots of the terms of a triple, as far as they are known.
#[derive(Clone, Copy)]
pub struct Hints {
    pub subject: Option<u32>,
    pub predicate: Option<u32>,
    pub object: Option<u32>,
}

// Uses each term of the triple with these texts once more, and takes in those that aren't there. After a fault each slot
// has what it had.
pub(crate) fn intern_triple(
    pool: &mut Pool,
    region: &mut Region,
    texts: &TripleText<'_>,
    hints: Hints,
) -> Result<Key, PoolFault>
    requires lies { LiesIn pool.old region.old }
    requires canonical { HasCanonicalTexts texts.now }
    requires hints { AreHints pool.old region.old hints texts.now }
    ensures lies { LiesIn pool.new region.new }
    ensures ok { IfOk result (λ key. InternsTriple pool.old region.old pool.new region.new key texts.now) }
    ensures err { OnErr result (SameSlots pool.old region.old pool.new region.new) }
    ensures full { result ≡ Err PoolFault.Full → (terms : List Term) → HasTermsOf pool.old region.old terms → IsAllOf (terms_of (triple_of texts.now)) terms → pool.old.limit < distinct terms }
    ensures beside { KeepsBeside pool.old region.old pool.new region.new }
    ensures limit { pool.new.limit ≡ pool.old.limit }
{
    let subject = match pool.intern_known(region, texts.subject, hints.subject) {
        Ok(slot) => slot,
        Err(refused) => return Err(refused),
    };
    let predicate = match pool.intern_known(region, texts.predicate, hints.predicate) {
        Ok(slot) => slot,
        Err(refused) => {
            pool.release(region, subject);
            return Err(refused);
        }
    };
    let object = match pool.intern_known(region, texts.object, hints.object) {
        Ok(slot) => slot,
        Err(refused) => {
            pool.release(region, predicate);
            pool.release(region, subject);
            return Err(refused);
        }
    };
    Ok(Key {
        first: subject.number,
        second: predicate.number,
        third: object.number,
    })
}

// Uses each term of a triple of slots once less.
pub(crate) fn release_triple(pool: &mut Pool, region: &mut Region, key: Key)
    requires lies { LiesIn pool.old region.old }
    requires used { (slot : ℕ) → uses slot key ≤ count_at pool.old slot }
    ensures lies { LiesIn pool.new region.new }
    ensures gone { ReleasesTriple pool.old region.old pool.new region.new key }
    ensures beside { KeepsBeside pool.old region.old pool.new region.new }
    ensures limit { pool.new.limit ≡ pool.old.limit }
{
    pool.release(region, Slot { number: key.third });
    pool.release(region, Slot { number: key.second });
    pool.release(region, Slot { number: key.first });
}
