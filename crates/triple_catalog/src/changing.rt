// One owner of a triple more or less.

ghost use Rattle.std.specs.Prelude.{◌≡◌, ◌<◌, true, Err, IfOk, List, OnErr, OnOk};
ghost use Rattle.std.specs.FinMap as map;
ghost use Rattle.rdf_term.specs.{declared.term.Term.Term, declared.triple.Triple.Triple};
ghost use Rattle.text_region.specs.declared.piece.Piece.{Piece as ThePiece};
ghost use Rattle.slot_keys.specs.declared.key.Key.{Key as TheKey};
ghost use Rattle.triple_catalog.specs.{Costs.Costs, Counts.count_of, Counts.lowered, Counts.raised, Interning.AreHints};
ghost use Rattle.triple_catalog.specs.Room.{distinct, terms_of};
ghost use Rattle.triple_catalog.specs.Slots.{HasCanonicalTexts, HasTermsIn, IsAllOf, triple_at, triple_of};
ghost use Rattle.triple_catalog.specs.Stored.{HasKey, IsStored, KeepsKeys, beside, counts_in, is_key, limit_of};

use crate::catalog::Catalog;
use crate::interning::{Hints, intern_triple, release_triple};
use comparison_steps::StepCounter;
use slot_keys::Key;
use term_pool::PoolFault;
use text_region::Region;
use triple_texts::TripleText;

impl Catalog {
    /// Counts one owner more of the triple with these texts, which is taken in where it isn't stored. After a fault every
    /// triple has the count that it had.
    pub(crate) fn add<C: StepCounter>(
        &mut self,
        region: &mut Region,
        texts: &TripleText<'_>,
        hints: Hints,
        steps: &mut C,
    ) -> Result<Key, PoolFault>
        requires stored { IsStored self.old region.old }
        requires canonical { HasCanonicalTexts texts.now }
        requires hints { AreHints self.old.pool region.old hints texts.now }
        requires countable { count_of (counts_in self.old region.old) (triple_of texts.now) < 18446744073709551615 }
        ensures stored { IsStored self.new region.new }
        ensures ok { OnOk result (counts_in self.new region.new ≡ raised (counts_in self.old region.old) (triple_of texts.now)) }
        ensures key { IfOk result (λ key. HasKey self.new region.new key (triple_of texts.now)) }
        ensures err { OnErr result (counts_in self.new region.new ≡ counts_in self.old region.old) }
        ensures full { result ≡ Err PoolFault.Full → (terms : List Term) → HasTermsIn (counts_in self.old region.old) terms → IsAllOf (terms_of (triple_of texts.now)) terms → limit_of self.old < distinct terms }
        ensures kept { (key : TheKey) (triple : Triple) → HasKey self.old region.old key triple → HasKey self.new region.new key triple }
        ensures beside { (piece : ThePiece) → beside self.new region.new piece ≡ beside self.old region.old piece }
        ensures limit { limit_of self.new ≡ limit_of self.old }
        ensures cost { Costs (map.len self.old.index) (map.len self.new.index) 1 0 (C.total steps.old) (C.total steps.new) }
    {
        let key = match intern_triple(&mut self.pool, region, texts, hints) {
            Ok(key) => key,
            Err(fault) => return Err(fault),
        };
        match self.index.raise(key, steps) {
            Ok(true) => Ok(key),
            Ok(false) => {
                release_triple(&mut self.pool, region, key);
                Ok(key)
            }
            Err(_) => {
                release_triple(&mut self.pool, region, key);
                Err(PoolFault::OutOfMemory)
            }
        }
    }

    /// Counts one owner less of a stored triple, which goes with its last owner. Takes no memory.
    pub(crate) fn remove<C: StepCounter>(&mut self, region: &mut Region, key: Key, steps: &mut C)
        requires stored { IsStored self.old region.old }
        requires there { is_key self.old key ≡ true }
        ensures stored { IsStored self.new region.new }
        ensures lowered { counts_in self.new region.new ≡ lowered (counts_in self.old region.old) (triple_at self.old.pool region.old key) }
        ensures keeps { KeepsKeys self.old region.old self.new region.new }
        ensures beside { (piece : ThePiece) → beside self.new region.new piece ≡ beside self.old region.old piece }
        ensures limit { limit_of self.new ≡ limit_of self.old }
        ensures cost { Costs (map.len self.old.index) (map.len self.new.index) 0 1 (C.total steps.old) (C.total steps.new) }
    {
        if self.index.lower(key, steps) {
            release_triple(&mut self.pool, region, key);
        }
    }
}
