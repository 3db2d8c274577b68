// What an exchange of parts tells.

ghost use Rattle.std.specs.Prelude.{◌≡◌, ◌<◌, true, List};
ghost use Rattle.std.specs.FinMap.{contains_key};
ghost use Rattle.sorted_sets.specs.Rising.{difference, sorted};
ghost use Rattle.rdf_term.specs.{declared.triple.Triple.Triple, Order.triple_cmp};
ghost use Rattle.entity_model.specs.declared.id.EntityId.{EntityId};
ghost use Rattle.replay_model.specs.{Records.Records, Union.Meaning, Union.union};
ghost use Rattle.triple_catalog.specs.Counts.{Counts};
ghost use Rattle.shared_triples.specs.Lean.{IsLean, OthersHoldAlike, count_in, own_of, triples_of};
ghost use Rattle.parts_exchange.specs.Exchanged.{AreMerged, IsPartsChange};
ghost use Rattle.parts_exchange.specs.declared.exchanging.PartsChange.{PartsChange};

use shared_triples::pages_and_counts_tell_the_change;

/// Where what one entity holds, or what it means, changes and all others hold the same, the change of its parts is that of the triples of
/// all pages: the union gains the triples of the lines that came, those of both parts merged, and loses the ones of the lines that are
/// gone.
pub fn parts_tell_the_change()
    ensures came { (x : EntityId) (counted : List EntityId) (m n : Meaning Triple) (p q : Counts) (before after : Records) →
        IsLean m counted (count_in p) before → IsLean n counted (count_in q) after → OthersHoldAlike x m before n after →
        ((t : Triple) → contains_key p t ≡ true → 0 < count_in p t) → ((t : Triple) → contains_key q t ≡ true → 0 < count_in q t) →
        (old new : List Triple) → sorted triple_cmp old ≡ triples_of (own_of counted m) before x →
        sorted triple_cmp new ≡ triples_of (own_of counted n) after x → (change : PartsChange) → IsPartsChange p q old new change →
        AreMerged change.own.came change.stored.came (difference triple_cmp (union triple_cmp n after) (union triple_cmp m before)) }
    ensures gone { (x : EntityId) (counted : List EntityId) (m n : Meaning Triple) (p q : Counts) (before after : Records) →
        IsLean m counted (count_in p) before → IsLean n counted (count_in q) after → OthersHoldAlike x m before n after →
        ((t : Triple) → contains_key p t ≡ true → 0 < count_in p t) → ((t : Triple) → contains_key q t ≡ true → 0 < count_in q t) →
        (old new : List Triple) → sorted triple_cmp old ≡ triples_of (own_of counted m) before x →
        sorted triple_cmp new ≡ triples_of (own_of counted n) after x → (change : PartsChange) → IsPartsChange p q old new change →
        AreMerged change.own.gone change.stored.gone (difference triple_cmp (union triple_cmp m before) (union triple_cmp n after)) }
{
    pages_and_counts_tell_the_change();
}
