// A triple of slots.

ghost use Rattle.std.specs.Prelude.{◌≡◌, refl};
ghost use Rattle.std.specs.Cmp.{partial_equiv_from_equiv, eq_by_cmp_equiv, partial_order_from_total};
ghost use Rattle.std.specs.Ordering.{as_partial_cmp, eq_by_cmp, nat_cmp, ordering_then};
ghost use Rattle.slot_keys.specs.Keys.{FitsSlots, key_cmp, key_cmp-total, key_cmp-IsAntisymmetric, turned};

use comparison_steps::{Ranked, StepCounter};
use std::cmp::Ordering;

/// A triple of slots, ordered by the first, then the second, then the third. The triple itself has subject,
/// predicate and object; turned once it has predicate, object and subject, and turned twice object, subject
/// and predicate.
#[derive(Clone, Copy)]
pub struct Key {
    /// The subject's slot, where the triple isn't turned.
    pub first: u32,
    /// The predicate's.
    pub second: u32,
    /// The object's.
    pub third: u32,
}

impl Key {
    /// The triple with its first slot at the end.
    pub fn turned(self) -> Key
        ensures turned { result ≡ turned self }
        ensures fit { FitsSlots self }
    {
        Key {
            first: self.second,
            second: self.third,
            third: self.first,
        }
    }

    // The order by the second slot, then the third.
    fn compare_rest(&self, other: &Key) -> Ordering
        ensures { result ≡ ordering_then (nat_cmp self.now.second other.now.second) (nat_cmp self.now.third other.now.third) }
    {
        match self.second.cmp(&other.second) {
            Ordering::Equal => self.third.cmp(&other.third),
            decided => decided,
        }
    }
}

impl PartialEq for Key {
    ghost eq = { eq_by_cmp key_cmp };

    ghost laws = { partial_equiv_from_equiv (eq_by_cmp_equiv key_cmp-total) };

    fn eq(&self, other: &Key) -> bool {
        self.cmp(other) == Ordering::Equal
    }
}

impl Eq for Key {
    ghost laws = { eq_by_cmp_equiv key_cmp-total };
}

impl Ord for Key {
    ghost cmp = { key_cmp };

    ghost total = { key_cmp-total };

    ghost matches_partial_cmp = { λ x y. refl };

    ghost matches_eq = { λ x y. refl };

    fn cmp(&self, other: &Key) -> Ordering {
        match self.first.cmp(&other.first) {
            Ordering::Equal => self.compare_rest(other),
            decided => decided,
        }
    }
}

impl PartialOrd for Key {
    ghost partial_cmp = { as_partial_cmp key_cmp };

    ghost laws = { partial_order_from_total key_cmp-total };

    fn partial_cmp(&self, other: &Key) -> Option<Ordering> {
        Some(self.cmp(other))
    }
}

impl Ranked for Key {
    ghost cmp = { key_cmp };

    ghost total = { key_cmp-total };

    ghost same = { key_cmp-IsAntisymmetric };

    fn rank<C: StepCounter>(&self, other: &Key, steps: &mut C) -> Ordering {
        steps.tick();
        self.cmp(other)
    }
}
