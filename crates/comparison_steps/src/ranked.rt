// What an index asks of its keys.

ghost use Rattle.std.specs.Prelude.{◌≡◌, ◌+◌, ◌≤◌};
ghost use Rattle.std.specs.{declared.cmp.Ordering.Ordering, Cmp.IsTotalOrder, FinMap.IsAntisymmetric};

use crate::steps::StepCounter;
use std::cmp::Ordering;

/// A key that is compared by a total order in which only equal keys tie. Each comparison is one step.
pub trait Ranked: Copy {
    ghost cmp: { Self → Self → Ordering };

    /// How the key stands to another, for one step.
    fn rank<C: StepCounter>(&self, other: &Self, steps: &mut C) -> Ordering
        ensures value { result ≡ cmp self.now other.now }
        ensures counted { C.total steps.new ≡ C.total steps.old + C.weight }
        ensures forward { C.total steps.old ≤ C.total steps.new }
        ensures step { C.total steps.new ≤ C.total steps.old + 1 };

    ghost total: { IsTotalOrder cmp };

    ghost same: { IsAntisymmetric cmp };
}
