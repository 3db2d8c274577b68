// What was taken of an input.

ghost use Rattle.std.specs.Prelude.{◌≡◌, ◌-◌, ◌^◌, ◌<◌, ◌∷◌, []};
ghost use Rattle.replay_model.specs.Transcript.{matches};
ghost use Rattle.run_model.specs.{Delivering.taken_before, Delivering.taken_with, Moment.is_mark, Moment.marks};

use crate::report::{Report, Reported};
use delivery::Delivery;
use snapshot::Counts;

/// What was taken of an input: what was reported of it, how many matches were delivered, and how many lines taken, with those of earlier
/// runs; and how many watermarks this run took.
#[derive(Clone, Copy)]
pub struct LinesTaken {
    pub reported: Reported,
    pub matched: u64,
    pub lines: u64,
    pub marks: u64,
}

impl LinesTaken {
    /// Before the first line, behind runs that left these counts.
    pub fn before(report: Report, earlier: Counts) -> LinesTaken
        ensures { result ≡ taken_before report earlier }
    {
        LinesTaken {
            reported: report.reported_before(earlier),
            matched: earlier.matches,
            lines: earlier.lines,
            marks: 0,
        }
    }

    /// With one line more, which is this delivery.
    pub fn after(self, delivery: &Delivery) -> LinesTaken
        requires lines { self.lines < 2 ^ 64 - 1 }
        requires matched { self.matched < 2 ^ 64 - 1 }
        requires marks { self.marks < 2 ^ 64 - 1 }
        ensures { result ≡ taken_with self delivery.now }
    {
        LinesTaken {
            reported: self.reported,
            matched: self.matched + matches_in(delivery),
            lines: self.lines + 1,
            marks: self.marks + marks_in(delivery),
        }
    }
}

/// Whether a delivery is a watermark.
pub fn is_mark(delivery: &Delivery) -> bool
    ensures { result ≡ is_mark delivery.now }
{
    match delivery {
        Delivery::Watermark(_) => true,
        _ => false,
    }
}

// How many watermarks a delivery is: one, or none.
fn marks_in(delivery: &Delivery) -> u64
    ensures { result ≡ marks (delivery.now ∷ []) }
{
    match delivery {
        Delivery::Watermark(_) => 1,
        _ => 0,
    }
}

// How many matches a delivery is: one, or none.
fn matches_in(delivery: &Delivery) -> u64
    ensures { result ≡ matches (delivery.now ∷ []) }
{
    match delivery {
        Delivery::Match(_) => 1,
        _ => 0,
    }
}
