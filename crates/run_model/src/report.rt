// What a run reports of the deliveries that it takes.

ghost use Rattle.std.specs.Prelude.{◌≡◌, ◌-◌, ◌^◌, ◌<◌};
ghost use Rattle.run_model.specs.{Delivering.reported_before, Delivering.telling_of, Moment.numbers_after};

use crate::lines_taken::LinesTaken;
use snapshot::Counts;
use triple_store::Telling;

/// What a run reports of the deliveries that it takes.
#[derive(Clone, Copy, PartialEq, Eq)]
pub enum Report {
    /// The answers to questions.
    Answers,
    /// The changes of the stored triples, a record for each step that changes them; questions are passed over.
    Changes,
}

/// What was reported so far: how many asks were answered or records written, with those of earlier runs; and, where questions are answered,
/// whether a step of this run changed which triples are stored, of which no record tells.
#[derive(Clone, Copy)]
pub struct Reported {
    pub number: u64,
    pub changed: bool,
}

impl Report {
    /// What an application and a remapping tell: their change where it is written; else whether there was one, until the first.
    pub fn telling(self, reported: Reported) -> Telling
        ensures { result ≡ telling_of self reported }
    {
        match self {
            Report::Answers if reported.changed => Telling::Nothing,
            Report::Answers => Telling::Whether,
            Report::Changes => Telling::Change,
        }
    }

    /// What earlier runs reported, which left these counts.
    pub fn reported_before(self, earlier: Counts) -> Reported
        ensures { result ≡ reported_before self earlier }
    {
        let number = match self {
            Report::Answers => earlier.asks,
            Report::Changes => earlier.patches,
        };
        Reported {
            number,
            changed: false,
        }
    }

    /// The counts that a later run goes on with, where earlier runs left these, and this was taken. If triples changed of which no record tells,
    /// a number of records is passed over, so that it is missing in every stream.
    pub fn numbers(self, earlier: Counts, taken: &LinesTaken) -> Counts
        requires { earlier.patches < 2 ^ 64 - 1 }
        ensures { result ≡ numbers_after earlier self taken.now.reported taken.now.matched taken.now.lines }
    {
        match self {
            Report::Answers => Counts {
                asks: taken.reported.number,
                matches: taken.matched,
                patches: if taken.reported.changed {
                    earlier.patches + 1
                } else {
                    earlier.patches
                },
                lines: taken.lines,
            },
            Report::Changes => Counts {
                asks: earlier.asks,
                matches: earlier.matches,
                patches: taken.reported.number,
                lines: taken.lines,
            },
        }
    }
}
