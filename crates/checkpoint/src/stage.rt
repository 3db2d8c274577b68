// How far a snapshot has come.

use snapshot::Counts;

/// How far the lines of a snapshot have come.
#[derive(Clone, Copy)]
pub enum Stage {
    /// The head is still to come.
    Unbegun,
    /// The head was taken, and with it these counts.
    Begun(Counts),
    /// The last line was taken.
    Ended(Counts),
}
