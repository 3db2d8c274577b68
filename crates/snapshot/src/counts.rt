// The counts of a run that go on in the next one.

/// The counts of a run that the next one goes on with, those of earlier runs too.
#[derive(Clone, Copy, PartialEq, Eq)]
pub struct Counts {
    /// How many asks were answered, so that the next one has the number after it.
    pub asks: u64,
    /// How many matches were delivered to runs that answer questions; a split counts those that it passes over. They have numbers of their
    /// own.
    pub matches: u64,
    /// How many numbers of records are taken: one for each record, and one for each replay or split that changed the stored triples.
    pub patches: u64,
    /// How many lines of the input were taken, so that whoever feeds a log goes on with the line after them.
    pub lines: u64,
}
