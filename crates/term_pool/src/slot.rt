// The name of a term that is there.

/// A term of a pool. As long as the term is there it keeps its number, which no other term has.
#[derive(Clone, Copy, Debug, PartialEq, Eq)]
pub struct Slot {
    /// Its number in the pool, from 0.
    pub number: u32,
}
