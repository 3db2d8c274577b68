// What a run reads and writes.

/// What a run reads and writes.
#[derive(Drop)]
pub struct Ports<S, R, K, F> {
    /// The input, whose lines are the deliveries.
    pub events: S,
    /// The snapshot that the run goes on from, if it goes on from one.
    pub resumed: S,
    /// The revisions of pages.
    pub revisions: R,
    /// Where answers and sections go.
    pub out: K,
    /// Where snapshots of the world are kept, if it is saved.
    pub snapshot: F,
}
