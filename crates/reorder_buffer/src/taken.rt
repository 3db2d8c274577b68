// What an event is when it is taken.

/// What an event is when it is taken.
#[derive(Clone, Copy, PartialEq, Eq, Debug)]
pub enum Taken {
    /// It waits to be applied in its order.
    New,
    /// An equal event is remembered, and nothing changes.
    Repeat,
    /// The watermark is at or above its time, so it doesn't wait; it is remembered where it isn't below the floor.
    Late,
}
