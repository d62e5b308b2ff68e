//! What a worker's turn comes to.

/// What a worker's turn came to.
#[derive(Clone, Copy, Debug, PartialEq, Eq)]
pub enum Turn {
    /// It made a round.
    Ran,
    /// It is parked: main asks for the barrier.
    Parked,
    /// It has stopped.
    Stopped,
}
