//! Which of a run's workers a worker is.

/// Which of a run's workers a worker is.
#[derive(Clone, Copy)]
pub struct Station {
    /// How many workers the run has.
    pub workers: u8,
    /// The worker's number, from 0 on.
    pub worker: u8,
    /// How many frames the queue to another worker has room for.
    pub slots: u64,
}
