//! What a worker passes at the beginning of a turn.

use std::hint;
use std::sync::atomic::{AtomicU64, Ordering};

/// What a worker passes at the beginning of each turn, so that a test can hold it there. Contracts give it no meaning.
///
/// A gate is shared by all workers, which may run in threads of their own.
pub trait Gate: Sync {
    /// Lets the worker of this number in. Each of its turns begins with this call until it has stopped, also while it is parked; `turn`
    /// counts the turns that came before, and stands still at 2^62.
    fn enter(&self, worker: u8, turn: u64);
}

/// A gate that lets all workers in at once.
#[derive(Clone, Copy, Debug)]
pub struct OpenGate;

impl Gate for OpenGate {
    fn enter(&self, _worker: u8, _turn: u64) {}
}

/// How many times a held worker looks for the other one before it is let in alone.
const LOOKS: u32 = 100_000_000;

/// A gate at which worker 0 and worker 1 wait for each other in their first turns. It shows that the two run at once: in one
/// thread neither could wait for the other.
///
/// Each turn 0 of either is held until the other has entered a turn 0 as often, and is let in alone after 100,000,000 looks, so
/// that no run waits without end. All other turns, and all other workers, are let in at once.
#[derive(Drop)]
pub struct MeetGate {
    /// How many turns 0 worker 0 has entered.
    zero: AtomicU64,
    /// How many turns 0 worker 1 has entered.
    one: AtomicU64,
    met: AtomicU64,
    given_up: AtomicU64,
}

/// Whether a worker is seen to have entered so often, within the looks that a hold has.
fn has_come(entered: &AtomicU64, times: u64) -> bool {
    for _ in 0..LOOKS {
        if entered.load(Ordering::SeqCst) >= times {
            return true;
        }
        hint::spin_loop();
    }
    false
}

impl MeetGate {
    /// A gate that nobody has entered.
    pub fn new() -> MeetGate {
        MeetGate {
            zero: AtomicU64::new(0),
            one: AtomicU64::new(0),
            met: AtomicU64::new(0),
            given_up: AtomicU64::new(0),
        }
    }

    /// How many holds ended because the other worker had entered as often.
    pub fn met(&self) -> u64 {
        self.met.load(Ordering::SeqCst)
    }

    /// How many holds were given up.
    pub fn given_up(&self) -> u64 {
        self.given_up.load(Ordering::SeqCst)
    }
}

impl Gate for MeetGate {
    fn enter(&self, worker: u8, turn: u64) {
        let (own, other) = match (worker, turn) {
            (0, 0) => (&self.zero, &self.one),
            (1, 0) => (&self.one, &self.zero),
            _ => return,
        };
        let times = own.fetch_add(1, Ordering::SeqCst).saturating_add(1);
        let ended = if has_come(other, times) {
            &self.met
        } else {
            &self.given_up
        };
        ended.fetch_add(1, Ordering::SeqCst);
    }
}
