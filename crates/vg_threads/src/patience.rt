//! How a thread passes the time while it waits for others, and how they wake it.

use std::sync::Wait;
use std::sync::atomic::{AtomicBool, Ordering};
use std::thread::Parker;
use std::time::Duration;
use std::{hint, thread};

/// How often a thread that waits keeps its processor, twice as long each time.
const SPINS: u32 = 6;

/// How often it then lets another thread have the processor, before it sleeps.
const YIELDS: u32 = 8;

/// Where one thread sleeps.
#[derive(Drop)]
pub(crate) struct Bed {
    taken: AtomicBool,
    parker: Parker,
}

impl Bed {
    /// One in which no thread sleeps.
    pub(crate) fn new() -> Bed {
        Bed {
            taken: AtomicBool::new(false),
            parker: Parker::new(),
        }
    }

    // Sleeps at most so long, and until somebody wakes the thread.
    fn sleep<R: Wait>(&self, rt: &R, nap: Duration) {
        self.taken.store(true, Ordering::SeqCst);
        self.parker.park_timeout(rt, nap);
        self.taken.store(false, Ordering::SeqCst);
    }

    /// Wakes the thread that sleeps here, or lets it sleep no time the next time.
    pub(crate) fn wake(&self) {
        self.parker.unpark();
    }

    /// Wakes the thread that is seen to sleep here. It costs next to nothing where none does.
    pub(crate) fn wake_sleeper(&self) {
        if self.taken.load(Ordering::SeqCst) {
            self.parker.unpark();
        }
    }
}

/// How long a thread has waited, in how often it looked.
///
/// A thread that waits keeps its processor a little while, some fifty microseconds in all, since others mostly come by then, and yields
/// it now and then, since one of them may need it. After that it sleeps. It doesn't yield over and over: where other programs want the
/// processors too, a system takes a thread that does for one that has had its share, and lets it wait the longer once it has work to do.
#[derive(Clone, Copy)]
pub(crate) struct Patience {
    looks: u32,
}

impl Patience {
    /// That of a thread which hasn't waited.
    pub(crate) fn new() -> Patience {
        Patience { looks: 0 }
    }

    /// Passes a while, and where the thread sleeps, at most so long, and until somebody wakes it.
    pub(crate) fn pass<R: Wait>(&mut self, rt: &R, bed: &Bed, nap: Duration) {
        if self.looks >= SPINS + YIELDS {
            bed.sleep(rt, nap);
            return;
        }
        for _ in 0..1u32 << self.looks.min(SPINS) {
            hint::spin_loop();
        }
        if self.looks >= SPINS {
            thread::yield_now();
        }
        self.looks += 1;
    }
}
