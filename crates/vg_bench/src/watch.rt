//! A gate that reads a clock.

use crossbeam_utils::CachePadded;
use std::alloc::{AllocError, Global};
use std::sync::atomic::{AtomicU64, Ordering};
use std::time::Clock;
use vg_outside::Gate;

/// When a worker entered its first turn and its last one, in nanoseconds of the clock.
#[derive(Drop)]
struct Span {
    first: AtomicU64,
    last: AtomicU64,
}

/// A gate that lets all workers in at once, and keeps when each entered its first turn and its last one.
#[derive(Drop)]
pub struct Watch<'a, C> {
    clock: &'a C,
    // One for each worker, by number, on lines of the cache of its own.
    spans: Vec<CachePadded<Span>>,
}

// The time of a clock; 0 where it can't be read.
fn nanos<C: Clock>(clock: &C) -> u64 {
    match clock.monotonic() {
        Ok(time) => time.as_nanos().min(u128::from(u64::MAX)) as u64,
        Err(_) => 0,
    }
}

impl<'a, C: Clock> Watch<'a, C> {
    /// A watch over so many workers, none of which has entered.
    ///
    /// # Errors
    ///
    /// [`AllocError`] where memory runs out.
    pub fn new(alloc: Global, clock: &'a C, workers: u8) -> Result<Watch<'a, C>, AllocError> {
        let mut spans = Vec::new(alloc);
        for _ in 0..workers {
            spans.push(CachePadded::new(Span {
                first: AtomicU64::new(u64::MAX),
                last: AtomicU64::new(0),
            }))?;
        }
        Ok(Watch { clock, spans })
    }

    /// How many nanoseconds went by from the first turn of any worker to the last one of any.
    pub fn between(&self) -> u64 {
        let mut first = u64::MAX;
        let mut last = 0;
        for span in &self.spans {
            first = first.min(span.first.load(Ordering::SeqCst));
            last = last.max(span.last.load(Ordering::SeqCst));
        }
        last.saturating_sub(first)
    }
}

impl<'a, C: Clock + Sync> Gate for Watch<'a, C> {
    fn enter(&self, worker: u8, turn: u64) {
        let Some(span) = self.spans.get(worker as usize) else {
            return;
        };
        let now = nanos(self.clock);
        if turn == 0 {
            span.first.store(now, Ordering::SeqCst);
        }
        span.last.store(now, Ordering::SeqCst);
    }
}
