//! Places that wait, each under a time.
ghost use Rattle.std.specs.Prelude.{◌≡◌, IfOk, MatchOption, slice_set};
ghost use Rattle.vg_process.specs.Waiting.{time_at, IsNoneWaiting, IsFirst};
ghost use Rattle.vg_process.specs.declared.queue.Turn.{Turn};

use crate::queue::{Queue, Turn};
use std::alloc::{AllocError, Global};
use std::marker::Model;

/// Places, each of which waits under a time or does not wait. Which one comes first is known at any moment.
#[derive(Drop)]
pub struct Timers {
    // By place.
    times: Vec<Option<u64>>,
    queue: Queue,
}

impl Model for Timers {
    ghost use Rattle.std.specs.Prelude.{List, Option, ℕ};

    ghost Value = { List (Option ℕ) };

    ghost use Rattle.vg_process.specs.Timed.{IsTimed};

    ghost view = { λ t. t.times.items };

    ghost invariant = { IsTimed };
}

impl Timers {
    /// The places wait under these times.
    pub fn new(alloc: Global, times: Vec<Option<u64>>) -> Result<Timers, AllocError>
        ensures { IfOk result (λ timers. timers ≡ times.items) }
    {
        let mut queue = Queue::new(alloc, times.len())?;
        for (place, time) in times.iter().enumerate() {
            queue.put(place, *time);
        }
        queue.look_ahead(times.as_slice());
        Ok(Timers { times, queue })
    }

    /// Of the places that wait, the first.
    pub fn first(&self) -> Option<Turn>
        ensures { MatchOption result (IsNoneWaiting (time_at self.now)) (IsFirst (time_at self.now)) }
    {
        self.queue.first()
    }

    /// The place that was the first waits under this time from now on, or does not wait any longer. The wheel has gone on to `now`.
    pub fn reset_first(&mut self, now: u64, time: Option<u64>)
        ensures { (first : Turn) → IsFirst (time_at self.old) first → self.new ≡ slice_set self.old first.place time }
    {
        let Some(first) = self.queue.take_first() else {
            return;
        };
        self.times[first.place] = None;
        self.queue.gather(self.times.as_slice(), now);
        self.times[first.place] = time;
        self.queue.put(first.place, time);
        self.queue.look_ahead(self.times.as_slice());
    }
}
