//! Places that wait on the wheel or in the list.
ghost use Rattle.std.specs.Prelude.{◌≡◌, ◌∷◌, ◌+◌, ◌<◌, ◌≤◌, ℕ, max, Option, Some, None, IfOk, MatchOption, length};
ghost use Rattle.std.specs.BinaryHeap.{heap_items, heap_len, heap_capacity, IsHeap};
ghost use Rattle.std.specs.List.Sorted.{IsPermutation};
ghost use Rattle.futures.specs.LinkedLists.Wheel.{key_limit};

use futures::util::wheel::Wheel;
use std::alloc::{AllocError, Global};
use std::cmp::Reverse;
use std::collections::BinaryHeap;

/// A place, and the time under which it waits. The earlier time comes first, and at one time the lower place.
#[derive(Clone, Copy, PartialEq, Eq, PartialOrd, Ord)]
pub struct Turn {
    pub time: u64,
    pub place: usize,
}

/// Places that wait. What the wheel gives goes to a list first, for a wheel promises no order among timers of one time.
#[derive(Drop)]
pub struct Queue {
    pub wheel: Wheel,
    // The one that comes first is on top.
    pub due: BinaryHeap<Reverse<Turn>>,
}

impl Queue {
    ghost use Rattle.vg_process.specs.Queued.{IsQueue, IsAhead, IsReady, later_first};
    ghost use Rattle.vg_process.specs.Waiting.{time_at, with_time, IsNoneWaiting, IsFirst};

    /// No place waits. There is room for so many.
    pub fn new(alloc: Global, places: usize) -> Result<Queue, AllocError>
        ensures queue { IfOk result (λ queue. IsQueue places (λ _. None) queue) }
        ensures ahead { IfOk result IsAhead }
    {
        let mut wheel = Wheel::new(alloc)?;
        wheel.reserve_key(places)?;
        Ok(Queue {
            wheel,
            due: BinaryHeap::with_capacity(alloc, places)?,
        })
    }

    // The place is in the list from now on.
    fn list(&mut self, turn: Turn)
        requires { heap_len self.old.due < heap_capacity self.old.due }
        ensures items { IsPermutation (record { 0 = turn } ∷ heap_items self.old.due) (heap_items self.new.due) }
        ensures ordered { IsHeap later_first (heap_items self.old.due) → IsHeap later_first (heap_items self.new.due) }
        ensures len { heap_len self.new.due ≡ heap_len self.old.due + 1 }
        ensures room { heap_capacity self.old.due ≤ heap_capacity self.new.due }
        ensures wheel { self.new.wheel ≡ self.old.wheel }
    {
        self.due.push(Reverse(turn)).unwrap();
    }

    /// A place that did not wait waits from now on, if there is a time: in the list, where the wheel has reached it.
    pub fn put(&mut self, place: usize, time: Option<u64>)
        requires room { heap_len self.old.due < heap_capacity self.old.due }
        requires key { place < key_limit self.old.wheel }
        ensures queue { (limit : ℕ) (time_of : ℕ → Option ℕ) → IsQueue limit time_of self.old → place < limit → time_of place ≡ None
            → IsQueue limit (with_time time_of place time) self.new }
        ensures ahead { IsAhead self.old → IsAhead self.new }
    {
        let Some(time) = time else {
            return;
        };
        if time <= self.wheel.elapsed() {
            self.list(Turn { time, place });
        } else {
            self.wheel.insert(place, time);
        }
    }

    /// Of the places that wait, the first.
    pub fn first(&self) -> Option<Turn>
        ensures { (limit : ℕ) (time : ℕ → Option ℕ) → IsQueue limit time self.now → IsAhead self.now → IsReady self.now
            → MatchOption result (IsNoneWaiting time) (IsFirst time) }
    {
        let turn = self.due.peek()?;
        Some(turn.0)
    }

    /// The first place does not wait any longer.
    pub fn take_first(&mut self) -> Option<Turn>
        ensures queue { (limit : ℕ) (time : ℕ → Option ℕ) → IsQueue limit time self.old → IsAhead self.old → IsReady self.old
            → MatchOption result
            (IsNoneWaiting time × IsQueue limit time self.new)
            (λ turn. IsFirst time turn × IsQueue limit (with_time time turn.place None) self.new) }
        ensures ahead { IsAhead self.old → IsAhead self.new }
    {
        let turn = self.due.pop()?;
        Some(turn.0)
    }

    /// The wheel goes on to this time. Each place whose time it reaches moves into the list.
    pub fn gather(&mut self, times: &[Option<u64>], now: u64)
        requires { IsQueue (length times.now) (time_at times.now) self.old }
        ensures queue { IsQueue (length times.now) (time_at times.now) self.new }
        ensures ahead { IsAhead self.new }
        ensures elapsed { self.new.wheel.elapsed ≡ max self.old.wheel.elapsed now }
    {
        while let Some(place) = self.wheel.poll(now) {
            let time = times[place].unwrap();
            self.list(Turn { time, place });
        }
    }

    /// Where no place is in the list, the wheel goes on to the next time at which one moves into it.
    pub fn look_ahead(&mut self, times: &[Option<u64>])
        requires queue { IsQueue (length times.now) (time_at times.now) self.old }
        requires ahead { IsAhead self.old }
        ensures queue { IsQueue (length times.now) (time_at times.now) self.new }
        ensures ahead { IsAhead self.new }
        ensures ready { IsReady self.new }
    {
        while self.due.is_empty() {
            let Some(at) = self.wheel.poll_at() else {
                return;
            };
            self.gather(times, at);
        }
    }
}
