//! What waits for one node.
ghost use Rattle.std.specs.Prelude.{◌≡◌, ◌+◌, ◌*◌, ◌<◌, ◌≤◌, ◌↔◌, IsTrue, IfOk, [], ◌∷◌, ◌++◌, length, take, drop};
ghost use Rattle.vg_frame.specs.Pending.{frame_size, most_pending};
ghost use Rattle.vg_frame.specs.Waiting.{Waiting, IsCut, most_full, most_frames, none_waits};

use crate::frames::Frame;
use crate::spares::Spares;
use std::alloc::{AllocError, Global};
use std::marker::Model;
use std::mem;
use vg_model::limits::FRAME_SIZE;

// The most full frames that may wait for a node: as many as there are in all the indexes of a store.
const MOST_FULL: usize = 9;

/// The indexes that wait for one node, cut into frames.
#[derive(Drop)]
pub struct Queue {
    // Full frames, the oldest first.
    full: Vec<Box<Frame>>,
    // The newest indexes, fewer than a frame may have.
    newest: Box<Frame>,
}

impl Model for Queue {
    ghost use Rattle.vg_frame.specs.Waiting.{Waiting};

    ghost Value = { Waiting };

    ghost use Rattle.vg_frame.specs.Queue.{waiting, IsQueue};

    ghost view = { waiting };

    ghost invariant = { IsQueue };
}

impl Queue {
    /// A queue with no index. It has this empty frame for the first ones.
    pub fn new(alloc: Global, newest: Box<Frame>) -> Result<Queue, AllocError>
        requires { newest.value ≡ [] }
        ensures { IfOk result (λ queue. queue ≡ none_waits) }
    {
        Ok(Queue {
            full: Vec::with_capacity(alloc, MOST_FULL)?,
            newest,
        })
    }

    /// Whether no index waits.
    pub fn is_empty(&self) -> bool
        ensures { IsTrue result ↔ (self.now.indexes ≡ []) }
    {
        self.full.is_empty() && self.newest.len() == 0
    }

    /// The index waits behind the others. Where that makes a frame full, a spare one comes behind it.
    #[inline]
    pub fn push(&mut self, index: u32, spares: &mut Spares)
        requires room { self.old.full < most_full }
        requires spare { 0 < spares.old }
        ensures indexes { self.new.indexes ≡ self.old.indexes ++ index ∷ [] }
        ensures frames { spares.new + self.new.full ≡ spares.old + self.old.full }
        ensures cut { IsCut self.new }
    {
        self.newest.push(index);
        if self.newest.len() == FRAME_SIZE {
            let full = mem::replace(&mut self.newest, spares.take());
            self.full.push_reserved(full);
        }
    }

    /// How many more indexes the newest frame has room for: some, since it isn't full.
    fn room(&self) -> usize
        ensures some { 1 ≤ result }
        ensures room { result + length self.now.indexes ≡ frame_size * (self.now.full + 1) }
    {
        FRAME_SIZE - self.newest.len()
    }

    /// These indexes, for which the newest frame has room, wait behind the others, in their order. Where that makes the
    /// frame full, a spare one comes behind it.
    #[inline]
    fn push_within(&mut self, indexes: &[u32], spares: &mut Spares)
        requires within { length self.old.indexes + length indexes.now ≤ frame_size * (self.old.full + 1) }
        requires room { self.old.full < most_full }
        requires spare { 0 < spares.old }
        ensures indexes { self.new.indexes ≡ self.old.indexes ++ indexes.now }
        ensures frames { spares.new + self.new.full ≡ spares.old + self.old.full }
        ensures cut { IsCut self.new }
    {
        self.newest.push_each(indexes);
        if self.newest.len() >= FRAME_SIZE {
            let full = mem::replace(&mut self.newest, spares.take());
            self.full.push_reserved(full);
        }
    }

    /// These indexes wait behind the others, in their order. Behind each frame that gets full comes a spare one.
    #[inline]
    pub fn push_each(&mut self, indexes: &[u32], spares: &mut Spares)
        requires room { length self.old.indexes + length indexes.now ≤ most_pending }
        requires spare { length self.old.indexes + length indexes.now ≤ frame_size * (spares.old + self.old.full) }
        requires cut { IsCut self.old }
        ensures indexes { self.new.indexes ≡ self.old.indexes ++ indexes.now }
        ensures frames { spares.new + self.new.full ≡ spares.old + self.old.full }
        ensures cut { IsCut self.new }
    {
        let mut left = indexes;
        'left: while !left.is_empty() {
            let (front, behind) = left.split_at(left.len().min(self.room()));
            self.push_within(front, spares);
            left = behind;
        }
    }

    /// Takes the oldest frame.
    pub fn pop(&mut self, spares: &mut Spares) -> Frame
        requires { spares.old + self.old.full ≤ most_frames }
        ensures frame { result ≡ take frame_size self.old.indexes }
        ensures rest { self.new.indexes ≡ drop frame_size self.old.indexes }
        ensures frames { spares.new + self.new.full ≡ spares.old + self.old.full }
        ensures cut { IsCut self.new }
    {
        if self.full.is_empty() {
            return self.newest.take();
        }
        let oldest = self.full.remove(0);
        spares.empty(oldest)
    }
}
