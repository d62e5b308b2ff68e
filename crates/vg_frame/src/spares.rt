//! Frames that aren't in use.
ghost use Rattle.std.specs.Prelude.{◌≡◌, ◌+◌, ◌<◌, IfOk, []};
ghost use Rattle.vg_frame.specs.Waiting.{most_frames};

use crate::frames::Frame;
use crate::store::FRAMES;
use std::alloc::{AllocError, Global};
use std::marker::Model;

/// The frames of a store that no node has, all empty.
#[derive(Drop)]
pub struct Spares {
    frames: Vec<Box<Frame>>,
}

impl Model for Spares {
    ghost use Rattle.std.specs.Prelude.{◌≡◌, ℕ, ◌≤◌, [], vec_len, vec_capacity};
    ghost use Rattle.std.specs.List.{All};
    ghost use Rattle.vg_frame.specs.Waiting.{most_frames};

    ghost Value = { ℕ };

    ghost view = { λ s. vec_len s.frames };

    ghost invariant = { λ s. (most_frames ≤ vec_capacity s.frames) × All (λ frame. frame.value ≡ []) s.frames.items };
}

impl Spares {
    /// All frames of a store.
    pub fn new(alloc: Global) -> Result<Spares, AllocError>
        ensures { IfOk result (λ spares. spares ≡ most_frames) }
    {
        let mut frames = Vec::with_capacity(alloc, FRAMES)?;
        for _ in 0..FRAMES {
            frames.push(Box::new(alloc, Frame::new())?)?;
        }
        Ok(Spares { frames })
    }

    /// An empty frame.
    pub fn take(&mut self) -> Box<Frame>
        requires { 0 < self.old }
        ensures frame { result.value ≡ [] }
        ensures count { self.new + 1 ≡ self.old }
    {
        let Some(frame) = self.frames.pop() else {
            unreachable!()
        };
        frame
    }

    /// Takes a frame back, and hands out what it had.
    pub fn empty(&mut self, mut frame: Box<Frame>) -> Frame
        requires { self.old < most_frames }
        ensures frame { result ≡ frame.value }
        ensures count { self.new ≡ self.old + 1 }
    {
        let indexes = frame.take();
        self.frames.push_reserved(frame);
        indexes
    }
}
