//! Frames.
ghost use Rattle.std.specs.Prelude.{◌≡◌, ◌+◌, ◌<◌, ◌≤◌, [], ◌∷◌, ◌++◌, length};
ghost use Rattle.vg_frame.specs.Pending.{frame_size};

use std::marker::Model;
use vg_model::limits::FRAME_SIZE;

/// A frame: a list of at most [`FRAME_SIZE`] buffer indexes.
#[derive(Drop)]
pub struct Frame {
    len: usize,
    // The indexes stand in front; what is behind them has no meaning.
    places: [u32; FRAME_SIZE],
}

impl Model for Frame {
    ghost use Rattle.std.specs.Prelude.{List, ℕ, take, ◌≤◌};

    ghost Value = { List ℕ };

    ghost view = { λ f. take f.len f.places };

    ghost invariant = { λ f. f.len ≤ 256 };
}

impl Frame {
    /// A frame with no index.
    pub fn new() -> Frame
        ensures { result ≡ [] }
    {
        Frame {
            len: 0,
            places: [0; FRAME_SIZE],
        }
    }

    /// How many indexes it has.
    pub fn len(&self) -> usize
        ensures count { result ≡ length self.now }
        ensures few { length self.now ≤ frame_size }
    {
        self.len
    }

    /// The indexes, in order.
    pub fn as_slice(&self) -> &[u32]
        ensures indexes { result.now ≡ self.now }
        ensures few { length result.now ≤ frame_size }
    {
        &self.places[..self.len]
    }

    /// Adds an index behind the others.
    pub fn push(&mut self, index: u32)
        requires { length self.old < frame_size }
        ensures { self.new ≡ self.old ++ index ∷ [] }
    {
        self.places[self.len] = index;
        self.len += 1;
    }

    /// Adds these indexes behind the others, in their order.
    #[inline]
    pub fn push_each(&mut self, indexes: &[u32])
        requires { length self.old + length indexes.now ≤ frame_size }
        ensures { self.new ≡ self.old ++ indexes.now }
    {
        let end = self.len + indexes.len();
        self.places[self.len..end].copy_from_slice(indexes);
        self.len = end;
    }

    /// Removes all indexes.
    pub fn clear(&mut self)
        ensures { self.new ≡ [] }
    {
        self.len = 0;
    }

    /// Takes all indexes out.
    pub(crate) fn take(&mut self) -> Frame
        ensures frame { result ≡ self.old }
        ensures empty { self.new ≡ [] }
    {
        let taken = Frame {
            len: self.len,
            places: self.places,
        };
        self.clear();
        taken
    }
}
