//! Lists of buffer indexes, each with what its packet's step says.
ghost use Rattle.std.specs.Prelude.{◌≡◌, ◌<◌, ◌≤◌, ◌==◌, [], ◌∷◌, ◌++◌, length, IfOk};
ghost use Rattle.vg_frame.specs.Pending.{frame_size};

use std::alloc::{AllocError, Global};
use std::marker::Model;
use vg_model::limits::FRAME_SIZE;

/// A list of buffer indexes, each with a value: at most as many as a frame has. Its room is taken as it is made.
#[derive(Drop)]
pub struct Entries<T: Copy + Drop> {
    items: Vec<(u32, T)>,
}

impl<T: Copy + Drop> Model for Entries<T> {
    ghost use Rattle.std.specs.Prelude.{List, ℕ, ◌≤◌, vec_len, vec_capacity};
    ghost use Rattle.vg_frame.specs.Pending.{frame_size};

    ghost Value = { List (ℕ × T) };

    ghost view = { λ e. e.items.items };

    ghost invariant = { λ e. (vec_len e.items ≤ frame_size) × (frame_size ≤ vec_capacity e.items) };
}

impl<T: Copy + Drop> Entries<T> {
    // No entry, and room for all.
    pub(crate) fn new(alloc: Global) -> Result<Entries<T>, AllocError>
        ensures { IfOk result (λ entries. entries ≡ []) }
    {
        Ok(Entries {
            items: Vec::with_capacity(alloc, FRAME_SIZE)?,
        })
    }

    /// How many entries there are.
    pub fn len(&self) -> usize
        ensures count { result ≡ length self.now }
        ensures few { length self.now ≤ frame_size }
    {
        self.items.len()
    }

    /// Whether there is no entry.
    pub fn is_empty(&self) -> bool
        ensures { result ≡ (length self.now == 0) }
    {
        self.items.is_empty()
    }

    /// The entries, in order.
    pub fn as_slice(&self) -> &[(u32, T)]
        ensures entries { result.now ≡ self.now }
        ensures few { length result.now ≤ frame_size }
    {
        self.items.as_slice()
    }

    /// Adds an entry behind the others.
    #[inline]
    pub fn push(&mut self, index: u32, value: T)
        requires { length self.old < frame_size }
        ensures { self.new ≡ self.old ++ (index, value) ∷ [] }
    {
        self.items.push_reserved((index, value));
    }

    /// Removes all entries. The room stays.
    pub fn clear(&mut self)
        ensures { self.new ≡ [] }
    {
        self.items.clear();
    }
}
