//! Short texts that are laid into a list again and again.
ghost use Rattle.std.specs.Prelude.{◌≡◌, ◌+◌, ◌≤◌, ◌++◌, length, take};

use std::marker::Model;

// How many bytes a piece has room for.
pub(crate) const ROOM: usize = 40;

/// A text of at most 40 bytes. It is laid into a list with all the room that it stands in, and what is laid next stands over what is behind
/// it: so many bytes are copied by a few instructions, where the text alone would take a call.
#[derive(Drop)]
pub(crate) struct Piece {
    room: [u8; ROOM],
    len: usize,
}

impl Model for Piece {
    ghost use Rattle.std.specs.Prelude.{◌≡◌, ◌≤◌, List, ℕ, length, take};

    ghost Value = { List ℕ };

    ghost view = { λ p. take p.len p.room };

    ghost invariant = { λ p. (p.len ≤ 40) × (length p.room ≡ 40) };
}

impl Piece {
    /// The piece of this text.
    pub(crate) fn of(text: &[u8]) -> Piece
        requires { length text.now ≤ 40 }
        ensures { result ≡ text.now }
    {
        let mut room = [0; ROOM];
        room[..text.len()].copy_from_slice(text);
        Piece {
            room,
            len: text.len(),
        }
    }

    /// Puts more text behind.
    pub(crate) fn add(&mut self, text: &[u8])
        requires { length self.old + length text.now ≤ 40 }
        ensures { self.new ≡ self.old ++ text.now }
    {
        let end = self.len + text.len();
        self.room[self.len..end].copy_from_slice(text);
        self.len = end;
    }

    /// Lays the text into a list, from this place on, and answers where it ends. What stood behind it, as far as the room reaches, is gone.
    #[inline(always)]
    pub(crate) fn lay(&self, list: &mut [u8], at: usize) -> usize
        requires { at + 40 ≤ length list.old }
        ensures end { result ≤ at + 40 }
        ensures laid { take result list.new ≡ take at list.old ++ self.now }
    {
        list[at..at + ROOM].copy_from_slice(&self.room);
        at + self.len
    }
}
