//! Queues from one worker to another.
ghost use Rattle.std.specs.Prelude.{ℕ, List, Bool, ◌≡◌, ◌⊎◌, ◌∷◌, ◌++◌, [], ◌+◌, ◌<◌, ◌≤◌, ◌^◌, true, false, length, IfErr, OnErr, OnOk};
ghost use Rattle.std.specs.Bool.{MatchBool};
ghost use Rattle.vg_steps.specs.Seated.{TableId};
ghost use Rattle.vg_ring.specs.declared.ends.RingTx.{RingTx};
ghost use Rattle.vg_ring.specs.Ends.{put, refused, head_seen, tx_ring, tx_slots, IsSameTx, ReadsHead, WritesTail, HeadFits};
ghost use Rattle.vg_hands.specs.Filling.{Fills, GoesOn, EndsFull};

use crate::hand_frames::HandFrame;
use vg_ring::{Full, RingTx};

/// What has a number of parts.
pub trait Counted: Drop {
    /// How many parts it has.
    ghost parts: { Self → ℕ };

    /// How many parts it has: one at least.
    fn count(&self) -> usize
        ensures count { result ≡ parts self.now }
        ensures some { 1 ≤ result };
}

/// A queue to another worker, over a ring. Contracts see it as the list of the items that it has accepted, oldest first, beside the list
/// of those that it has refused, and by the end of the ring inside it.
pub trait Handoff<T: Counted>: Drop {
    /// The items that it has accepted, oldest first.
    ghost accepted: { Self → List T };

    /// The items that it has refused, oldest first.
    ghost refusals: { Self → List T };

    /// The end by which it puts items in its ring.
    ghost end: { Self → RingTx T };

    /// Which ring it goes to.
    ghost ring: { Self → TableId };

    /// How many items its ring has room for.
    ghost slots: { Self → ℕ };

    /// How many parts it has room for.
    ghost free_room: { Self → ℕ };

    /// How many of its items aren't in its ring yet.
    ghost waiting: { Self → ℕ };

    /// Whether nothing is to be drawn, where it is to have this room.
    ghost closes: { Self → ℕ → Bool };

    /// Whether it accepts each item for which it has room.
    ghost LOSSLESS: { Bool };

    /// Whether it accepts each item for which it has room.
    const LOSSLESS: bool;

    /// Puts the item behind all that were accepted. `Full` gives it back, with the number of the items accepted, and puts it behind all
    /// that were refused. It gives no room, opens no gate, and lets no item go on that it holds.
    ///
    /// `Full` comes by the cause of [`RingTx::push`] on the end inside: this very call made one step, which loaded the head, and the
    /// head that it found is the number accepted less the number of slots. It is at least as large as any that this end loaded or learnt
    /// before.
    fn push(&mut self, item: T) -> Result<(), Full<T>>
        requires room { T.parts item ≤ free_room self.old }
        requires count { length (accepted self.old) < 2 ^ 62 }
        ensures ring { ring self.new ≡ ring self.old }
        ensures slots { slots self.new ≡ slots self.old }
        ensures ok { OnOk result (accepted self.new ≡ accepted self.old ++ item ∷ []) }
        ensures ok_refusals { OnOk result (refusals self.new ≡ refusals self.old) }
        ensures ok_waiting { OnOk result ((waiting self.old ≤ waiting self.new) × (waiting self.new ≤ waiting self.old + 1)) }
        ensures room_after { OnOk result (free_room self.old ≤ free_room self.new + T.parts item) }
        ensures full { IfErr result (λ full. (full.item ≡ item) × (full.accepted ≡ length (accepted self.old)) × (slots self.old ≤ full.accepted) × (LOSSLESS ≡ false)) }
        ensures full_refusals { OnErr result (refusals self.new ≡ refusals self.old ++ item ∷ []) }
        ensures same { OnErr result ((accepted self.new ≡ accepted self.old) × (free_room self.old ≤ free_room self.new)) }
        ensures same_waiting { OnErr result (waiting self.new ≡ waiting self.old) }
        ensures room_most { free_room self.new ≤ free_room self.old }
        ensures gate { (room : ℕ) → closes self.old room ≡ true → closes self.new room ≡ true }
        ensures end { IsSameTx (end self.old) (end self.new) }
        ensures steps { GoesOn (end self.old) (end self.new) }
        ensures full_read { OnErr result (ReadsHead (end self.old) (head_seen (end self.new)) (end self.new)) }
        ensures full_by_the_head { IfErr result (λ full. head_seen (end self.new) + slots self.old ≡ full.accepted) }
        ensures rule { OnErr result (HeadFits (end self.old) (head_seen (end self.new))) }
        ensures ok_written { OnOk result (LOSSLESS ≡ false → WritesTail (end self.old) (length (accepted self.new)) (end self.new)) }
        ensures head_rises { head_seen (end self.old) ≤ head_seen (end self.new) };

    /// Lets what it holds go on, until it holds nothing or its ring is full. Where it may refuse items it holds none, and nothing happens.
    /// It takes no room, and closes no gate.
    ///
    /// It holds items after this only where the last step of this very call loaded the head, and found as many items put and not taken as
    /// the ring has slots.
    fn tick(&mut self)
        ensures accepted { accepted self.new ≡ accepted self.old }
        ensures refusals { refusals self.new ≡ refusals self.old }
        ensures ring { ring self.new ≡ ring self.old }
        ensures slots { slots self.new ≡ slots self.old }
        ensures room { free_room self.old ≤ free_room self.new }
        ensures gate { (room : ℕ) → closes self.new room ≡ true → closes self.old room ≡ true }
        ensures end { IsSameTx (end self.old) (end self.new) }
        ensures steps { GoesOn (end self.old) (end self.new) }
        ensures waiting { waiting self.new ≤ waiting self.old }
        ensures ticks { (waiting self.new ≡ 0) ⊎ EndsFull (end self.old) (end self.new) }
        ensures head_rises { head_seen (end self.old) ≤ head_seen (end self.new) }
        ensures still { LOSSLESS ≡ false → end self.new ≡ end self.old };

    /// Whether nothing is to be drawn, where it is to have this room.
    fn gate_closed(&self, room: usize) -> bool
        ensures { result ≡ closes self.now room };

    /// Whether it has this room.
    fn fits(&self, room: usize) -> bool
        ensures { MatchBool result (room ≤ free_room self.now) (free_room self.now < room) };

    /// How many items it has accepted that aren't in its ring yet.
    fn held(&self) -> usize
        ensures { result ≡ waiting self.now };

    /// Its ring.
    fn into_ring(self) -> RingTx<T>
        requires { waiting self ≡ 0 }
        ensures end { result ≡ end self }
        ensures ring { tx_ring result ≡ ring self }
        ensures accepted { put result ≡ accepted self }
        ensures slots { tx_slots result ≡ slots self };

    /// What it has accepted is, in order, what it has put in its ring, and then what it still holds.
    ghost fills: { (x : Self) → Fills (end x) (ring x) (slots x) (accepted x) (waiting x) };
}

impl Counted for HandFrame {
    ghost parts = { λ f. length f.packets };

    fn count(&self) -> usize {
        self.count_packets()
    }
}

// A ring has room for any number of parts.
impl<T: Counted> Handoff<T> for RingTx<T> {
    ghost use Rattle.std.specs.Prelude.{◌^◌, false, [], refl};
    ghost use Rattle.std.proofs.Common.{sym, append-nil};
    ghost use Rattle.vg_ring.specs.Ends.{put, refused, tx_ring, tx_slots};

    ghost accepted = { put };

    ghost refusals = { refused };

    ghost end = { λ tx. tx };

    ghost ring = { tx_ring };

    ghost slots = { tx_slots };

    ghost free_room = { λ tx. 2 ^ 63 };

    ghost waiting = { λ tx. 0 };

    ghost closes = { λ tx room. false };

    ghost LOSSLESS = { false };

    const LOSSLESS: bool = false;

    fn push(&mut self, item: T) -> Result<(), Full<T>> {
        RingTx::push(self, item)
    }

    fn tick(&mut self) {}

    fn gate_closed(&self, _room: usize) -> bool {
        false
    }

    fn fits(&self, room: usize) -> bool {
        room <= 1 << 63
    }

    fn held(&self) -> usize {
        0
    }

    fn into_ring(self) -> RingTx<T> {
        self
    }

    ghost fills = { λ tx. record { ring_is = refl; slots_are = refl; held = []; in_order = sym (append-nil (put tx)); count = refl } };
}
