//! Backlogs.
ghost use Rattle.std.specs.Prelude.{ℕ, true, ◌≡◌, ◌≢◌, ◌⊎◌, ◌+◌, ◌≤◌, ◌<◌, ◌^◌, [], ◌∷◌, ◌++◌, length, map, option_to_list, IsOk, IfOk, IfErr};
ghost use Rattle.vg_ring.specs.Ends.{head_seen, IsSameTx};
ghost use Rattle.vg_hands.specs.Filling.{GoesOn, EndsFull};
ghost use Rattle.vg_backlog.specs.Books.{empty_behind, accepted_by, packets_in, room_of, is_closed, Accepts, Refuses, Advances};

use crate::waiting::Waiting;
use std::alloc::Global;
use std::marker::Model;
use vg_hands::{HandFrame, Handoff};
use vg_model::Memory;
use vg_ring::{Full, RingTx};

/// The producer's end of a ring, and the frames that it holds because the ring had no slot for them.
#[derive(Drop)]
pub struct Backlog {
    ring: RingTx<HandFrame>,
    // The oldest frame that is held, and those behind it.
    next: Option<HandFrame>,
    behind: Waiting,
    // From how many held frames on the gate is closed.
    slots: u64,
    // For how many packets there is room in all.
    room: usize,
}

impl Model for Backlog {
    ghost use Rattle.std.specs.Prelude.{◌++◌, option_to_list};
    ghost use Rattle.vg_backlog.specs.Books.{BacklogBook};
    ghost use Rattle.vg_backlog.specs.Queues.{IsHolding};

    ghost Value = { BacklogBook };

    ghost view = { λ b. record { end = b.ring; held = option_to_list b.next ++ b.behind.frames; slots = b.slots; room = b.room } };

    ghost invariant = { λ b. IsHolding b.ring b.next b.behind b.room };
}

impl Backlog {
    /// A backlog that holds no frame, behind this end of a ring. Its gate is closed from `slots` held frames on, and it has room for so
    /// many packets. This call alone takes memory.
    ///
    /// # Errors
    ///
    /// The ring's end, as it was, where memory runs out.
    pub fn new(
        alloc: Global,
        ring: RingTx<HandFrame>,
        slots: u64,
        room: usize,
    ) -> Result<Backlog, RingTx<HandFrame>>
        ensures made { IfOk result (λ b. b ≡ empty_behind slots room ring) }
        ensures back { IfErr result (λ end. end ≡ ring) }
    {
        match Waiting::new(alloc, room) {
            Ok(behind) => Ok(Backlog {
                ring,
                next: None,
                behind,
                slots,
                room,
            }),
            Err(_) => Err(ring),
        }
    }

    // How many more packets it has room for.
    fn free_room(&self) -> usize
        ensures { result ≡ room_of self.now }
    {
        self.room - count_packets(&self.next) - self.behind.packets()
    }

    // Puts a frame into the ring, where none is held and the ring takes it, or else behind those that are held.
    fn hand(&mut self, frame: HandFrame)
        requires room { length frame.packets ≤ room_of self.old }
        requires count { length (accepted_by self.old) < 2 ^ 62 }
        ensures same { (self.new.slots ≡ self.old.slots) × (self.new.room ≡ self.old.room) }
        ensures behind { self.old.held ≢ [] → (self.new.held ≡ self.old.held ++ frame ∷ []) × (self.new.end ≡ self.old.end) }
        ensures first { self.old.held ≡ [] → (Accepts frame self.old.end self.new.end × (self.new.held ≡ [])) ⊎ (Refuses self.old.end self.new.end × (self.new.held ≡ frame ∷ [])) }
    {
        if self.next.is_some() {
            self.behind.push(frame);
            return;
        }
        if let Err(full) = self.ring.push(frame) {
            self.next = Some(full.item);
        }
    }

    // Pushes the frames that are held into the ring, from the front, until one is refused or none is left.
    fn advance(&mut self)
        ensures same { (self.new.slots ≡ self.old.slots) × (self.new.room ≡ self.old.room) }
        ensures advances { Advances self.old.end self.old.held self.new.end self.new.held }
    {
        'frames: while let Some(frame) = self.next.take() {
            match self.ring.push(frame) {
                Ok(()) => self.next = self.behind.pop(),
                Err(full) => {
                    self.next = Some(full.item);
                    return;
                }
            }
        }
    }
}

/// A backlog behind each of these ends of rings, in their order, as [`Backlog::new`] makes one.
///
/// # Errors
///
/// [`Memory`] where memory runs out.
pub fn backlogs_of(
    alloc: Global,
    rings: Vec<RingTx<HandFrame>>,
    slots: u64,
    room: usize,
) -> Result<Vec<Backlog>, Memory>
    ensures { IfOk result (λ backlogs. backlogs.items ≡ map (empty_behind slots room) rings.items) }
{
    let mut backlogs = Vec::with_capacity(alloc, rings.len())?;
    for ring in rings {
        let Ok(backlog) = Backlog::new(alloc, ring, slots, room) else {
            return Err(Memory);
        };
        backlogs.push_reserved(backlog);
    }
    Ok(backlogs)
}

// How many packets a frame has, if it is there.
fn count_packets(frame: &Option<HandFrame>) -> usize
    ensures { result ≡ packets_in (option_to_list frame.now) }
{
    match frame {
        Some(frame) => frame.count_packets(),
        None => 0,
    }
}

impl Handoff<HandFrame> for Backlog {
    ghost use Rattle.std.specs.Prelude.{true, [], length, refl};
    ghost use Rattle.vg_ring.specs.Ends.{tx_ring, tx_slots};
    ghost use Rattle.vg_backlog.specs.Books.{accepted_by, room_of, is_closed};

    ghost accepted = { accepted_by };

    ghost refusals = { λ b. [] };

    ghost end = { λ b. b.end };

    ghost ring = { λ b. tx_ring b.end };

    ghost slots = { λ b. tx_slots b.end };

    ghost free_room = { room_of };

    ghost waiting = { λ b. length b.held };

    ghost closes = { is_closed };

    ghost LOSSLESS = { true };

    const LOSSLESS: bool = true;

    /// Puts the frame behind all that were accepted. It is never refused: it goes into the ring where no frame is held and the ring takes
    /// it. It is held, behind the others, only where frames were held before, or where the push into the ring of this very call was
    /// refused.
    fn push(&mut self, item: HandFrame) -> Result<(), Full<HandFrame>>
        requires room { length item.packets ≤ room_of self.old }
        requires count { length (accepted_by self.old) < 2 ^ 62 }
        ensures ok { IsOk result }
        ensures accepted { accepted_by self.new ≡ accepted_by self.old ++ item ∷ [] }
        ensures room_after { room_of self.old ≤ room_of self.new + length item.packets }
        ensures room_most { room_of self.new ≤ room_of self.old }
        ensures gate { (room : ℕ) → is_closed self.old room ≡ true → is_closed self.new room ≡ true }
        ensures same { (self.new.slots ≡ self.old.slots) × (self.new.room ≡ self.old.room) }
        ensures end { IsSameTx self.old.end self.new.end }
        ensures steps { GoesOn self.old.end self.new.end }
        ensures waiting { (length self.old.held ≤ length self.new.held) × (length self.new.held ≤ length self.old.held + 1) }
        ensures head_rises { head_seen self.old.end ≤ head_seen self.new.end }
        ensures behind { self.old.held ≢ [] → (self.new.held ≡ self.old.held ++ item ∷ []) × (self.new.end ≡ self.old.end) }
        ensures first { self.old.held ≡ [] → (Accepts item self.old.end self.new.end × (self.new.held ≡ [])) ⊎ (Refuses self.old.end self.new.end × (self.new.held ≡ item ∷ [])) }
    {
        self.hand(item);
        Ok(())
    }

    /// Moves held frames into the ring, the oldest first, as long as it takes them.
    fn tick(&mut self)
        ensures accepted { accepted_by self.new ≡ accepted_by self.old }
        ensures room { room_of self.old ≤ room_of self.new }
        ensures gate { (room : ℕ) → is_closed self.new room ≡ true → is_closed self.old room ≡ true }
        ensures same { (self.new.slots ≡ self.old.slots) × (self.new.room ≡ self.old.room) }
        ensures end { IsSameTx self.old.end self.new.end }
        ensures steps { GoesOn self.old.end self.new.end }
        ensures waiting { length self.new.held ≤ length self.old.held }
        ensures ticks { (length self.new.held ≡ 0) ⊎ EndsFull self.old.end self.new.end }
        ensures head_rises { head_seen self.old.end ≤ head_seen self.new.end }
        ensures advances { Advances self.old.end self.old.held self.new.end self.new.held }
    {
        self.advance();
    }

    /// Whether as many frames are held as close the gate, or fewer packets fit than these.
    fn gate_closed(&self, room: usize) -> bool {
        self.slots <= self.held() as u64 || self.free_room() < room
    }

    /// Whether so many more packets fit.
    fn fits(&self, room: usize) -> bool {
        room <= self.free_room()
    }

    /// How many frames are held.
    fn held(&self) -> usize {
        match &self.next {
            Some(_) => 1 + self.behind.len(),
            None => 0,
        }
    }

    /// The end of the ring.
    fn into_ring(self) -> RingTx<HandFrame> {
        let Backlog { ring, .. } = self;
        ring
    }

    ghost fills = { λ b. record { ring_is = refl; slots_are = refl; held = b.held; in_order = refl; count = refl } };
}
