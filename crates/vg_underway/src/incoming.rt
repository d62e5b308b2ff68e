//! Queues from other workers.
ghost use Rattle.std.specs.Prelude.{◌≡◌, ◌≢◌, ◌++◌, List, [], ◌∷◌, ◌<◌, ◌^◌, length, None, Some, IfNone, IfSome};
ghost use Rattle.std.specs.Bool.{MatchBool};
ghost use Rattle.vg_steps.specs.Trails.{found};
ghost use Rattle.vg_ring.specs.Ends.{taken, rx_ring, rx_trail};
ghost use Rattle.vg_ring.specs.WordPlaces.{tail_word};
ghost use Rattle.vg_journeys.specs.Accounts.{HandoffFrame};
ghost use Rattle.vg_underway.specs.Queues.{Comes};

use std::marker::Model;
use vg_hands::HandFrame;
use vg_ring::RingRx;

/// The queue from another worker, with the frame that waits to be taken, if any. Contracts see the frames that were taken without it,
/// as if it were still in the queue.
#[derive(Drop)]
pub struct Incoming {
    ring: RingRx<HandFrame>,
    waits: Option<HandFrame>,
    count: u64,
}

impl Model for Incoming {
    ghost use Rattle.std.specs.Prelude.{◌≡◌, ◌≤◌, ◌++◌, length, take};
    ghost use Rattle.std.specs.Option.{option_to_list};
    ghost use Rattle.vg_ring.specs.Ends.{taken, rx_ring, rx_trail};
    ghost use Rattle.vg_underway.specs.Queues.{Queue};

    ghost Value = { Queue };

    ghost view = { λ i. record { ring = rx_ring i.ring; taken = take i.count (taken i.ring); waits = i.waits; trail = rx_trail i.ring } };

    ghost invariant = { λ i. (taken i.ring ≡ take i.count (taken i.ring) ++ option_to_list i.waits) × (i.count ≤ length (taken i.ring)) };
}

impl Incoming {
    /// The queue of which this is the end, from which nothing was taken.
    pub(crate) fn new(ring: RingRx<HandFrame>) -> Incoming
        requires { taken ring ≡ [] }
        ensures { result ≡ record { ring = rx_ring ring; taken = []; waits = None; trail = rx_trail ring } }
    {
        Incoming {
            ring,
            waits: None,
            count: 0,
        }
    }

    /// The frame that waits, or else the next one that is in the queue. It counts as taken. `None` comes only where no frame waits, and
    /// the ring's tail that this call found is the number of frames taken.
    pub(crate) fn next_frame(&mut self) -> Option<HandFrame>
        requires { length self.old.taken < 2 ^ 63 }
        ensures ring { self.new.ring ≡ self.old.ring }
        ensures none { IfNone result ((self.old.waits ≡ None) × (self.new ≡ record self.old { trail = found tail_word (length self.old.taken) ∷ self.old.trail })) }
        ensures some { IfSome result (λ frame. self.new ≡ record self.old { taken = self.old.taken ++ frame ∷ []; waits = None; trail = self.new.trail }) }
        ensures comes { IfSome result (λ frame. Comes self.old.waits self.old.taken self.old.trail frame self.new.trail) }
    {
        let frame = match self.waits.take() {
            Some(frame) => frame,
            None => self.ring.pop()?,
        };
        self.count += 1;
        Some(frame)
    }

    /// Lets the frame wait that was taken last. It counts as not taken.
    pub(crate) fn put_back(&mut self, frame: HandFrame)
        requires { (front : List HandoffFrame) × (self.old.waits ≡ None) × (self.old.taken ≡ front ++ frame ∷ []) }
        ensures ring { self.new.ring ≡ self.old.ring }
        ensures waits { self.new.waits ≡ Some frame }
        ensures taken { self.new.taken ++ frame ∷ [] ≡ self.old.taken }
        ensures trail { self.new.trail ≡ self.old.trail }
    {
        self.count -= 1;
        self.waits = Some(frame);
    }

    /// How many frames were taken.
    pub fn count(&self) -> u64
        ensures { result ≡ length self.now.taken }
    {
        self.count
    }

    /// Whether no frame waits.
    pub fn is_idle(&self) -> bool
        ensures { MatchBool result (self.now.waits ≡ None) (self.now.waits ≢ None) }
    {
        self.waits.is_none()
    }

    /// Its end of the queue.
    pub fn into_ring(self) -> RingRx<HandFrame>
        requires { self.waits ≡ None }
        ensures ring { rx_ring result ≡ self.ring }
        ensures taken { taken result ≡ self.taken }
        ensures trail { rx_trail result ≡ self.trail }
    {
        self.ring
    }
}
