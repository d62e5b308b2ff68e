//! Handoffs that count what they have accepted.
ghost use Rattle.std.specs.Prelude.{◌≡◌, length};

use vg_hands::{HandFrame, Handoff};
use vg_ring::{Full, RingTx};

/// A handoff, and the number of frames that it has accepted.
#[derive(Drop)]
pub struct Counting<H: Handoff<HandFrame>> {
    /// The handoff.
    pub handoff: H,
    /// How many frames it has accepted.
    pub accepted: u64,
    ghost counted: { accepted ≡ length (H.accepted handoff) },
}

impl<H: Handoff<HandFrame>> Handoff<HandFrame> for Counting<H> {
    ghost accepted = { λ c. H.accepted c.handoff };

    ghost refusals = { λ c. H.refusals c.handoff };

    ghost end = { λ c. H.end c.handoff };

    ghost ring = { λ c. H.ring c.handoff };

    ghost slots = { λ c. H.slots c.handoff };

    ghost free_room = { λ c. H.free_room c.handoff };

    ghost waiting = { λ c. H.waiting c.handoff };

    ghost closes = { λ c room. H.closes c.handoff room };

    ghost LOSSLESS = { H.LOSSLESS };

    const LOSSLESS: bool = H::LOSSLESS;

    fn push(&mut self, item: HandFrame) -> Result<(), Full<HandFrame>> {
        match self.handoff.push(item) {
            Ok(()) => {
                self.accepted += 1;
                Ok(())
            }
            Err(full) => Err(full),
        }
    }

    fn tick(&mut self) {
        self.handoff.tick();
    }

    fn gate_closed(&self, room: usize) -> bool {
        self.handoff.gate_closed(room)
    }

    fn fits(&self, room: usize) -> bool {
        self.handoff.fits(room)
    }

    fn held(&self) -> usize {
        self.handoff.held()
    }

    fn into_ring(self) -> RingTx<HandFrame> {
        self.handoff.into_ring()
    }

    ghost fills = { λ c. H.fills c.handoff };
}
