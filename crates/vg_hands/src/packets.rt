//! Lists of packets that are handed over.
ghost use Rattle.std.specs.Prelude.{◌≡◌, ◌<◌, ◌≤◌, [], ◌∷◌, ◌++◌, length, sum_by, MatchOption};
ghost use Rattle.vg_model.specs.Valid.{extent};
ghost use Rattle.vg_pool.specs.Contents.{Contents};
ghost use Rattle.std.specs.List.{AllByRecursion};
ghost use Rattle.vg_hands.specs.Handed.{most_handed, IsChained};

use std::marker::Model;
use std::mem;
use vg_pool::{Buffer, BufferStack, know_contents};

/// The buffers of a frame that is handed over, oldest first: at most [`FRAME_SIZE`](vg_model::limits::FRAME_SIZE).
///
/// It is six words, whatever the number of its buffers: they are stacked through their blocks. Both counts are kept, so to ask for
/// them touches no block.
#[derive(Drop)]
pub struct HandPackets {
    // The oldest buffers, oldest first.
    front: BufferStack,
    // Those behind them, newest first.
    back: BufferStack,
    count: usize,
    // How many bytes the packets and their rooms have together.
    bytes: usize,
}

impl Model for HandPackets {
    ghost use Rattle.std.specs.Prelude.{List};
    ghost use Rattle.vg_pool.specs.Contents.{Contents};
    ghost use Rattle.vg_hands.specs.Handed.{in_line, IsCounted};

    ghost Value = { List Contents };

    ghost view = { λ p. in_line p.front p.back };

    ghost invariant = { λ p. IsCounted (in_line p.front p.back) p.count p.bytes };
}

/// Buffers that are taken out of such a list, oldest first.
#[derive(Drop)]
pub struct Unpacked {
    // The oldest buffers, oldest first.
    front: BufferStack,
    // Those behind them, newest first.
    back: BufferStack,
}

impl Model for Unpacked {
    ghost use Rattle.std.specs.Prelude.{List};
    ghost use Rattle.vg_pool.specs.Contents.{Contents};
    ghost use Rattle.vg_hands.specs.Handed.{in_line};

    ghost Value = { List Contents };

    ghost view = { λ p. in_line p.front p.back };
}

impl HandPackets {
    /// No packet.
    pub fn new() -> HandPackets
        ensures { result ≡ [] }
    {
        HandPackets {
            front: BufferStack::new(),
            back: BufferStack::new(),
            count: 0,
            bytes: 0,
        }
    }

    /// How many packets it has.
    pub fn len(&self) -> usize
        ensures count { result ≡ length self.now }
        ensures few { length self.now ≤ most_handed }
    {
        self.count
    }

    /// How many bytes its packets and their rooms have together.
    pub fn count_bytes(&self) -> usize
        ensures { result ≡ sum_by (λ (c : Contents). extent c.packet) self.now }
    {
        self.bytes
    }

    /// Adds a packet behind the others.
    pub fn push(&mut self, buffer: Buffer)
        requires { length self.old < most_handed }
        ensures { self.new ≡ self.old ++ buffer ∷ [] }
    {
        know_contents(&buffer);
        self.count += 1;
        self.bytes += (buffer.len() + buffer.room()) as usize;
        self.back.push(buffer);
    }

    // The same packets. Where none stands in the front all are put there, so that to take them out in order touches each block once.
    // This itself touches each block, so it is for the one who put the packets in, and has the blocks at hand.
    pub(crate) fn oldest_first(self) -> HandPackets
        ensures { result ≡ self }
    {
        if !self.front.is_empty() {
            return self;
        }
        HandPackets {
            front: self.back.reversed(),
            back: BufferStack::new(),
            count: self.count,
            bytes: self.bytes,
        }
    }

    /// Its buffers, to be taken out.
    pub fn unpack(self) -> Unpacked
        ensures { result ≡ self }
    {
        Unpacked {
            front: self.front,
            back: self.back,
        }
    }
}

// Each of the packets lies in a chain.
pub(crate) fn know_chains(packets: &HandPackets)
    ensures { AllByRecursion IsChained packets.now }
{
    let _count = packets.count;
}

impl Unpacked {
    /// Takes the oldest packet out. `None` exactly where there is none. Of the blocks it touches this packet's alone; but where the front
    /// is used up, first those of all packets behind it.
    pub fn take_first(&mut self) -> Option<Buffer>
        ensures { MatchOption result ((self.old ≡ []) × (self.new ≡ [])) (λ buffer. self.old ≡ buffer ∷ self.new) }
    {
        if self.front.is_empty() {
            let back = mem::replace(&mut self.back, BufferStack::new());
            self.front = back.reversed();
        }
        self.front.pop()
    }
}
