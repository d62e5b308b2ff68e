//! Frames that wait, in memory that is reserved for them.
ghost use Rattle.std.specs.Prelude.{◌≡◌, ◌+◌, ◌≤◌, [], ◌∷◌, ◌++◌, length, take, drop, MatchOption, IfOk};
ghost use Rattle.std.specs.VecDeque.{deque_len, deque_capacity};
ghost use Rattle.vg_hands.specs.Handed.{most_handed};
ghost use Rattle.vg_backlog.specs.Books.{packets_in};

use std::alloc::{AllocError, Global};
use std::collections::VecDeque;
use std::marker::Model;
use vg_hands::{HandFrame, HandPackets};
use vg_pool::Buffer;

/// What a frame has beside its packets, and how many these are.
#[derive(Drop)]
pub(crate) struct Head {
    node: u16,
    count: u16,
    generation: u32,
}

/// Frames, oldest first, in two queues that never grow.
#[derive(Drop)]
pub(crate) struct Waiting {
    heads: VecDeque<Head, Global>,
    // The packets of the first frame, then those of the next, and so on.
    buffers: VecDeque<Buffer, Global>,
}

impl Model for Waiting {
    ghost use Rattle.std.specs.Prelude.{◌≤◌};
    ghost use Rattle.std.specs.VecDeque.{deque_capacity};
    ghost use Rattle.vg_backlog.specs.Queues.{Store, frames_of, AreOf};

    ghost Value = { Store };

    ghost view = { λ w. record { frames = frames_of w.heads.items w.buffers.items; room = deque_capacity w.buffers } };

    ghost invariant = { λ w. AreOf w.heads.items w.buffers.items × (deque_capacity w.buffers ≤ deque_capacity w.heads) };
}

impl Waiting {
    // No frame, with room for so many packets.
    pub(crate) fn new(alloc: Global, room: usize) -> Result<Waiting, AllocError>
        ensures { IfOk result (λ w. w ≡ record { frames = []; room = room }) }
    {
        let heads = VecDeque::with_capacity(alloc, room)?;
        let buffers = VecDeque::with_capacity(alloc, room)?;
        Ok(Waiting { heads, buffers })
    }

    // How many frames it has.
    pub(crate) fn len(&self) -> usize
        ensures { result ≡ length self.now.frames }
    {
        self.heads.len()
    }

    // How many packets its frames have.
    pub(crate) fn packets(&self) -> usize
        ensures { result ≡ packets_in self.now.frames }
    {
        self.buffers.len()
    }

    // Puts a frame behind the others.
    pub(crate) fn push(&mut self, frame: HandFrame)
        requires { packets_in self.old.frames + length frame.packets ≤ self.old.room }
        ensures { self.new ≡ record self.old { frames = self.old.frames ++ frame ∷ [] } }
    {
        let head = Head {
            generation: frame.generation(),
            node: frame.node(),
            count: frame.count_packets() as u16,
        };
        self.heads.push_back_reserved(head);
        put_all(&mut self.buffers, frame.into_packets());
    }

    // Takes the oldest frame out.
    pub(crate) fn pop(&mut self) -> Option<HandFrame>
        ensures { MatchOption result ((self.old.frames ≡ []) × (self.new ≡ self.old)) (λ frame. self.old ≡ record self.new { frames = frame ∷ self.new.frames }) }
    {
        let head = self.heads.pop_front()?;
        let packets = take_first(&mut self.buffers, head.count);
        Some(HandFrame::new(head.node, head.generation, packets))
    }
}

// Puts packets behind those of a queue.
fn put_all(buffers: &mut VecDeque<Buffer, Global>, packets: HandPackets)
    requires { deque_len buffers.old + length packets ≤ deque_capacity buffers.old }
    ensures items { buffers.new.items ≡ buffers.old.items ++ packets }
    ensures capacity { deque_capacity buffers.new ≡ deque_capacity buffers.old }
{
    let mut packets = packets.unpack();
    'packets: while let Some(buffer) = packets.take_first() {
        buffers.push_back_reserved(buffer);
    }
}

// Takes so many packets from the front of a queue.
fn take_first(buffers: &mut VecDeque<Buffer, Global>, count: u16) -> HandPackets
    requires few { count ≤ most_handed }
    requires there { count ≤ deque_len buffers.old }
    ensures packets { result ≡ take count buffers.old.items }
    ensures rest { buffers.new.items ≡ drop count buffers.old.items }
    ensures capacity { deque_capacity buffers.new ≡ deque_capacity buffers.old }
{
    let mut packets = HandPackets::new();
    'packets: for place in 0..count {
        let Some(buffer) = buffers.pop_front() else {
            unreachable!()
        };
        packets.push(buffer);
    }
    packets
}
