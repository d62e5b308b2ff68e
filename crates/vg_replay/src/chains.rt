//! The buffer of the packet that is walked.
ghost use Rattle.std.specs.Prelude.{◌≡◌, ◌+◌, ◌≤◌, Some, true, length};
ghost use Rattle.vg_model.specs.Graph.{kind_at};
ghost use Rattle.vg_model.specs.Journey.{longest_packet};
ghost use Rattle.vg_model.specs.Packet.{fresh};
ghost use Rattle.vg_model.specs.PoolBook.{most_pieces};
ghost use Rattle.vg_model.specs.Valid.{IsTarget, most_room, most_extent};
ghost use Rattle.vg_pool.specs.Contents.{AreContents, Passes};

use std::alloc::Global;
use std::marker::{Brand, Model};
use std::sync::ledger::{Blank, Ledger};
use vg_fork::Fork;
use vg_model::limits::{LONGEST_PACKET, MOST_PIECES};
use vg_model::{Memory, Step};
use vg_nodes::KindSet;
use vg_pool::{Buffer, Pool, PoolLedger};

/// A chain of as many buffers as the longest packet takes, so that any packet goes into it.
#[derive(Drop)]
pub(crate) struct Chain {
    buffer: Buffer,
}

impl Model for Chain {
    ghost use Rattle.std.specs.Prelude.{◌≡◌};
    ghost use Rattle.vg_model.specs.PoolBook.{most_pieces};
    ghost use Rattle.vg_pool.specs.Contents.{Contents};

    ghost Value = { Contents };

    ghost view = { λ c. c.buffer };

    ghost invariant = { λ c. c.buffer.pieces ≡ most_pieces };
}

impl Chain {
    // All buffers of a pool.
    pub(crate) fn new(alloc: Global) -> Result<Chain, Memory> {
        first_chain::<Brand, Brand>(alloc, Blank::new(1), Blank::new(1))
    }

    // For reading alone.
    pub(crate) fn as_buffer(&self) -> &Buffer
        ensures { result.now ≡ self.now }
    {
        &self.buffer
    }

    // Makes it a packet of the capture that isn't too long.
    pub(crate) fn fill(&mut self, number: u32, bytes: &[u8])
        requires { length bytes.now ≤ longest_packet }
        ensures { self.new.packet ≡ fresh number bytes.now }
    {
        self.buffer.fill(number, bytes);
    }

    // Makes it a packet that waited.
    pub(crate) fn lay(&mut self, number: u32, room: u32, bytes: &[u8])
        requires room { room ≤ most_room }
        requires len { length bytes.now + room ≤ most_extent }
        ensures { self.new.packet ≡ record (fresh number bytes.now) { room = room } }
    {
        self.buffer.lay(number, room, bytes);
    }

    // Sets the number of the adjacency.
    pub(crate) fn set_adjacency(&mut self, adjacency: u16)
        ensures { self.new ≡ record self.old { packet = record self.old.packet { adjacency = Some adjacency } } }
    {
        self.buffer.set_adjacency(adjacency);
    }

    // Sets the number of the interface to transmit on.
    pub(crate) fn set_interface(&mut self, interface: u16)
        ensures { self.new ≡ record self.old { packet = record self.old.packet { interface = Some interface } } }
    {
        self.buffer.set_interface(interface);
    }

    // Sets the mark.
    pub(crate) fn mark(&mut self)
        requires { Passes self.old.packet }
        ensures { self.new ≡ record self.old { packet = record self.old.packet { checked = true } } }
    {
        self.buffer.mark();
    }

    // A visit of its packet at a node.
    #[inline]
    pub(crate) fn visit<K: KindSet>(&mut self, kinds: &K, fork: &Fork, node: u16) -> Step
        requires target { IsTarget (kind_at fork.now.graph node) }
        ensures visited { (result, self.new.packet) ≡ K.meaning fork.now.graph node self.old.packet }
    {
        kinds.visit(fork, node, &mut self.buffer)
    }
}

// A chain out of a pool of as many buffers as it needs, where these two ledgers count what is taken from the pool and given back.
fn first_chain<T: PoolLedger, G: Ledger>(
    alloc: Global,
    taken: Blank,
    given: Blank,
) -> Result<Chain, Memory>
    requires total { T.total ≡ most_pieces }
    requires taken { (taken.name ≡ T.name) × (taken.parts ≡ T.parts) × (taken.parts ≡ 1) }
    requires given { (given.name ≡ G.name) × (given.parts ≡ G.parts) × (given.parts ≡ 1) }
{
    let (mut pool, mut caches) = Pool::<T, G>::new(alloc, MOST_PIECES, 1, taken, given)?;
    let Some(mut cache) = caches.pop() else {
        return Err(Memory);
    };
    let _count = pool.take(MOST_PIECES, &mut cache);
    match cache.alloc(LONGEST_PACKET as u32) {
        Some(buffer) => Ok(Chain { buffer }),
        None => Err(Memory),
    }
}

/// What holds of every buffer.
pub(crate) fn know_contents(buffer: &Buffer)
    ensures { AreContents buffer.now }
{
    let _head = buffer.head();
}
