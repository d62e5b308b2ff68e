//! The buffer of the packet that is taken through its visits.
ghost use Rattle.std.specs.Prelude.{◌≡◌, ◌≤◌, length};
ghost use Rattle.vg_model.specs.Graph.{kind_at};
ghost use Rattle.vg_model.specs.Journey.{longest_packet};
ghost use Rattle.vg_model.specs.Packet.{fresh};
ghost use Rattle.vg_model.specs.PoolBook.{most_pieces};
ghost use Rattle.vg_model.specs.Valid.{IsTarget};

use std::alloc::Global;
use std::marker::{Brand, Model};
use std::sync::ledger::{Blank, Ledger};
use vg_fork::Fork;
use vg_model::limits::{LONGEST_PACKET, MOST_PIECES};
use vg_model::{Memory, Step};
use vg_nodes::KindSet;
use vg_pool::{Buffer, Pool, PoolLedger};

/// A chain of as many buffers as the longest packet takes, so that any packet goes into it. It is seen as the packet in it.
#[derive(Drop)]
pub struct Chain {
    buffer: Buffer,
}

impl Model for Chain {
    ghost use Rattle.std.specs.Prelude.{◌≡◌};
    ghost use Rattle.vg_model.specs.Packet.{Packet};
    ghost use Rattle.vg_model.specs.PoolBook.{most_pieces};

    ghost Value = { Packet };

    ghost view = { λ c. c.buffer.packet };

    ghost invariant = { λ c. c.buffer.pieces ≡ most_pieces };
}

impl Chain {
    /// All buffers of a pool of its own.
    ///
    /// # Errors
    ///
    /// [`Memory`] where memory runs out.
    pub fn new(alloc: Global) -> Result<Chain, Memory> {
        first_chain::<Brand, Brand>(alloc, Blank::new(1), Blank::new(1))
    }

    /// Makes it a packet of the capture, as it is received.
    pub fn fill(&mut self, number: u32, bytes: &[u8])
        requires { length bytes.now ≤ longest_packet }
        ensures { self.new ≡ fresh number bytes.now }
    {
        self.buffer.fill(number, bytes);
    }

    // For reading alone.
    pub(crate) fn as_buffer(&self) -> &Buffer
        ensures { result.now.packet ≡ self.now }
    {
        &self.buffer
    }

    // A visit of its packet at a node.
    pub(crate) fn visit<K: KindSet>(&mut self, kinds: &K, fork: &Fork, node: u16) -> Step
        requires target { IsTarget (kind_at fork.now.graph node) }
        ensures visited { (result, self.new) ≡ K.meaning fork.now.graph node self.old }
    {
        kinds.visit(fork, node, &mut self.buffer)
    }
}

// A chain out of a pool of as many buffers as it needs, where these two ledgers count what is taken from the pool and given back.
fn first_chain<T: PoolLedger, G: Ledger>(
    alloc: Global,
    taken: Blank,
    given: Blank,
) -> Result<Chain, Memory>
    requires total { T.total ≡ most_pieces }
    requires taken { (taken.name ≡ T.name) × (taken.parts ≡ T.parts) × (taken.parts ≡ 1) }
    requires given { (given.name ≡ G.name) × (given.parts ≡ G.parts) × (given.parts ≡ 1) }
{
    let (mut pool, mut caches) = Pool::<T, G>::new(alloc, MOST_PIECES, 1, taken, given)?;
    let Some(mut cache) = caches.pop() else {
        return Err(Memory);
    };
    let _count = pool.take(MOST_PIECES, &mut cache);
    match cache.alloc(LONGEST_PACKET as u32) {
        Some(buffer) => Ok(Chain { buffer }),
        None => Err(Memory),
    }
}
