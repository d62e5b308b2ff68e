//! Caches: the buffers of one worker.
ghost use Rattle.std.specs.Prelude.{◌≡◌, ◌+◌, ◌-◌, ◌^◌, ◌<◌, ◌≤◌, MatchOption, IfOk, length, vec_len, vec_capacity};
ghost use Rattle.vg_model.specs.PoolBook.{IsCacheBook, empty_cache, most_pieces, pieces_of};
ghost use Rattle.vg_pool.specs.Contents.{nothing, received};
ghost use Rattle.vg_pool.specs.Moves.{most_cached};
ghost use Rattle.vg_pool.specs.Settlement.{counts_of};

use crate::buffers::Buffer;
use crate::spares::Spare;
use std::alloc::{AllocError, Global};
use std::marker::Model;
use std::sync::ledger::{Ledger, Share};
use vg_model::limits::{BUFFER_SIZE, LONGEST_PACKET};

/// The most buffers of a cache.
pub const MOST_CACHED: usize = 9472;

/// How many buffers `alloc` gave out of a cache, and how many `free` took into it, each buffer of a chain counted.
#[derive(Clone, Copy, Debug, Default)]
pub struct CacheCounts {
    /// How many `alloc` gave out.
    pub allocated: u64,
    /// How many `free` took in.
    pub freed: u64,
}

/// The buffers that one worker takes from and gives to, and its shares of the two ledgers of its pool.
#[derive(Drop)]
pub struct Cache<T: Ledger, G: Ledger> {
    pub(crate) items: Vec<Spare>,
    // How many buffers `alloc` gave and `free` took, each of a chain counted.
    allocated: u64,
    freed: u64,
    // One part of each ledger.
    pub(crate) taken: Share<T>,
    pub(crate) given: Share<G>,
}

impl<T: Ledger, G: Ledger> Model for Cache<T, G> {
    ghost use Rattle.std.specs.Prelude.{◌≡◌, ◌+◌, ◌≤◌, vec_len, vec_capacity};
    ghost use Rattle.vg_model.specs.PoolBook.{CacheBook};
    ghost use Rattle.vg_pool.specs.Moves.{most_cached};

    ghost Value = { CacheBook };

    ghost view = { λ c. record { len = vec_len c.items; taken = c.taken.amount; given = c.given.amount; allocated = c.allocated; freed = c.freed } };

    ghost invariant = { λ c. (vec_len c.items ≤ most_cached) × (most_cached ≤ vec_capacity c.items)
        × (vec_len c.items + c.given.amount + c.allocated ≡ c.taken.amount + c.freed)
        × (c.taken.parts ≡ 1) × (c.given.parts ≡ 1) };
}

impl<T: Ledger, G: Ledger> Cache<T, G> {
    // An empty cache, with its room.
    pub(crate) fn new(
        alloc: Global,
        taken: Share<T>,
        given: Share<G>,
    ) -> Result<Cache<T, G>, AllocError>
        requires taken { (taken.parts ≡ 1) × (taken.amount ≡ 0) }
        requires given { (given.parts ≡ 1) × (given.amount ≡ 0) }
        ensures { IfOk result (λ cache. cache ≡ empty_cache) }
    {
        Ok(Cache {
            items: Vec::with_capacity(alloc, MOST_CACHED)?,
            allocated: 0,
            freed: 0,
            taken,
            given,
        })
    }

    /// How many buffers it has.
    pub fn len(&self) -> u32
        ensures len { result ≡ self.now.len }
        ensures room { self.now.len ≤ most_cached }
        ensures kept { IsCacheBook self.now }
    {
        self.items.len() as u32
    }

    /// An empty chain for a packet of so many bytes: as many buffers as it takes, or one where it has more than [`LONGEST_PACKET`],
    /// since such a packet keeps none. `None` exactly where the cache has fewer.
    #[inline(always)]
    pub fn alloc(&mut self, bytes: u32) -> Option<Buffer>
        requires { self.old.allocated < 2 ^ 62 }
        ensures { let pieces = pieces_of bytes in MatchOption result
            ((self.old.len < pieces) × (self.new ≡ self.old))
            (λ buffer. (buffer ≡ nothing pieces) × (pieces ≤ self.old.len)
            × (self.new ≡ record self.old { len = self.old.len - pieces; allocated = self.old.allocated + pieces })) }
    {
        let count = pieces(bytes);
        if self.items.len() < count as usize {
            return None;
        }
        let buffer = chain(&mut self.items, count);
        self.allocated += u64::from(count);
        Some(buffer)
    }

    /// A chain with the packet of this number and these bytes, as it is received: what [`Cache::alloc`] gives for so many bytes, filled by
    /// [`Buffer::fill`]. `None` exactly where the cache has fewer buffers.
    #[inline(always)]
    pub fn receive(&mut self, number: u32, bytes: &[u8]) -> Option<Buffer>
        requires { self.old.allocated < 2 ^ 62 }
        ensures { let pieces = pieces_of (length bytes.now) in MatchOption result
            ((self.old.len < pieces) × (self.new ≡ self.old))
            (λ buffer. (buffer ≡ received pieces number bytes.now) × (pieces ≤ self.old.len)
            × (self.new ≡ record self.old { len = self.old.len - pieces; allocated = self.old.allocated + pieces })) }
    {
        if bytes.len() > BUFFER_SIZE {
            return self.receive_long(number, bytes);
        }
        let first = self.items.pop()?;
        self.allocated += 1;
        Some(first.filled(number, bytes))
    }

    // The same for a packet of more bytes than a buffer has.
    #[inline(never)]
    fn receive_long(&mut self, number: u32, bytes: &[u8]) -> Option<Buffer>
        requires { self.old.allocated < 2 ^ 62 }
        ensures { let pieces = pieces_of (length bytes.now) in MatchOption result
            ((self.old.len < pieces) × (self.new ≡ self.old))
            (λ buffer. (buffer ≡ received pieces number bytes.now) × (pieces ≤ self.old.len)
            × (self.new ≡ record self.old { len = self.old.len - pieces; allocated = self.old.allocated + pieces })) }
    {
        let mut buffer = self.alloc(asked_len(bytes))?;
        buffer.fill(number, bytes);
        Some(buffer)
    }

    /// Takes the buffers of a chain in. What it carried is forgotten as they are given out again.
    #[inline(always)]
    pub fn free(&mut self, buffer: Buffer)
        requires room { self.old.len + buffer.pieces ≤ most_cached }
        requires count { self.old.freed < 2 ^ 62 }
        ensures { self.new ≡ record self.old { len = self.old.len + buffer.pieces; freed = self.old.freed + buffer.pieces } }
    {
        let before = self.items.len();
        unchain(buffer, &mut self.items);
        self.freed += (self.items.len() - before) as u64;
    }

    // How many buffers `alloc` gave and `free` took.
    pub(crate) fn counts(&self) -> CacheCounts
        ensures { result ≡ counts_of self.now }
    {
        CacheCounts {
            allocated: self.allocated,
            freed: self.freed,
        }
    }

    // Its shares of the two ledgers. Buffers that it still has are lost.
    pub(crate) fn into_shares(self) -> (Share<T>, Share<G>)
        ensures taken { (result.0.parts ≡ 1) × (result.0.amount ≡ self.taken) }
        ensures given { (result.1.parts ≡ 1) × (result.1.amount ≡ self.given) }
    {
        let Cache {
            items: _,
            allocated: _,
            freed: _,
            taken,
            given,
        } = self;
        (taken, given)
    }
}

// How many buffers a packet of so many bytes takes.
#[inline]
fn pieces(bytes: u32) -> u32
    ensures pieces { result ≡ pieces_of bytes }
    ensures bounds { (1 ≤ result) × (result ≤ most_pieces) }
{
    let bytes = bytes as usize;
    if bytes <= BUFFER_SIZE || bytes > LONGEST_PACKET {
        return 1;
    }
    bytes.div_ceil(BUFFER_SIZE) as u32
}

// A length for which a packet of these bytes takes as many buffers: its own, or one more than the longest where it is too long.
#[inline]
fn asked_len(bytes: &[u8]) -> u32
    ensures { pieces_of result ≡ pieces_of (length bytes.now) }
{
    bytes.len().min(LONGEST_PACKET + 1) as u32
}

// A chain of so many of the buffers, with no packet.
#[inline]
fn chain(items: &mut Vec<Spare>, count: u32) -> Buffer
    requires bounds { (1 ≤ count) × (count ≤ most_pieces) }
    requires enough { count ≤ vec_len items.old }
    ensures buffer { result ≡ nothing count }
    ensures items { vec_len items.new + count ≡ vec_len items.old }
    ensures room { vec_capacity items.new ≡ vec_capacity items.old }
{
    let Some(first) = items.pop() else {
        unreachable!()
    };
    let mut buffer = first.filled(0, &[]);
    for _ in 1..count {
        let Some(spare) = items.pop() else {
            unreachable!()
        };
        buffer.lengthen(spare);
    }
    buffer
}

// Puts the buffers of a chain behind the others.
#[inline]
fn unchain(buffer: Buffer, items: &mut Vec<Spare>)
    requires { vec_len items.old + buffer.pieces ≤ vec_capacity items.old }
    ensures items { vec_len items.new ≡ vec_len items.old + buffer.pieces }
    ensures room { vec_capacity items.new ≡ vec_capacity items.old }
{
    let (first, mut rest) = buffer.apart();
    items.push_reserved(first);
    while let Some(spare) = rest.pop() {
        items.push_reserved(spare);
    }
}
