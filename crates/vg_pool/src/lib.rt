//! Packet buffers: a pool of them, stacks of them, and a cache for each worker.
//!
//! A pool has a fixed number of buffers, each a block with room for 2,048 bytes of a packet and its metadata, as the buffers of VLIB are.
//! A packet lies in a chain of one to five of them, and the first one has 64 bytes more, for what may be put in front. A packet of up to
//! 9,216 bytes is received into buffers; on its way it may get longer by the room in front, so it has at most 9,280.
//! All memory is taken as the pool is made. A worker takes buffers from its own [`Cache`] and gives them back to it, and now and then
//! many at once go between the cache and the [`Pool`].
//!
//! What calls cost: [`Cache::alloc`] and [`Cache::free`] take no lock and no memory. They move one pointer for each buffer of the chain,
//! at most five, between the cache's list and the caller, and count them; `alloc` also clears the first block's metadata and links the
//! others behind it, and [`Cache::receive`] sets the metadata to that of a packet and copies its bytes in. [`Pool::take`] and [`Pool::give`] move one pointer a buffer. [`BufferStack::push`] and [`BufferStack::pop`] write
//! the link in the chain's first block, and [`BufferStack::reversed`] those of all its chains. [`Buffer::head`] and all that reads or
//! writes the metadata look at the first block alone. [`Buffer::piece`] follows a link for each buffer in front of that part, and
//! [`Buffer::pieces`] and [`Cache::free`] follow all links of the chain.
//!
//! [`Cache::receive`], [`Buffer::fill`] and [`Buffer::lay`] copy a packet in, and [`Buffer::copy_into`] copies one out; [`Buffer::cut`] and [`Buffer::tag`] move its
//! first twelve bytes; [`Buffer::write`] copies in what it is given; no other call copies any bytes of a packet. The bytes of a buffer aren't
//! written as the pool is made: they are as a packet's bytes are copied in, and the room in front of these is filled with zeros, once.
//!
//! The pool's book says where the buffers are: each of the total is in the pool's list or is one of the units out, and these are what
//! was ever taken without having been given back. Two ledgers carry the proof, and cost nothing when it runs. Type parameters name them, `T` for
//! the buffers ever taken and `G` for those ever given back, so a cache is of a pool where both have the same.
//!
//! In which order to read: `areas`, `parts`, `buffers`, `stacks` with `spares`, `caches`, `pools` with `books` and `settled`, `locked`,
//! `laws`.
#![tactic(auto)]

mod areas;
pub mod books;
pub mod buffers;
pub mod caches;
pub mod laws;
pub mod locked;
mod parts;
pub mod pools;
pub mod settled;
mod spares;
pub mod stacks;

pub use books::PoolLedger;
pub use buffers::{Buffer, know_contents};
pub use caches::{Cache, CacheCounts, MOST_CACHED};
pub use locked::LockedPool;
pub use pools::{LEAST_KEPT, LOT, MOST_KEPT, MOST_TAKEN, Pool};
pub use settled::Settled;
pub use stacks::BufferStack;
