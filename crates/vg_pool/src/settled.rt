//! What the settlement of a pool came to.
ghost use Rattle.std.specs.Prelude.{◌≡◌};

use crate::caches::CacheCounts;
use arrayvec::ArrayVec;
use std::marker::Model;

// A pool has at most so many caches.
pub(crate) const MOST_CACHES: usize = 8;

/// What the settlement of a pool with all its caches came to. Only [`Pool::end`](crate::Pool::end) makes one, of a pool that was
/// settled, so the buffers that it counts were really there.
#[derive(Debug, Drop)]
pub struct Settled {
    len: u32,
    total: u32,
    allocated: u64,
    // Of each cache, in the order in which they were settled.
    caches: ArrayVec<CacheCounts, MOST_CACHES>,
}

impl Model for Settled {
    ghost use Rattle.vg_pool.specs.Settlement.{Settlement};

    ghost Value = { Settlement };

    ghost view = { λ s. record { len = s.len; total = s.total; allocated = s.allocated; caches = s.caches.items } };
}

impl Settled {
    pub(crate) fn new(
        len: u32,
        total: u32,
        allocated: u64,
        caches: ArrayVec<CacheCounts, MOST_CACHES>,
    ) -> Settled
        ensures { result ≡ record { len = len; total = total; allocated = allocated; caches = caches.items } }
    {
        Settled {
            len,
            total,
            allocated,
            caches,
        }
    }

    /// How many buffers the pool had once it was settled.
    pub fn len(&self) -> u32
        ensures { result ≡ self.now.len }
    {
        self.len
    }

    /// How many buffers the pool was made with.
    pub fn total(&self) -> u32
        ensures { result ≡ self.now.total }
    {
        self.total
    }

    /// How many buffers `alloc` gave out of all the caches, each buffer of a chain counted, or [`u64::MAX`] where they are more.
    pub fn allocated(&self) -> u64
        ensures { result ≡ self.now.allocated }
    {
        self.allocated
    }

    /// How many buffers each cache gave out and took in, each buffer of a chain counted, in the order in which the caches were settled.
    pub fn caches(&self) -> &[CacheCounts]
        ensures { result.now ≡ self.now.caches }
    {
        self.caches.as_slice()
    }
}
