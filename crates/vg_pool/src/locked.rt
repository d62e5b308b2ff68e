//! A pool that workers share.
ghost use Rattle.std.specs.Prelude.{◌≡◌, ◌+◌, ◌-◌, ◌≤◌, Some, sum_by, vec_len};
ghost use Rattle.vg_pool.specs.Moves.{wanted, surplus};
ghost use Rattle.vg_pool.specs.Settlement.{settlement_of};

use crate::books::PoolLedger;
use crate::caches::Cache;
use crate::pools::{LEAST_KEPT, MOST_KEPT, Pool};
use std::sync::ledger::Ledger;
use std::sync::{Mutex, Wait};

/// A pool behind a lock, which workers share by reference. Each of them has a cache of its own, so it takes the lock about once
/// in 128 buffers.
///
/// How many buffers a call finds in the pool depends on the other workers. Whenever the lock is free the pool's book is in order:
/// its list and the units out are the total.
#[derive(Drop)]
pub struct LockedPool<T: PoolLedger, G: Ledger> {
    pool: Mutex<Pool<T, G>>,
}

impl<T: PoolLedger, G: Ledger> LockedPool<T, G> {
    /// Puts the pool behind a lock.
    pub fn new(pool: Pool<T, G>) -> LockedPool<T, G> {
        LockedPool {
            pool: Mutex::new(pool),
        }
    }

    /// Where the cache has fewer than 5 buffers, takes 128, or as many as the pool has where it has fewer; else none. Answers how many.
    ///
    /// It waits for the lock where the cache has fewer than 5.
    pub fn refill<R: Wait>(&self, rt: &R, cache: &mut Cache<T, G>) -> u32
        ensures few { result ≤ wanted cache.old }
        ensures cache { cache.new ≡ record cache.old { len = cache.old.len + result; taken = cache.old.taken + result } }
    {
        if cache.len() >= LEAST_KEPT {
            return 0;
        }
        self.pool.lock(rt).refill(cache)
    }

    /// Gives buffers back, 128 at a time, as long as the cache has more than 256 and the pool isn't full. Answers how many.
    ///
    /// It waits for the lock where the cache has more than 256.
    pub fn relieve<R: Wait>(&self, rt: &R, cache: &mut Cache<T, G>) -> u32
        ensures few { result ≤ surplus cache.old }
        ensures cache { cache.new ≡ record cache.old { len = cache.old.len - result; given = cache.old.given + result } }
    {
        if cache.len() <= MOST_KEPT {
            return 0;
        }
        self.pool.lock(rt).relieve(cache)
    }

    /// The pool, settled with its caches, as [`Pool::settle`] leaves it: with all its buffers but those that `alloc` gave and no
    /// `free` took.
    pub fn close(self, caches: Vec<Cache<T, G>>) -> Pool<T, G>
        requires all { (vec_len caches ≡ T.parts) × (vec_len caches ≡ G.parts) }
        requires freed { sum_by (λ c. c.freed) caches.items ≤ sum_by (λ c. c.allocated) caches.items }
        ensures len { result.len + sum_by (λ c. c.allocated) caches.items ≡ T.total + sum_by (λ c. c.freed) caches.items }
        ensures settled { result.settled ≡ Some (settlement_of T.total result.len caches.items) }
    {
        let LockedPool { pool } = self;
        let mut pool = pool.into_inner();
        pool.settle(caches);
        pool
    }
}
