//! The pool.
ghost use Rattle.std.specs.Prelude.{◌≡◌, ◌+◌, ◌-◌, ◌≤◌, IfOk, None, Some, vec_len, vec_capacity, replicate, sum_by, min};
ghost use Rattle.vg_model.specs.PoolBook.{IsPoolBook, empty_cache};
ghost use Rattle.vg_pool.specs.Moves.{taken_of, given_of, wanted, surplus};
ghost use Rattle.vg_pool.specs.Settlement.{book, settlement_of};

use crate::areas::AREA_SIZE;
use crate::books::PoolLedger;
use crate::caches::{Cache, MOST_CACHED};
use crate::settled::Settled;
use crate::spares::Spare;
use arrayvec::ArrayVec;
use std::alloc::{AllocError, Global};
use std::marker::Model;
use std::sync::ledger::{Blank, Book, Ledger, Share};
use vg_land::cut_plots;
use vg_model::Memory;

/// Where so many buffers were ever taken from a pool, it gives no more.
pub const MOST_TAKEN: u64 = 1 << 62;

/// How many buffers go between a pool and a cache at once.
pub const LOT: u32 = 128;

/// A cache with fewer buffers takes a lot: it may lack some for the longest packet.
pub const LEAST_KEPT: u32 = 5;

/// A cache with more buffers gives some back.
pub const MOST_KEPT: u32 = 256;

/// The buffers that no cache has, and the books of those ever taken and ever given back.
#[derive(Drop)]
pub struct Pool<T: PoolLedger, G: Ledger> {
    list: Vec<Spare>,
    total: u32,
    // How many buffers were ever taken, as its book says.
    taken_so_far: u64,
    taken: Book<T>,
    given: Book<G>,
    // What is left of the shares once each cache has its part: nothing.
    no_taken: Share<T>,
    no_given: Share<G>,
    // What the settlement came to, once there was one.
    settled: Option<Settled>,
}

impl<T: PoolLedger, G: Ledger> Model for Pool<T, G> {
    ghost use Rattle.std.specs.Prelude.{◌≡◌, ◌+◌, ◌^◌, ◌<◌, ◌≤◌, vec_len, vec_capacity};
    ghost use Rattle.vg_pool.specs.Settlement.{PoolState};

    ghost Value = { PoolState };

    ghost view = { λ p. record { len = vec_len p.list; taken = p.taken.total; given = p.given.total; settled = p.settled } };

    ghost invariant = { λ p. (p.total ≡ T.total) × (p.total < 2 ^ 32) × (p.taken_so_far ≡ p.taken.total)
        × (vec_len p.list ≤ p.total) × (p.total ≤ vec_capacity p.list)
        × (vec_len p.list + p.taken.total ≡ p.total + p.given.total)
        × (p.no_taken.parts ≡ 0) × (p.no_given.parts ≡ 0) × (T.parts ≤ 8) };
}

impl<T: PoolLedger, G: Ledger> Pool<T, G> {
    /// A pool of `total` buffers, and its caches, all empty. The two ledgers aren't opened yet, and are each cut into one part for
    /// each cache.
    ///
    /// # Errors
    ///
    /// [`Memory`] where memory runs out.
    pub fn new(
        alloc: Global,
        total: u32,
        caches: usize,
        taken: Blank,
        given: Blank,
    ) -> Result<(Pool<T, G>, Vec<Cache<T, G>>), Memory>
        requires caches { (1 ≤ caches) × (caches ≤ 8) }
        requires total { total ≡ T.total }
        requires taken { (taken.name ≡ T.name) × (taken.parts ≡ T.parts) × (taken.parts ≡ caches) }
        requires given { (given.name ≡ G.name) × (given.parts ≡ G.parts) × (given.parts ≡ caches) }
        ensures pool { IfOk result (λ made. made.0 ≡ record { len = total; taken = 0; given = 0; settled = None }) }
        ensures caches { IfOk result (λ made. made.1.items ≡ replicate caches empty_cache) }
    {
        let list = buffers(alloc, total)?;
        let (taken, mut no_taken) = taken.open::<T>();
        let (given, mut no_given) = given.open::<G>();
        let mut made = Vec::with_capacity(alloc, caches)?;
        for _ in 0..caches {
            let cache = Cache::new(alloc, no_taken.split_off(1, 0), no_given.split_off(1, 0))?;
            made.push(cache)?;
        }
        let pool = Pool {
            list,
            total,
            taken_so_far: 0,
            taken,
            given,
            no_taken,
            no_given,
            settled: None,
        };
        Ok((pool, made))
    }

    /// How many buffers are in the pool.
    pub fn len(&self) -> u32
        ensures len { result ≡ self.now.len }
        ensures kept { IsPoolBook T.total (book self.now) }
    {
        self.list.len() as u32
    }

    /// Moves buffers into the cache, and answers how many: `n`, or as many as the pool has, or as the cache has room for, whichever
    /// is least; none where [`MOST_TAKEN`] were ever taken.
    pub fn take(&mut self, n: u32, cache: &mut Cache<T, G>) -> u32
        ensures count { result ≡ taken_of n self.old cache.old }
        ensures pool { self.new ≡ record self.old { len = self.old.len - result; taken = self.old.taken + result } }
        ensures cache { cache.new ≡ record cache.old { len = cache.old.len + result; taken = cache.old.taken + result } }
    {
        if self.taken_so_far >= MOST_TAKEN {
            return 0;
        }
        let room = MOST_CACHED - cache.items.len();
        let count = (n as usize).min(self.list.len()).min(room);
        move_last(&mut self.list, &mut cache.items, count);
        self.taken.add(&mut cache.taken, count as u64);
        self.taken_so_far += count as u64;
        count as u32
    }

    /// Moves buffers back, and answers how many: `n`, or as many as the cache has, or as the pool lacks, whichever is least.
    pub fn give(&mut self, n: u32, cache: &mut Cache<T, G>) -> u32
        ensures count { result ≡ given_of T.total n self.old cache.old }
        ensures pool { self.new ≡ record self.old { len = self.old.len + result; given = self.old.given + result } }
        ensures cache { cache.new ≡ record cache.old { len = cache.old.len - result; given = cache.old.given + result } }
    {
        let lacking = self.total as usize - self.list.len();
        let count = (n as usize).min(cache.items.len()).min(lacking);
        move_last(&mut cache.items, &mut self.list, count);
        self.given.add(&mut cache.given, count as u64);
        count as u32
    }

    /// Where the cache has fewer than [`LEAST_KEPT`] buffers, takes [`LOT`], as `take` does; else none. Answers how many.
    pub(crate) fn refill(&mut self, cache: &mut Cache<T, G>) -> u32
        ensures count { result ≡ taken_of (wanted cache.old) self.old cache.old }
        ensures pool { self.new ≡ record self.old { len = self.old.len - result; taken = self.old.taken + result } }
        ensures cache { cache.new ≡ record cache.old { len = cache.old.len + result; taken = cache.old.taken + result } }
    {
        if cache.len() >= LEAST_KEPT {
            return 0;
        }
        self.take(LOT, cache)
    }

    /// Gives lots of [`LOT`] buffers back, as `give` does, as long as the cache has more than [`MOST_KEPT`] and the pool isn't
    /// full. Answers how many.
    pub(crate) fn relieve(&mut self, cache: &mut Cache<T, G>) -> u32
        ensures count { result ≡ given_of T.total (surplus cache.old) self.old cache.old }
        ensures pool { self.new ≡ record self.old { len = self.old.len + result; given = self.old.given + result } }
        ensures cache { cache.new ≡ record cache.old { len = cache.old.len - result; given = cache.old.given + result } }
    {
        let lots = cache.len().saturating_sub(MOST_KEPT).div_ceil(LOT);
        self.give(lots * LOT, cache)
    }

    /// Takes all buffers of the caches back. The caches are all those that were made with the pool, and no more buffers were freed
    /// into them than came out of them.
    ///
    /// The pool then has all its buffers but those that `alloc` gave and no `free` took.
    pub fn settle(&mut self, caches: Vec<Cache<T, G>>)
        requires all { (vec_len caches ≡ T.parts) × (vec_len caches ≡ G.parts) }
        requires freed { sum_by (λ c. c.freed) caches.items ≤ sum_by (λ c. c.allocated) caches.items }
        ensures len { self.new.len + sum_by (λ c. c.allocated) caches.items ≡ T.total + sum_by (λ c. c.freed) caches.items }
        ensures taken { self.new.taken ≡ self.old.taken }
        ensures given { self.new.given + self.old.len ≡ self.old.given + self.new.len }
        ensures settled { self.new.settled ≡ Some (settlement_of T.total self.new.len caches.items) }
    {
        let mut taken = self.no_taken.empty();
        let mut given = self.no_given.empty();
        let mut allocated = 0_u64;
        let mut counts = ArrayVec::new();
        for mut cache in caches {
            self.give(cache.len(), &mut cache);
            let count = cache.counts();
            allocated = allocated.saturating_add(count.allocated);
            counts.push(count);
            let (cache_taken, cache_given) = cache.into_shares();
            taken.merge(cache_taken);
            given.merge(cache_given);
        }
        // The books now say that every buffer had its place in the list.
        self.taken.audit(&mut taken);
        self.given.audit(&mut given);
        let settled = Settled::new(self.list.len() as u32, self.total, allocated, counts);
        self.settled = Some(settled);
    }

    /// Gives the memory of its buffers back, and answers what its settlement came to; `None` exactly where it was never settled. The bytes of
    /// all buffers lie in one block, which goes with the last buffer that anyone holds.
    pub fn end(self) -> Option<Settled>
        ensures { result ≡ self.settled }
    {
        let Pool {
            list: _,
            total: _,
            taken_so_far: _,
            taken: _,
            given: _,
            no_taken: _,
            no_given: _,
            settled,
        } = self;
        settled
    }
}

// So many buffers. Their bytes lie in one block, which is not written yet.
fn buffers(alloc: Global, total: u32) -> Result<Vec<Spare>, AllocError>
    ensures len { IfOk result (λ list. vec_len list ≡ total) }
    ensures room { IfOk result (λ list. total ≤ vec_capacity list) }
{
    let mut list = Vec::with_capacity(alloc, total as usize)?;
    if total == 0 {
        return Ok(list);
    }
    for plot in cut_plots(alloc, total, AREA_SIZE as u32)? {
        list.push(Spare::made(alloc, plot)?)?;
    }
    Ok(list)
}

// Moves the last buffers of one list behind those of another.
fn move_last(from: &mut Vec<Spare>, to: &mut Vec<Spare>, count: usize)
    requires has { count ≤ vec_len from.old }
    requires room { vec_len to.old + count ≤ vec_capacity to.old }
    ensures from { vec_len from.new + count ≡ vec_len from.old }
    ensures to { vec_len to.new ≡ vec_len to.old + count }
    ensures room { (vec_capacity from.new ≡ vec_capacity from.old) × (vec_capacity to.new ≡ vec_capacity to.old) }
{
    for _ in 0..count {
        let Some(spare) = from.pop() else {
            unreachable!()
        };
        to.push_reserved(spare);
    }
}
