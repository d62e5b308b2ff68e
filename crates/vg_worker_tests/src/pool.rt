//! Tests of the pool, its caches and the buffers.
ghost use Rattle.std.specs.Prelude.{◌≡◌, [], ◌∷◌};
ghost use Rattle.vg_model.specs.Packet.{fresh};
ghost use Rattle.vg_pool.specs.Contents.{Passes, written};

use crate::checks::{has_length, holds, same};
use std::alloc::Global;
use std::marker::Brand;
use std::process::Abort;
use std::sync::Wait;
use std::sync::ledger::{Blank, Ledger};
use vg_model::Leg;
use vg_pool::{Buffer, BufferStack, Cache, LockedPool, Pool, PoolLedger, Settled};

// A pool of 300 with two caches: buffers are taken, allocated and freed, one of them into the other cache, and settled. What came
// of it.
fn settled<T: PoolLedger, G: Ledger, R: Abort>(
    rt: &R,
    alloc: Global,
    taken: Blank,
    given: Blank,
    loses_one: bool,
) -> Settled
    requires total { T.total ≡ 300 }
    requires taken { (taken.name ≡ T.name) × (taken.parts ≡ T.parts) × (taken.parts ≡ 2) }
    requires given { (given.name ≡ G.name) × (given.parts ≡ G.parts) × (given.parts ≡ 2) }
{
    let (mut pool, mut caches) = Pool::<T, G>::new(alloc, 300, 2, taken, given).expect(
        rt, "memory",
    );
    let mut second: Cache<T, G> = caches.pop().expect(rt, "a cache");
    let mut first = caches.pop().expect(rt, "another cache");
    same(rt, pool.len(), 300);
    same(rt, pool.take(128, &mut first), 128);
    same(rt, pool.take(128, &mut second), 128);
    same(rt, pool.take(128, &mut second), 44);
    same(rt, pool.give(44, &mut second), 44);
    let one = first.alloc(60).expect(rt, "a buffer");
    let other = first.alloc(60).expect(rt, "another buffer");
    first.free(one);
    if loses_one {
        drop(other);
    } else {
        second.free(other);
    }
    same(rt, first.len(), 127);
    caches.push(first).expect(rt, "memory");
    caches.push(second).expect(rt, "memory");
    pool.settle(caches);
    let len = pool.len();
    let settled = pool.end().expect(rt, "a settlement");
    same(rt, settled.len(), len);
    settled
}

// The same under ledgers of its own.
fn settled_anew<R: Abort>(rt: &R, alloc: Global, loses_one: bool) -> Settled {
    settled::<Brand, Brand, R>(rt, alloc, Blank::new(2), Blank::new(2), loses_one)
}

#[test]
fn all_buffers_are_back_as_the_caches_are_settled(rt: HostRuntime) {
    let settled = settled_anew(&rt, rt.alloc(), false);
    same(&rt, settled.len(), 300);
    same(&rt, settled.total(), 300);
    same(&rt, settled.allocated(), 2);

    // Both came out of the first cache, and one went into each.
    let caches = settled.caches();
    has_length(&rt, caches.len(), 2);
    same(&rt, (caches[0].allocated, caches[0].freed), (2, 1));
    same(&rt, (caches[1].allocated, caches[1].freed), (0, 1));
}

#[test]
fn a_dropped_buffer_is_missing_as_the_caches_are_settled(rt: HostRuntime) {
    let settled = settled_anew(&rt, rt.alloc(), true);
    same(&rt, settled.len(), 299);
    same(&rt, settled.total(), 300);
}

// A pool of 300 with two caches behind a lock: each is filled, and both are given back.
fn shared<T: PoolLedger, G: Ledger, R: Abort + Wait>(
    rt: &R,
    alloc: Global,
    taken: Blank,
    given: Blank,
) -> u32
    requires total { T.total ≡ 300 }
    requires taken { (taken.name ≡ T.name) × (taken.parts ≡ T.parts) × (taken.parts ≡ 2) }
    requires given { (given.name ≡ G.name) × (given.parts ≡ G.parts) × (given.parts ≡ 2) }
{
    let (pool, mut caches) = Pool::<T, G>::new(alloc, 300, 2, taken, given).expect(rt, "memory");
    let pool = LockedPool::new(pool);
    let mut second: Cache<T, G> = caches.pop().expect(rt, "a cache");
    let mut first = caches.pop().expect(rt, "another cache");
    same(rt, pool.refill(rt, &mut first), 128);
    same(rt, pool.refill(rt, &mut first), 0);
    same(rt, pool.refill(rt, &mut second), 128);
    caches.push(first).expect(rt, "memory");
    caches.push(second).expect(rt, "memory");
    let pool = pool.close(caches);
    pool.len()
}

// The same under ledgers of its own.
fn shared_anew<R: Abort + Wait>(rt: &R, alloc: Global) -> u32 {
    shared::<Brand, Brand, R>(rt, alloc, Blank::new(2), Blank::new(2))
}

#[test]
fn caches_are_filled_from_a_shared_pool(rt: HostRuntime) {
    same(&rt, shared_anew(&rt, rt.alloc()), 300);
}

// A pool of 600 with two caches, one of which takes 513 buffers and is relieved: of three times 128, since after two of them it
// still has 257.
fn relieved<T: PoolLedger, G: Ledger, R: Abort + Wait>(
    rt: &R,
    alloc: Global,
    taken: Blank,
    given: Blank,
)
    requires total { T.total ≡ 600 }
    requires taken { (taken.name ≡ T.name) × (taken.parts ≡ T.parts) × (taken.parts ≡ 2) }
    requires given { (given.name ≡ G.name) × (given.parts ≡ G.parts) × (given.parts ≡ 2) }
{
    let (mut pool, mut caches) = Pool::<T, G>::new(alloc, 600, 2, taken, given).expect(
        rt, "memory",
    );
    let mut cache: Cache<T, G> = caches.pop().expect(rt, "a cache");
    same(rt, pool.take(513, &mut cache), 513);
    let pool = LockedPool::new(pool);
    same(rt, pool.relieve(rt, &mut cache), 384);
    same(rt, cache.len(), 129);
    same(rt, pool.relieve(rt, &mut cache), 0);
    caches.push(cache).expect(rt, "memory");
    let pool = pool.close(caches);
    same(rt, pool.len(), 600);
    holds(rt, pool.end().is_some());
}

// The same under ledgers of its own.
fn relieved_anew<R: Abort + Wait>(rt: &R, alloc: Global) {
    relieved::<Brand, Brand, R>(rt, alloc, Blank::new(2), Blank::new(2))
}

#[test]
fn a_cache_with_too_many_buffers_is_relieved(rt: HostRuntime) {
    relieved_anew(&rt, rt.alloc())
}

// A pool that ends with its caches unsettled.
fn unsettled<T: PoolLedger, G: Ledger, R: Abort>(
    rt: &R,
    alloc: Global,
    taken: Blank,
    given: Blank,
) -> Option<Settled>
    requires total { T.total ≡ 300 }
    requires taken { (taken.name ≡ T.name) × (taken.parts ≡ T.parts) × (taken.parts ≡ 1) }
    requires given { (given.name ≡ G.name) × (given.parts ≡ G.parts) × (given.parts ≡ 1) }
{
    let (pool, _caches) = Pool::<T, G>::new(alloc, 300, 1, taken, given).expect(rt, "memory");
    pool.end()
}

// The same under ledgers of its own.
fn unsettled_anew<R: Abort>(rt: &R, alloc: Global) -> Option<Settled> {
    unsettled::<Brand, Brand, R>(rt, alloc, Blank::new(1), Blank::new(1))
}

#[test]
fn a_pool_that_is_not_settled_tells_nothing(rt: HostRuntime) {
    holds(&rt, unsettled_anew(&rt, rt.alloc()).is_none());
}

// An Ethernet frame whose IPv4 header passes its checks: 20 bytes from 192.0.2.1 to 10.1.2.3, of protocol 17 and time to live 64.
fn frame() -> [u8; 34]
    ensures passes { Passes (fresh 7 result) }
    ensures still_passes { Passes (written (fresh 7 result) 0 (2 ∷ 0 ∷ 0 ∷ 0 ∷ 0 ∷ 9 ∷ [])) }
{
    [
        2, 0, 0, 0, 0, 0, 2, 0, 0, 0, 0, 1, 0x08, 0x00, 0x45, 0, 0, 20, 0, 0, 0, 0, 64, 17, 0xac,
        0xd4, 192, 0, 2, 1, 10, 1, 2, 3,
    ]
}

// A buffer of a pool.
fn buffer<T: PoolLedger, G: Ledger, R: Abort>(
    rt: &R,
    alloc: Global,
    taken: Blank,
    given: Blank,
) -> Buffer
    requires total { T.total ≡ 300 }
    requires taken { (taken.name ≡ T.name) × (taken.parts ≡ T.parts) × (taken.parts ≡ 1) }
    requires given { (given.name ≡ G.name) × (given.parts ≡ G.parts) × (given.parts ≡ 1) }
{
    let (mut pool, mut caches) = Pool::<T, G>::new(alloc, 300, 1, taken, given).expect(
        rt, "memory",
    );
    let mut cache: Cache<T, G> = caches.pop().expect(rt, "a cache");
    same(rt, pool.take(1, &mut cache), 1);
    cache.alloc(60).expect(rt, "a buffer")
}

// The same under ledgers of its own.
fn buffer_anew<R: Abort>(rt: &R, alloc: Global) -> Buffer {
    buffer::<Brand, Brand, R>(rt, alloc, Blank::new(1), Blank::new(1))
}

#[test]
fn a_packet_is_put_into_a_buffer_and_changed(rt: HostRuntime) {
    let frame = frame();
    let mut buffer = buffer_anew(&rt, rt.alloc());
    buffer.fill(7, &frame);
    same(&rt, buffer.number(), 7);
    holds(&rt, buffer.head() == frame.as_slice());
    holds(&rt, !buffer.checked());
    same(&rt, buffer.adjacency(), None);
    same(&rt, buffer.interface(), None);
    holds(&rt, buffer.legs().is_empty());

    buffer.mark();
    buffer.write(0, &[2, 0, 0, 0, 0, 9]);
    buffer.set_adjacency(3);
    buffer.set_interface(1);
    let leg = Leg {
        worker: 1,
        generation: 2,
    };
    buffer.add_leg(leg);
    same(&rt, buffer.number(), 7);
    holds(&rt, buffer.head()[..6] == [2, 0, 0, 0, 0, 9]);
    holds(&rt, buffer.head()[6..] == frame[6..]);
    holds(&rt, buffer.checked());
    same(&rt, buffer.adjacency(), Some(3));
    same(&rt, buffer.interface(), Some(1));
    holds(&rt, buffer.legs() == [leg].as_slice());

    buffer.unmark();
    holds(&rt, !buffer.checked());
}

#[test]
fn a_stack_gives_its_buffers_back_from_the_last(rt: HostRuntime) {
    let mut stack = BufferStack::new();
    holds(&rt, stack.is_empty());
    for (number, bytes) in [
        (7, b"abc".as_slice()),
        (8, b"".as_slice()),
        (9, b"defgh".as_slice()),
    ] {
        let mut buffer = buffer_anew(&rt, rt.alloc());
        buffer.fill(number, bytes);
        stack.push(buffer);
    }
    holds(&rt, !stack.is_empty());

    let ninth = stack.pop().expect(&rt, "the buffer that was pushed last");
    same(&rt, ninth.number(), 9);
    same(&rt, ninth.head(), b"defgh".as_slice());
    let mut stack = stack.reversed();
    let seventh = stack.pop().expect(&rt, "the buffer that was pushed first");
    same(&rt, seventh.number(), 7);
    same(&rt, seventh.head(), b"abc".as_slice());
    stack.push(ninth);
    let ninth = stack.pop().expect(&rt, "the buffer that was pushed again");
    same(&rt, ninth.number(), 9);
    let eighth = stack.pop().expect(&rt, "the buffer that was pushed second");
    same(&rt, eighth.number(), 8);
    holds(&rt, eighth.head().is_empty());
    holds(&rt, stack.is_empty());
    holds(&rt, stack.pop().is_none());
    holds(&rt, stack.pop().is_none());

    stack.push(seventh);
    stack.push(eighth);
    drop(stack);
}

// A type whose values may go to another thread.
fn crosses_threads<T: Send>() {}

// A type whose values several threads may use at once.
fn is_shared<T: Sync>() {}

fn parts_cross_threads<T: PoolLedger + Send, G: Ledger + Send>() {
    crosses_threads::<Buffer>();
    crosses_threads::<BufferStack>();
    crosses_threads::<Cache<T, G>>();
    crosses_threads::<Pool<T, G>>();
    crosses_threads::<LockedPool<T, G>>();
    is_shared::<LockedPool<T, G>>();
    crosses_threads::<Settled>();
}

#[test]
fn buffers_caches_and_pools_cross_threads(_rt: HostRuntime) {
    parts_cross_threads::<Brand, Brand>();
}
