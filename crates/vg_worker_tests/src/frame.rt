//! Tests of the frames, the memory and the store.
ghost use Rattle.std.specs.Prelude.{◌≡◌, ◌+◌, ◌^◌, ◌<◌, ◌≤◌, length};
ghost use Rattle.vg_frame.specs.Pending.{pending_count, most_pending};

use crate::checks::{differ, has_length, holds, same};
use std::alloc::Global;
use std::marker::Brand;
use std::process::Abort;
use std::sync::ledger::{Blank, Ledger};
use vg_frame::{BufferMemory, Frame, FrameStore};
use vg_pool::{Pool, PoolLedger};

#[test]
fn a_frame_has_the_indexes_pushed(rt: HostRuntime) {
    let mut frame = Frame::new();
    has_length(&rt, frame.len(), 0);
    frame.push(7);
    frame.push(2303);
    has_length(&rt, frame.len(), 2);
    holds(&rt, frame.as_slice() == [7, 2303].as_slice());
}

// Two buffers of a pool are placed and written, and one is lifted.
fn places_and_lifts<T: PoolLedger, G: Ledger, R: Abort>(
    rt: &R,
    alloc: Global,
    taken: Blank,
    given: Blank,
)
    requires total { T.total ≡ 2 }
    requires taken { (taken.name ≡ T.name) × (taken.parts ≡ T.parts) × (taken.parts ≡ 1) }
    requires given { (given.name ≡ G.name) × (given.parts ≡ G.parts) × (given.parts ≡ 1) }
{
    let (mut pool, mut caches) = Pool::<T, G>::new(alloc, 2, 1, taken, given).expect(rt, "memory");
    let mut cache = caches.pop().expect(rt, "a cache");
    same(rt, pool.take(2, &mut cache), 2);
    let mut memory = BufferMemory::new(alloc).expect(rt, "memory");
    let first = memory.place(cache.alloc(60).expect(rt, "a buffer"));
    let second = memory.place(cache.alloc(60).expect(rt, "another buffer"));
    differ(rt, first, second);
    memory.get_mut(first).fill(1, b"one");
    memory.get_mut(second).fill(2, b"two");
    holds(rt, memory.get_mut(first).head() == b"one".as_slice());
    let lifted = memory.lift(second);
    same(rt, lifted.number(), 2);
    holds(rt, lifted.head() == b"two".as_slice());
}

#[test]
fn buffers_are_found_under_the_index_of_their_place(rt: HostRuntime) {
    places_and_lifts::<Brand, Brand, HostRuntime>(&rt, rt.alloc(), Blank::new(1), Blank::new(1))
}

// Puts so many indexes for the node, from `first` on.
fn put_all(store: &mut FrameStore, node: u16, first: u32, count: u32)
    requires node { node < length store.old }
    requires room { pending_count store.old + count ≤ most_pending }
    requires indexes { first + count < 2 ^ 32 }
    ensures nodes { length store.new ≡ length store.old }
    ensures count { pending_count store.new ≡ pending_count store.old + count }
{
    for index in first..first + count {
        store.put(node, index);
    }
}

// The next frame is for this node, and has so many indexes, from `first` on.
fn expect_frame<R: Abort>(rt: &R, store: &mut FrameStore, node: u16, first: u32, count: usize)
    requires { first < 2 ^ 16 }
{
    let (of, frame) = store.next_frame().expect(rt, "a frame");
    same(rt, of, node);
    has_length(rt, frame.len(), count);
    for (place, index) in frame.as_slice().iter().enumerate() {
        same(rt, *index, first + place as u32);
    }
}

#[test]
fn frames_come_by_node_and_the_oldest_first(rt: HostRuntime) {
    let mut store = FrameStore::new(rt.alloc(), 8).expect(&rt, "memory");
    put_all(&mut store, 3, 0, 300);
    put_all(&mut store, 1, 5000, 5);
    put_all(&mut store, 3, 300, 300);
    expect_frame(&rt, &mut store, 1, 5000, 5);
    expect_frame(&rt, &mut store, 3, 0, 256);
    expect_frame(&rt, &mut store, 3, 256, 256);
    expect_frame(&rt, &mut store, 3, 512, 88);
    holds(&rt, store.next_frame().is_none());
}

#[test]
fn a_full_store_gives_nine_full_frames(rt: HostRuntime) {
    let mut store = FrameStore::new(rt.alloc(), 64).expect(&rt, "memory");
    put_all(&mut store, 63, 0, 2304);
    for k in 0..9u32 {
        expect_frame(&rt, &mut store, 63, 256 * k, 256);
    }
    holds(&rt, store.next_frame().is_none());
}
