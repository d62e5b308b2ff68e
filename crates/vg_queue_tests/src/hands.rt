//! Frames that are handed over, and a ring as a handoff.
ghost use Rattle.std.specs.Prelude.{◌≡◌, ◌+◌, ◌<◌, ◌≤◌, ◌^◌, length};

use crate::checks::{has_length, holds, same};
use std::alloc::Global;
use std::marker::Brand;
use std::process::Abort;
use std::sync::ledger::{Blank, Ledger};
use vg_hands::{Counted, HandFrame, HandPackets, Handoff};
use vg_model::Leg;
use vg_pool::{Cache, Pool, PoolLedger};
use vg_ring::{Full, ring};

const LEG: Leg = Leg {
    worker: 0,
    generation: 3,
};

// A frame of node 12, under generation 3, with packets 7 and 8, which have 3 and 5 bytes. The second is added to a frame of the first.
fn frame<T: PoolLedger, G: Ledger, R: Abort>(rt: &R, cache: &mut Cache<T, G>) -> HandFrame
    requires { cache.old.allocated < 2 ^ 61 }
    ensures packets { length result.packets ≡ 2 }
    ensures cache { cache.new.allocated ≡ cache.old.allocated + 2 }
{
    let mut first = cache.alloc(60).expect(rt, "a buffer");
    first.fill(7, b"abc");
    first.add_leg(LEG);
    let mut second = cache.alloc(60).expect(rt, "another buffer");
    second.fill(8, b"defgh");
    second.add_leg(LEG);
    let mut packets = HandPackets::new();
    packets.push(first);
    let mut packets = HandFrame::new(12, 3, packets).into_packets();
    packets.push(second);
    HandFrame::new(12, 3, packets)
}

// What is pushed into a handoff.
fn push<H: Handoff<HandFrame>>(to: &mut H, frame: HandFrame) -> Result<(), Full<HandFrame>>
    requires room { length frame.packets ≤ H.free_room to.old }
    requires count { length (H.accepted to.old) < 2 ^ 62 }
    ensures { length (H.accepted to.new) ≤ length (H.accepted to.old) + 1 }
{
    to.push(frame)
}

// The frame is the one of packets 7 and 8.
fn is_whole<R: Abort>(rt: &R, frame: HandFrame) {
    same(rt, frame.node(), 12);
    same(rt, frame.generation(), 3);
    same(rt, frame.count(), 2);
    same(rt, frame.count_bytes(), 8 + 2 * 64);
    let packets = frame.into_packets();
    has_length(rt, packets.len(), 2);
    same(rt, packets.count_bytes(), 8 + 2 * 64);
    let mut packets = packets.unpack();
    let first = packets.take_first().expect(rt, "the first packet");
    same(rt, first.number(), 7);
    same(rt, first.head(), b"abc".as_slice());
    has_length(rt, first.legs().len(), 1);
    let second = packets.take_first().expect(rt, "the second packet");
    same(rt, second.number(), 8);
    same(rt, second.head(), b"defgh".as_slice());
    holds(rt, packets.take_first().is_none());
    holds(rt, packets.take_first().is_none());
}

fn hand_over<T: PoolLedger, G: Ledger, R: Abort>(rt: &R, alloc: Global, taken: Blank, given: Blank)
    requires total { T.total ≡ 4 }
    requires taken { (taken.name ≡ T.name) × (taken.parts ≡ T.parts) × (taken.parts ≡ 1) }
    requires given { (given.name ≡ G.name) × (given.parts ≡ G.parts) × (given.parts ≡ 1) }
{
    let (mut pool, mut caches) = Pool::<T, G>::new(alloc, 4, 1, taken, given).expect(rt, "memory");
    let mut cache: Cache<T, G> = caches.pop().expect(rt, "a cache");
    pool.take(4, &mut cache);
    let (mut tx, mut rx) = ring::<HandFrame>(alloc, 1).expect(rt, "memory");
    holds(rt, !tx.gate_closed(256));
    holds(rt, tx.fits(1 << 63));
    holds(rt, !tx.fits((1 << 63) + 1));
    let first = frame(rt, &mut cache);
    holds(rt, push(&mut tx, first).is_ok());
    let second = frame(rt, &mut cache);
    let Err(full) = push(&mut tx, second) else {
        panic!(rt; "a frame beyond the slots")
    };
    same(rt, full.accepted, 1);
    is_whole(rt, full.item);
    tx.tick();
    same(rt, tx.held(), 0);
    is_whole(rt, rx.pop().expect(rt, "the first frame"));
    let _ring = tx.into_ring();
    holds(rt, rx.pop().is_none());
}

// The same under ledgers of its own.
fn hand_over_anew<R: Abort>(rt: &R, alloc: Global) {
    hand_over::<Brand, Brand, R>(rt, alloc, Blank::new(1), Blank::new(1))
}

#[test]
fn a_frame_goes_over_a_ring_of_one_slot_and_the_next_comes_back(rt: HostRuntime) {
    hand_over_anew(&rt, rt.alloc())
}
