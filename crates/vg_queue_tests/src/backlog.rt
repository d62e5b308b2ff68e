//! A backlog behind a ring of one slot.
ghost use Rattle.std.specs.Prelude.{◌≡◌, ◌+◌, ◌<◌, ◌≤◌, ◌^◌, length, IfOk};
ghost use Rattle.vg_backlog.specs.Books.{accepted_by};

use std::alloc::Global;
use std::marker::Brand;
use std::process::Abort;
use std::sync::ledger::{Blank, Ledger};
use std::test::Fail;
use vg_backlog::{Backlog, backlogs_of};
use vg_hands::{HandFrame, HandPackets, Handoff};
use vg_model::Leg;
use vg_pool::{Cache, Pool, PoolLedger};
use vg_ring::{RingRx, ring};

const LEG: Leg = Leg {
    worker: 0,
    generation: 3,
};

// A frame of this node with two packets: of this number, which has 3 bytes, and of number 100, which has 5.
fn frame<T: PoolLedger, G: Ledger>(cache: &mut Cache<T, G>, node: u16) -> Result<HandFrame, Fail>
    requires { cache.old.allocated < 2 ^ 61 }
    ensures packets { IfOk result (λ frame. length frame.packets ≡ 2) }
    ensures cache { IfOk result (λ _. cache.new.allocated ≡ cache.old.allocated + 2) }
{
    let mut first = cache.alloc(60).ok_or("a buffer")?;
    first.fill(u32::from(node), b"abc");
    first.add_leg(LEG);
    let mut second = cache.alloc(60).ok_or("another buffer")?;
    second.fill(100, b"defgh");
    second.add_leg(LEG);
    let mut packets = HandPackets::new();
    packets.push(first);
    packets.push(second);
    Ok(HandFrame::new(node, 3, packets))
}

// Pushes a frame of two packets, where there is room for it.
fn push<H: Handoff<HandFrame>, R: Abort>(rt: &R, to: &mut H, frame: HandFrame)
    requires two { length frame.packets ≡ 2 }
    requires count { length (H.accepted to.old) < 2 ^ 62 }
    ensures { length (H.accepted to.new) ≤ length (H.accepted to.old) + 1 }
{
    assert!(rt; to.fits(2));
    assert!(rt; to.push(frame).is_ok());
}

// What may move to another thread.
fn sent<T: Send>(value: T) -> T
    ensures { result ≡ value }
{
    value
}

// The next frame of the ring is that of this node, with its packets in their order.
fn next_is<R: Abort>(rt: &R, rx: &mut RingRx<HandFrame>, node: u16) -> Result<(), Fail> {
    let frame = rx.pop().ok_or("a frame")?;
    assert_eq!(rt; frame.node(), node);
    assert_eq!(rt; frame.generation(), 3);
    assert_eq!(rt; frame.count_packets(), 2);
    assert_eq!(rt; frame.count_bytes(), 8 + 2 * 64);
    let mut packets = frame.into_packets().unpack();
    let first = packets.take_first().ok_or("a packet")?;
    assert_eq!(rt; first.number(), u32::from(node));
    let second = packets.take_first().ok_or("another packet")?;
    assert_eq!(rt; second.number(), 100);
    assert!(rt; packets.take_first().is_none());
    Ok(())
}

// So many frames are held, and there is room for just so many more packets.
fn holds<R: Abort>(rt: &R, backlog: &Backlog, frames: usize, room: usize)
    requires { room < 100 }
{
    assert_eq!(rt; backlog.held(), frames);
    assert!(rt; backlog.fits(room));
    assert!(rt; !backlog.fits(room + 1));
}

// The first of three frames goes into the ring, and the next two are held. From the second on the gate is closed.
fn put_three<T: PoolLedger, G: Ledger, R: Abort>(
    rt: &R,
    backlog: &mut Backlog,
    cache: &mut Cache<T, G>,
) -> Result<(), Fail>
    requires cache { cache.old.allocated ≡ 0 }
    requires count { length (accepted_by backlog.old) ≡ 0 }
    ensures cache { IfOk result (λ _. cache.new.allocated ≡ 6) }
    ensures count { IfOk result (λ _. length (accepted_by backlog.new) ≤ 3) }
{
    push(rt, backlog, frame(cache, 12)?);
    holds(rt, backlog, 0, 6);
    push(rt, backlog, frame(cache, 13)?);
    holds(rt, backlog, 1, 4);
    assert!(rt; !backlog.gate_closed(4));
    push(rt, backlog, frame(cache, 14)?);
    holds(rt, backlog, 2, 2);
    assert!(rt; backlog.gate_closed(0));
    Ok(())
}

// A tick goes on as far as the ring has slots.
fn take_two<R: Abort>(rt: &R, backlog: &mut Backlog, rx: &mut RingRx<HandFrame>) -> Result<(), Fail>
    ensures { length (accepted_by backlog.new) ≡ length (accepted_by backlog.old) }
{
    backlog.tick();
    holds(rt, backlog, 2, 2);
    next_is(rt, rx, 12)?;
    backlog.tick();
    holds(rt, backlog, 1, 4);
    assert!(rt; !backlog.gate_closed(4));
    next_is(rt, rx, 13)
}

// A frame doesn't overtake the one that is held, though the ring has a slot.
fn put_behind<T: PoolLedger, G: Ledger, R: Abort>(
    rt: &R,
    backlog: &mut Backlog,
    cache: &mut Cache<T, G>,
    rx: &mut RingRx<HandFrame>,
) -> Result<(), Fail>
    requires cache { cache.old.allocated ≡ 6 }
    requires count { length (accepted_by backlog.old) ≤ 3 }
    ensures cache { IfOk result (λ _. cache.new.allocated ≡ 8) }
    ensures count { IfOk result (λ _. length (accepted_by backlog.new) ≤ 4) }
{
    push(rt, backlog, frame(cache, 15)?);
    holds(rt, backlog, 2, 2);
    assert!(rt; rx.pop().is_none());
    backlog.tick();
    holds(rt, backlog, 1, 4);
    next_is(rt, rx, 14)?;
    backlog.tick();
    holds(rt, backlog, 0, 6);
    Ok(())
}

// A backlog of 6 packets, behind a ring of one slot, whose gate is closed from two frames on.
fn start<R: Abort>(rt: &R, alloc: Global) -> Result<(Backlog, RingRx<HandFrame>), Fail>
    ensures { IfOk result (λ ends. length (accepted_by ends.0) ≡ 0) }
{
    let (tx, rx) = ring::<HandFrame>(alloc, 1)?;
    let mut rings = Vec::new(alloc);
    rings.push(tx)?;
    let mut backlogs = backlogs_of(alloc, rings, 2, 6)?;
    let backlog = sent(backlogs.pop().ok_or("a backlog")?);
    assert!(rt; backlogs.is_empty());
    assert!(rt; !backlog.gate_closed(6));
    assert!(rt; backlog.gate_closed(7));
    Ok((backlog, rx))
}

fn go_over<T: PoolLedger, G: Ledger, R: Abort>(
    rt: &R,
    alloc: Global,
    taken: Blank,
    given: Blank,
) -> Result<(), Fail>
    requires total { T.total ≡ 10 }
    requires taken { (taken.name ≡ T.name) × (taken.parts ≡ T.parts) × (taken.parts ≡ 1) }
    requires given { (given.name ≡ G.name) × (given.parts ≡ G.parts) × (given.parts ≡ 1) }
{
    let (mut pool, mut caches) = Pool::<T, G>::new(alloc, 10, 1, taken, given)?;
    let mut cache: Cache<T, G> = caches.pop().ok_or("a cache")?;
    pool.take(10, &mut cache);
    let (mut backlog, mut rx) = start(rt, alloc)?;
    put_three(rt, &mut backlog, &mut cache)?;
    take_two(rt, &mut backlog, &mut rx)?;
    put_behind(rt, &mut backlog, &mut cache, &mut rx)?;
    if backlog.held() > 0 {
        return Err("a frame is held".into());
    }
    let mut tx = backlog.into_ring();
    next_is(rt, &mut rx, 15)?;
    push(rt, &mut tx, frame(&mut cache, 16)?);
    next_is(rt, &mut rx, 16)
}

// The same under ledgers of its own.
fn go_over_anew<R: Abort>(rt: &R, alloc: Global) -> Result<(), Fail> {
    go_over::<Brand, Brand, R>(rt, alloc, Blank::new(1), Blank::new(1))
}

#[test]
fn frames_wait_behind_a_full_ring_and_keep_their_order(rt: HostRuntime) -> Result<(), Fail> {
    go_over_anew(&rt, rt.alloc())
}
