//! The queue by itself, and the ring beside it.
ghost use Rattle.std.specs.Prelude.{◌≡◌, ◌+◌, ◌^◌, ◌<◌, ◌≤◌, [], length};
ghost use Rattle.vg_queue.specs.Ends.{put, tx_queue, rx_queue};
ghost use Rattle.vg_ring.specs.Ends.{put as ring_put, tx_ring, rx_ring};

use std::sync::Wait;
use std::test::Fail;
use std::thread;
use vg_queue::{Full, QueueRx, QueueTx, close, ring};
use vg_ring::{RingRx, RingTx};

#[test]
fn items_come_out_in_the_order_in_which_they_went_in(rt: HostRuntime) -> Result<(), Fail> {
    let (mut tx, mut rx) = ring::<u32>(rt.alloc(), 2)?;
    tx.push(&rt, 1)?;
    tx.push(&rt, 2)?;
    assert_eq!(rt;
        tx.push(&rt, 3),
        Err(Full {
            accepted: 2,
            item: 3
        })
    );
    assert_eq!(rt; rx.pop(&rt), Some(1));
    tx.push(&rt, 3)?;
    assert_eq!(rt; rx.pop(&rt), Some(2));
    assert_eq!(rt; rx.pop(&rt), Some(3));
    assert_eq!(rt; rx.pop(&rt), None);
    tx.push(&rt, 4)?;
    let mut rest = close(&rt, tx, rx);
    assert_eq!(rt; rest.next(&rt), Some(4));
    assert_eq!(rt; rest.next(&rt), None);
    Ok(())
}

// Pushes the item on both, and tells whether they answer the same.
fn push_both(rt: &impl Wait, tx: &mut QueueTx<u32>, ring_tx: &mut RingTx<u32>, item: u32) -> bool
    requires { (length (put tx.old) < 2 ^ 62) × (length (ring_put ring_tx.old) < 2 ^ 62) }
    ensures queue { (tx_queue tx.new ≡ tx_queue tx.old) × (length (put tx.new) ≤ length (put tx.old) + 1) }
    ensures ring { (tx_ring ring_tx.new ≡ tx_ring ring_tx.old) × (length (ring_put ring_tx.new) ≤ length (ring_put ring_tx.old) + 1) }
{
    match (tx.push(rt, item), ring_tx.push(item)) {
        (Ok(()), Ok(())) => true,
        (Err(full), Err(ring_full)) => {
            full.accepted == ring_full.accepted && full.item == ring_full.item
        }
        _ => false,
    }
}

// Pops from both, and tells whether they answer the same.
fn pop_both(rt: &impl Wait, rx: &mut QueueRx<u32>, ring_rx: &mut RingRx<u32>) -> bool
    ensures queue { rx_queue rx.new ≡ rx_queue rx.old }
    ensures ring { rx_ring ring_rx.new ≡ rx_ring ring_rx.old }
{
    rx.pop(rt) == ring_rx.pop()
}

// A number that looks random, from the one before.
fn random_after(number: u32) -> u32 {
    number.wrapping_mul(1_664_525).wrapping_add(1_013_904_223)
}

#[test]
fn random_calls_are_answered_as_the_ring_answers_them(rt: HostRuntime) -> Result<(), Fail> {
    let (mut tx, mut rx) = ring::<u32>(rt.alloc(), 4)?;
    let (mut ring_tx, mut ring_rx) = vg_ring::ring::<u32>(rt.alloc(), 4)?;
    let mut random = 1;
    let mut same = true;
    for _ in 0..3_000_u32 {
        random = random_after(random);
        let answered = if random < 1 << 31 {
            push_both(&rt, &mut tx, &mut ring_tx, random)
        } else {
            pop_both(&rt, &mut rx, &mut ring_rx)
        };
        same = same && answered;
    }
    assert!(rt; same);
    let mut rest = close(&rt, tx, rx);
    let mut ring_rest = vg_ring::close(ring_tx, ring_rx);
    for _ in 0..5_u32 {
        assert_eq!(rt; rest.next(&rt), ring_rest.next());
    }
    Ok(())
}

const ITEMS: u32 = 20_000;

// Pushes the numbers below `ITEMS` in order.
fn push_all(rt: &impl Wait, tx: &mut QueueTx<u32>)
    requires { put tx.old ≡ [] }
{
    let mut next = 0;
    for _ in rt.forever() {
        if next == ITEMS {
            return;
        }
        match tx.push(rt, next) {
            Ok(()) => next += 1,
            Err(_) => thread::yield_now(),
        }
    }
}

// The same on the ring.
fn push_all_on_the_ring(rt: &impl Wait, tx: &mut RingTx<u32>)
    requires { ring_put tx.old ≡ [] }
{
    let mut next = 0;
    for _ in rt.forever() {
        if next == ITEMS {
            return;
        }
        match tx.push(next) {
            Ok(()) => next += 1,
            Err(_) => thread::yield_now(),
        }
    }
}

// Whether the first `ITEMS` items that come are the numbers from 0 in order.
fn come_in_order(rt: &impl Wait, rx: &mut QueueRx<u32>) -> bool {
    for wanted in 0..ITEMS {
        if next_item(rt, rx) != wanted {
            return false;
        }
    }
    true
}

fn next_item(rt: &impl Wait, rx: &mut QueueRx<u32>) -> u32 {
    for _ in rt.forever() {
        if let Some(item) = rx.pop(rt) {
            return item;
        }
        thread::yield_now();
    }
    unreachable!()
}

// The same from the ring.
fn come_in_order_from_the_ring(rt: &impl Wait, rx: &mut RingRx<u32>) -> bool {
    for wanted in 0..ITEMS {
        if next_item_of_the_ring(rt, rx) != wanted {
            return false;
        }
    }
    true
}

fn next_item_of_the_ring(rt: &impl Wait, rx: &mut RingRx<u32>) -> u32 {
    for _ in rt.forever() {
        if let Some(item) = rx.pop() {
            return item;
        }
        thread::yield_now();
    }
    unreachable!()
}

#[test]
fn two_threads_hand_over_one_list_by_the_queue_and_by_the_ring(
    rt: HostRuntime,
) -> Result<(), Fail> {
    let (mut tx, mut rx) = ring::<u32>(rt.alloc(), 64)?;
    let ((), in_order) = thread::join(
        &rt,
        || push_all(&rt, &mut tx),
        || come_in_order(&rt, &mut rx),
    );
    assert!(rt; in_order);
    assert_eq!(rt; rx.pop(&rt), None);
    let (mut tx, mut rx) = vg_ring::ring::<u32>(rt.alloc(), 64)?;
    let ((), in_order) = thread::join(
        &rt,
        || push_all_on_the_ring(&rt, &mut tx),
        || come_in_order_from_the_ring(&rt, &mut rx),
    );
    assert!(rt; in_order);
    assert_eq!(rt; rx.pop(), None);
    Ok(())
}
