ghost use Rattle.std.specs.Prelude.{◌≡◌, []};
ghost use Rattle.vg_ring.specs.Ends.{put};

use crate::checks::{holds, same};
use std::sync::Wait;
use std::thread;
use vg_ring::{Full, RingRx, RingTx, close, ring};

#[test]
fn items_come_out_in_the_order_in_which_they_went_in(rt: HostRuntime) {
    let (mut tx, mut rx) = ring::<u32>(rt.alloc(), 2).expect(&rt, "memory");
    tx.push(1).expect(&rt, "a slot");
    tx.push(2).expect(&rt, "a slot");
    same(
        &rt,
        tx.push(3),
        Err(Full {
            accepted: 2,
            item: 3,
        }),
    );
    same(&rt, rx.pop(), Some(1));
    tx.push(3).expect(&rt, "a slot");
    same(&rt, rx.pop(), Some(2));
    same(&rt, rx.pop(), Some(3));
    same(&rt, rx.pop(), None);
    tx.push(4).expect(&rt, "a slot");
    let mut rest = close(tx, rx);
    same(&rt, rest.next(), Some(4));
    same(&rt, rest.next(), None);
}

// After the note the push is proved to be accepted, and so is the pop to find an item.
#[test]
fn a_note_that_was_learnt_makes_the_next_call_sure(rt: HostRuntime) {
    let (mut tx, mut rx) = ring::<u32>(rt.alloc(), 1).expect(&rt, "memory");
    tx.push(1).expect(&rt, "a slot");
    let first = rx.pop().expect(&rt, "an item");
    same(&rt, first, 1);
    let note = rx.note();
    tx.learn(note);
    let Ok(()) = tx.push(2) else { unreachable!() };
    let note = tx.tell();
    rx.learn(note);
    let Some(item) = rx.pop() else { unreachable!() };
    same(&rt, item, 2);
}

const ITEMS: u64 = 100_000;

// Pushes the numbers below `ITEMS` in order.
fn push_all(rt: &impl Wait, tx: &mut RingTx<u64>)
    requires { put tx.old ≡ [] }
{
    let mut next = 0;
    for _ in rt.forever() {
        if next == ITEMS {
            return;
        }
        match tx.push(next) {
            Ok(()) => next += 1,
            Err(_) => thread::yield_now(),
        }
    }
}

// Whether the first `ITEMS` items that come are the numbers from 0 in order.
fn come_in_order(rt: &impl Wait, rx: &mut RingRx<u64>) -> bool {
    for wanted in 0..ITEMS {
        if next_item(rt, rx) != wanted {
            return false;
        }
    }
    true
}

fn next_item(rt: &impl Wait, rx: &mut RingRx<u64>) -> u64 {
    for _ in rt.forever() {
        if let Some(item) = rx.pop() {
            return item;
        }
        thread::yield_now();
    }
    unreachable!()
}

#[test]
fn two_threads_hand_over_a_hundred_thousand_items_in_order(rt: HostRuntime) {
    let (mut tx, mut rx) = ring::<u64>(rt.alloc(), 64).expect(&rt, "memory");
    let ((), in_order) = thread::join(
        &rt,
        || push_all(&rt, &mut tx),
        || come_in_order(&rt, &mut rx),
    );
    holds(&rt, in_order);
    same(&rt, rx.pop(), None);
}
