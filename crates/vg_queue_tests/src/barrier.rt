//! Tests of the barrier.
ghost use Rattle.std.specs.Prelude.{◌≡◌, ◌+◌, ◌*◌};

use crate::checks::same;
use std::test::Fail;
use vg_barrier::{Barrier, Check, Cleared, Parcel, Parking, Words};

// The packets that a worker draws next, up to the limit of its generation, which rises by two with each generation. The
// book is the first limit.
#[derive(Drop)]
struct Window {
    next: u64,
    generation: u32,
    limit: u64,
}

impl Parcel for Window {
    type Book = u64;

    ghost fits = { λ window book. window.limit ≡ book + 2 * window.generation };

    ghost mark = { λ window. window.next };

    ghost generation = { λ window. window.generation };

    fn mark(&self) -> u64 {
        self.next
    }

    fn generation(&self) -> u32 {
        self.generation
    }
}

// A window of generation 0.
fn first(next: u64) -> Window
    ensures { (result.next ≡ next) × (result.generation ≡ 0) × (result.limit ≡ 2) }
{
    Window {
        next,
        generation: 0,
        limit: 2,
    }
}

// Makes a window one of generation 1, with the same next packet.
fn renew(window: &mut Window)
    ensures { (window.new.next ≡ window.old.next) × (window.new.generation ≡ 1) × (window.new.limit ≡ 4) }
{
    window.generation = 1;
    window.limit = 4;
}

// Draws the packets below this one.
fn draw_to(window: &mut Window, next: u64)
    ensures { (window.new.next ≡ next) × (window.new.generation ≡ window.old.generation) × (window.new.limit ≡ window.old.limit) }
{
    window.next = next;
}

// What can go to another thread.
fn send<T: Send>(value: T) -> T
    ensures { result ≡ value }
{
    value
}

// What threads can share.
fn share<T: Sync>(value: &T) -> &T
    ensures { result.now ≡ value.now }
{
    value
}

#[test]
fn two_workers_park_and_run_with_renewed_parcels(rt: HostRuntime) -> Result<(), Fail> {
    let mut windows = Vec::new(rt.alloc());
    windows.push(first(2))?;
    windows.push(first(3))?;
    let parts = Barrier::new(rt.alloc(), 2u64, windows)?;
    let barrier = parts.barrier;
    let mut workers = parts.workers;
    let Some(second) = workers.pop() else {
        panic!(rt; "no worker 1")
    };
    let Some(first) = workers.pop() else {
        panic!(rt; "no worker 0")
    };
    same(&rt, parts.main.stamp(), 0);
    same(&rt, first.stamp(), 0);
    same(&rt, first.parcel().limit, 2);

    let asked = parts.main.ask(&barrier);
    let Check::Parked(first) = first.check(&barrier) else {
        panic!(rt; "worker 0 runs")
    };
    let Parking::Wait { asked, seen } = asked.poll(&barrier) else {
        panic!(rt; "main holds before worker 1 is parked")
    };
    same(&rt, seen, 1);
    let Check::Parked(first) = first.poll(&barrier) else {
        panic!(rt; "worker 0 leaves before the release")
    };
    let Check::Parked(second) = second.check(&barrier) else {
        panic!(rt; "worker 1 runs")
    };
    let Parking::All(mut held) = asked.poll(&barrier) else {
        panic!(rt; "main doesn't hold")
    };

    same(&rt, held.parcel(0).next, 2);
    same(&rt, held.parcel(1).next, 3);
    renew(held.parcel_mut(0));
    renew(held.parcel_mut(1));
    let clearing = held.release(&barrier);
    let Check::Run(first) = first.poll(&barrier) else {
        panic!(rt; "worker 0 is parked")
    };
    same(&rt, first.stamp(), 1);
    same(&rt, first.parcel().generation, 1);
    same(&rt, first.parcel().next, 2);
    let Cleared::Wait { clearing, seen } = clearing.poll(&barrier) else {
        panic!(rt; "main is idle before worker 1 has left")
    };
    same(&rt, seen, 1);
    let Check::Run(second) = second.poll(&barrier) else {
        panic!(rt; "worker 1 is parked")
    };
    same(&rt, second.stamp(), 1);
    let Check::Run(first) = first.check(&barrier) else {
        panic!(rt; "worker 0 parks unasked")
    };
    same(&rt, first.parcel().limit, 4);
    let Cleared::Idle(main) = clearing.poll(&barrier) else {
        panic!(rt; "main isn't idle")
    };
    same(&rt, main.stamp(), 1);
    let words = barrier.end(main);
    same(
        &rt,
        words,
        Words {
            request: 2,
            arrivals: 0,
            generation: 1,
        },
    );
    let window = second.into_parcel();
    same(&rt, window.generation, 1);
    same(&rt, window.next, 3);
    Ok(())
}

#[test]
fn threads_share_a_barrier_and_take_seats(rt: HostRuntime) -> Result<(), Fail> {
    let mut windows = Vec::new(rt.alloc());
    windows.push(first(2))?;
    let parts = Barrier::new(rt.alloc(), 2u64, windows)?;
    let main = send(parts.main);
    let mut workers = send(parts.workers);
    let asked = main.ask(share(&parts.barrier));
    let Some(mut worker) = workers.pop() else {
        panic!(rt; "no worker 0")
    };
    draw_to(worker.parcel_mut(), 3);
    same(&rt, worker.parcel().next, 3);
    let Check::Parked(_) = worker.check(&parts.barrier) else {
        panic!(rt; "worker 0 runs")
    };
    let Parking::All(held) = asked.poll(&parts.barrier) else {
        panic!(rt; "main doesn't hold")
    };
    same(&rt, held.parcel(0).next, 3);
    Ok(())
}
