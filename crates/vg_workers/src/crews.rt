//! The workers of a run, on the thread of main.
ghost use Rattle.std.specs.Prelude.{◌≡◌, ◌<◌, ◌≤◌, true, length, map, All};
ghost use Rattle.vg_dispatch.specs.Standing.{barrier_id};
ghost use Rattle.vg_dispatch.specs.Workers.{IsIdle};
ghost use Rattle.vg_workers.specs.Crews.{IsCrew, HaveStopped, HaveEnded, AreNumbered, HasGiven, AreDone};

use std::sync::Wait;
use std::sync::ledger::Ledger;
use vg_barrier::Barrier;
use vg_dispatch::{Input, Stop, Worker, WorkerParcel};
use vg_hands::{HandFrame, Handoff};
use vg_nodes::KindSet;
use vg_outside::Gate;
use vg_pool::{LockedPool, PoolLedger};

/// A turn of worker `k`.
pub fn turn_one<K: KindSet, H: Handoff<HandFrame>, T: PoolLedger, L: Ledger, R: Wait, G: Gate>(
    rt: &R,
    workers: &mut Vec<Worker<K, H, T, L>>,
    k: usize,
    input: &Input<'_>,
    barrier: &Barrier<WorkerParcel>,
    pool: &LockedPool<T, L>,
    gate: &G,
)
    requires within { k < length workers.old.items }
    requires crew { IsCrew K.meaning H.LOSSLESS input.now.plan.now input.now.capture.now input.now.options.now (barrier_id barrier.now) workers.old.items }
    ensures crew { IsCrew K.meaning H.LOSSLESS input.now.plan.now input.now.capture.now input.now.options.now (barrier_id barrier.now) workers.new.items }
    ensures rings { map (λ w. w.outputs) workers.new.items ≡ map (λ w. w.outputs) workers.old.items }
    ensures count { length workers.new.items ≡ length workers.old.items }
{
    workers[k].turn(rt, input, barrier, pool, gate);
}

/// A turn of each worker, by rising number.
pub fn turn_all<K: KindSet, H: Handoff<HandFrame>, T: PoolLedger, L: Ledger, R: Wait, G: Gate>(
    rt: &R,
    workers: &mut Vec<Worker<K, H, T, L>>,
    input: &Input<'_>,
    barrier: &Barrier<WorkerParcel>,
    pool: &LockedPool<T, L>,
    gate: &G,
)
    requires crew { IsCrew K.meaning H.LOSSLESS input.now.plan.now input.now.capture.now input.now.options.now (barrier_id barrier.now) workers.old.items }
    ensures crew { IsCrew K.meaning H.LOSSLESS input.now.plan.now input.now.capture.now input.now.options.now (barrier_id barrier.now) workers.new.items }
    ensures rings { map (λ w. w.outputs) workers.new.items ≡ map (λ w. w.outputs) workers.old.items }
{
    for k in 0..workers.len() {
        turn_one(rt, workers, k, input, barrier, pool, gate);
    }
}

/// Whether each worker has stopped.
pub fn have_stopped<K: KindSet, H: Handoff<HandFrame>, T: PoolLedger, L: Ledger>(
    workers: &Vec<Worker<K, H, T, L>>,
) -> bool
    ensures { result ≡ true → HaveStopped workers.now.items }
{
    workers.iter().all(|worker| worker.stop() != Stop::No)
}

/// Whether each worker has stopped because the last generation is over.
pub fn have_ended<K: KindSet, H: Handoff<HandFrame>, T: PoolLedger, L: Ledger>(
    workers: &Vec<Worker<K, H, T, L>>,
) -> bool
    ensures { result ≡ true → HaveEnded workers.now.items }
{
    workers.iter().all(|worker| worker.stop() == Stop::End)
}

// Lets each worker take the frames that others have put, by rising number.
fn finish_all<K: KindSet, H: Handoff<HandFrame>, T: PoolLedger, L: Ledger, R: Wait>(
    rt: &R,
    workers: &mut Vec<Worker<K, H, T, L>>,
    input: &Input<'_>,
    barrier: &Barrier<WorkerParcel>,
    pool: &LockedPool<T, L>,
)
    requires crew { IsCrew K.meaning H.LOSSLESS input.now.plan.now input.now.capture.now input.now.options.now (barrier_id barrier.now) workers.old.items }
    requires stopped { HaveStopped workers.old.items }
    ensures crew { IsCrew K.meaning H.LOSSLESS input.now.plan.now input.now.capture.now input.now.options.now (barrier_id barrier.now) workers.new.items }
    ensures rings { map (λ w. w.outputs) workers.new.items ≡ map (λ w. w.outputs) workers.old.items }
    ensures stops { map (λ w. w.stop) workers.new.items ≡ map (λ w. w.stop) workers.old.items }
{
    for k in 0..workers.len() {
        workers[k].finish(rt, input, pool);
    }
}

// Whether each worker is idle.
fn are_idle<K: KindSet, H: Handoff<HandFrame>, T: PoolLedger, L: Ledger>(
    workers: &Vec<Worker<K, H, T, L>>,
) -> bool
    ensures { result ≡ true → All IsIdle workers.now.items }
{
    for worker in workers {
        if !worker.idle() {
            return false;
        }
    }
    true
}

// Whether each other worker has taken all frames that this one has put.
fn has_given<K: KindSet, H: Handoff<HandFrame>, T: PoolLedger, L: Ledger>(
    workers: &Vec<Worker<K, H, T, L>>,
    from: usize,
) -> bool
    requires numbered { AreNumbered workers.now.items }
    requires few { length workers.now.items ≤ 8 }
    requires within { from < length workers.now.items }
    ensures { result ≡ true → HasGiven workers.now.items from }
{
    for to in 0..workers.len() {
        if to == from {
            continue;
        }
        if workers[from].accepted(to as u8) != workers[to].dispatched(from as u8) {
            return false;
        }
    }
    true
}

// Whether every frame that one worker has put another has taken, and none holds any back.
fn are_done<K: KindSet, H: Handoff<HandFrame>, T: PoolLedger, L: Ledger>(
    workers: &Vec<Worker<K, H, T, L>>,
) -> bool
    requires numbered { AreNumbered workers.now.items }
    requires few { length workers.now.items ≤ 8 }
    ensures { result ≡ true → AreDone workers.now.items }
{
    if !are_idle(workers) {
        return false;
    }
    for from in 0..workers.len() {
        if !has_given(workers, from) {
            return false;
        }
    }
    true
}

/// Lets the workers, which have stopped, take the frames that are left in queues, until none is.
pub fn finish<K: KindSet, H: Handoff<HandFrame>, T: PoolLedger, L: Ledger, R: Wait>(
    rt: &R,
    workers: &mut Vec<Worker<K, H, T, L>>,
    input: &Input<'_>,
    barrier: &Barrier<WorkerParcel>,
    pool: &LockedPool<T, L>,
)
    requires crew { IsCrew K.meaning H.LOSSLESS input.now.plan.now input.now.capture.now input.now.options.now (barrier_id barrier.now) workers.old.items }
    requires stopped { HaveStopped workers.old.items }
    ensures crew { IsCrew K.meaning H.LOSSLESS input.now.plan.now input.now.capture.now input.now.options.now (barrier_id barrier.now) workers.new.items }
    ensures rings { map (λ w. w.outputs) workers.new.items ≡ map (λ w. w.outputs) workers.old.items }
    ensures stops { map (λ w. w.stop) workers.new.items ≡ map (λ w. w.stop) workers.old.items }
    ensures done { AreDone workers.new.items }
{
    for _ in rt.forever() {
        if are_done(workers) {
            return;
        }
        finish_all(rt, workers, input, barrier, pool);
    }
    unreachable!()
}
