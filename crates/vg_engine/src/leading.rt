//! The order in which main and the workers have their turns.
ghost use Rattle.std.specs.Prelude.{◌≡◌, length, map};
ghost use Rattle.vg_dispatch.specs.Standing.{barrier_id};
ghost use Rattle.vg_workers.specs.Crews.{IsCrew, HaveStopped};
ghost use Rattle.vg_threads.specs.Leads.{IsMain};
ghost use Rattle.vg_engine.specs.Orders.{IsTurnByte, AreTurns};

use std::alloc::Global;
use std::sync::Wait;
use std::sync::ledger::Ledger;
use vg_barrier::Barrier;
use vg_dispatch::{Input, Worker, WorkerParcel};
use vg_hands::{HandFrame, Handoff};
use vg_nodes::KindSet;
use vg_outside::Gate;
use vg_pool::{LockedPool, PoolLedger};
use vg_threads::Main;
use vg_workers::{have_stopped, turn_all, turn_one};

// Makes the turn that this byte names: `m` a step of main, a digit a turn of the worker with this number.
fn take_turn<K: KindSet, H: Handoff<HandFrame>, T: PoolLedger, L: Ledger, R: Wait, G: Gate>(
    rt: &R,
    alloc: Global,
    turn: u8,
    main: Main,
    workers: &mut Vec<Worker<K, H, T, L>>,
    input: &Input<'_>,
    barrier: &Barrier<WorkerParcel>,
    pool: &LockedPool<T, L>,
    gate: &G,
) -> Main
    requires turn { IsTurnByte (length workers.old.items) turn }
    requires main { IsMain input.now.plan.now input.now.capture.now barrier.now main }
    requires crew { IsCrew K.meaning H.LOSSLESS input.now.plan.now input.now.capture.now input.now.options.now (barrier_id barrier.now) workers.old.items }
    ensures main { IsMain input.now.plan.now input.now.capture.now barrier.now result }
    ensures crew { IsCrew K.meaning H.LOSSLESS input.now.plan.now input.now.capture.now input.now.options.now (barrier_id barrier.now) workers.new.items }
    ensures rings { map (λ w. w.outputs) workers.new.items ≡ map (λ w. w.outputs) workers.old.items }
{
    if turn == b'm' {
        return main.step(alloc, input, barrier);
    }
    if turn < b'0' || turn > b'7' {
        return main;
    }
    let k = (turn - b'0') as usize;
    turn_one(rt, workers, k, input, barrier, pool, gate);
    main
}

/// Makes these turns: `m` is a step of main, and a digit a turn of the worker with this number.
pub(crate) fn follow<K: KindSet, H: Handoff<HandFrame>, T: PoolLedger, L: Ledger, R: Wait, G: Gate>(
    rt: &R,
    alloc: Global,
    turns: &[u8],
    main: Main,
    workers: &mut Vec<Worker<K, H, T, L>>,
    input: &Input<'_>,
    barrier: &Barrier<WorkerParcel>,
    pool: &LockedPool<T, L>,
    gate: &G,
) -> Main
    requires turns { AreTurns (length workers.old.items) turns.now }
    requires main { IsMain input.now.plan.now input.now.capture.now barrier.now main }
    requires crew { IsCrew K.meaning H.LOSSLESS input.now.plan.now input.now.capture.now input.now.options.now (barrier_id barrier.now) workers.old.items }
    ensures main { IsMain input.now.plan.now input.now.capture.now barrier.now result }
    ensures crew { IsCrew K.meaning H.LOSSLESS input.now.plan.now input.now.capture.now input.now.options.now (barrier_id barrier.now) workers.new.items }
    ensures rings { map (λ w. w.outputs) workers.new.items ≡ map (λ w. w.outputs) workers.old.items }
{
    let mut main = main;
    for turn in turns {
        main = take_turn(rt, alloc, *turn, main, workers, input, barrier, pool, gate);
    }
    main
}

/// A step of main and a turn of each worker, over and over, until each worker has stopped.
pub(crate) fn lead<K: KindSet, H: Handoff<HandFrame>, T: PoolLedger, L: Ledger, R: Wait, G: Gate>(
    rt: &R,
    alloc: Global,
    main: Main,
    workers: &mut Vec<Worker<K, H, T, L>>,
    input: &Input<'_>,
    barrier: &Barrier<WorkerParcel>,
    pool: &LockedPool<T, L>,
    gate: &G,
) -> Main
    requires main { IsMain input.now.plan.now input.now.capture.now barrier.now main }
    requires crew { IsCrew K.meaning H.LOSSLESS input.now.plan.now input.now.capture.now input.now.options.now (barrier_id barrier.now) workers.old.items }
    ensures main { IsMain input.now.plan.now input.now.capture.now barrier.now result }
    ensures crew { IsCrew K.meaning H.LOSSLESS input.now.plan.now input.now.capture.now input.now.options.now (barrier_id barrier.now) workers.new.items }
    ensures rings { map (λ w. w.outputs) workers.new.items ≡ map (λ w. w.outputs) workers.old.items }
    ensures stopped { HaveStopped workers.new.items }
{
    let mut main = main;
    for _ in rt.forever() {
        if have_stopped(workers) {
            return main;
        }
        main = main.step(alloc, input, barrier);
        turn_all(rt, workers, input, barrier, pool, gate);
    }
    unreachable!()
}
