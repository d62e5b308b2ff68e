//! A worker, and main, with what they stand for.
ghost use Rattle.std.specs.Prelude.{◌≡◌};
ghost use Rattle.vg_dispatch.specs.Standing.{barrier_id};
ghost use Rattle.vg_threads.specs.Leads.{IsMain};
ghost use Rattle.vg_threads.specs.Ties.{IsTied, IsTiedMain, IsWorkerAt, tie_of};

use crate::mains::{Main, Stage, Way};
use std::alloc::Global;
use std::marker::Model;
use std::snapshot::Snapshot;
use std::sync::Wait;
use std::sync::ledger::Ledger;
use std::thread::Promise;
use vg_barrier::Barrier;
use vg_dispatch::{Input, Turn, Worker, WorkerParcel};
use vg_hands::{HandFrame, Handoff};
use vg_nodes::KindSet;
use vg_outside::Gate;
use vg_pool::{LockedPool, PoolLedger};

/// A worker that stands for its input, with its seat at its barrier and its cache of its pool. Contracts see it as what no turn
/// changes: its number, its input, its barrier, and the rings of its queues.
#[derive(Drop)]
pub(crate) struct Tied<'a, K: KindSet, H: Handoff<HandFrame>, T: PoolLedger, L: Ledger> {
    worker: Worker<K, H, T, L>,
    input: &'a Input<'a>,
    barrier: &'a Barrier<WorkerParcel>,
    pool: &'a LockedPool<T, L>,
}

impl<'a, K: KindSet, H: Handoff<HandFrame>, T: PoolLedger, L: Ledger> Model
    for Tied<'a, K, H, T, L> {
    ghost use Rattle.vg_dispatch.specs.Standing.{barrier_id};
    ghost use Rattle.vg_threads.specs.Ties.{Tie, IsWorkerAt, tie_of};

    ghost Value = { Tie };

    ghost view = { λ t. tie_of t.input.now.plan.now t.input.now.capture.now t.input.now.options.now (barrier_id t.barrier.now) t.worker };

    ghost invariant = { λ t. IsWorkerAt K.meaning H.LOSSLESS t.input.now.plan.now t.input.now.capture.now t.input.now.options.now (barrier_id t.barrier.now) t.worker };
}

impl<'a, K: KindSet, H: Handoff<HandFrame>, T: PoolLedger, L: Ledger> Tied<'a, K, H, T, L> {
    /// Ties a worker to what it stands for.
    pub(crate) fn new(
        worker: Worker<K, H, T, L>,
        input: &'a Input<'a>,
        barrier: &'a Barrier<WorkerParcel>,
        pool: &'a LockedPool<T, L>,
    ) -> Tied<'a, K, H, T, L>
        requires { IsWorkerAt K.meaning H.LOSSLESS input.now.plan.now input.now.capture.now input.now.options.now (barrier_id barrier.now) worker }
        ensures { result ≡ tie_of input.entry.now.plan.now input.entry.now.capture.now input.entry.now.options.now (barrier_id barrier.entry.now) worker }
    {
        Tied {
            worker,
            input,
            barrier,
            pool,
        }
    }

    /// One turn of the worker.
    pub(crate) fn turn<R: Wait, G: Gate>(&mut self, rt: &R, gate: &G) -> Turn
        ensures { self.new ≡ self.old }
    {
        self.worker
            .turn(rt, self.input, self.barrier, self.pool, gate)
    }

    /// The number of the next packet that the worker draws.
    pub(crate) fn mark(&self) -> u64 {
        self.worker.mark()
    }

    /// How many frames the worker has handed to others and taken of them.
    pub(crate) fn frames(&self) -> u64 {
        let workers = self.input.options.workers;
        // The packets that it draws tell its number.
        let number = (self.worker.mark() % u64::from(workers)) as u8;
        let mut frames: u64 = 0;
        for other in 0..workers {
            if other != number {
                frames = frames
                    .wrapping_add(self.worker.accepted(other))
                    .wrapping_add(self.worker.dispatched(other));
            }
        }
        frames
    }

    /// The worker.
    pub(crate) fn untied(self) -> Worker<K, H, T, L>
        ensures { IsTied K.meaning H.LOSSLESS self.entry result }
    {
        let Tied {
            worker,
            input: _,
            barrier: _,
            pool: _,
        } = self;
        worker
    }
}

/// That the worker which comes back is the one that was given.
#[derive(Drop)]
pub(crate) struct Same<'a, K: KindSet, H: Handoff<HandFrame>, T: PoolLedger, L: Ledger> {
    pub given: Snapshot<Tied<'a, K, H, T, L>>,
}

impl<'a, K: KindSet, H: Handoff<HandFrame>, T: PoolLedger, L: Ledger> Promise<Tied<'a, K, H, T, L>>
    for Same<'a, K, H, T, L> {
    ghost kept_by = { λ p r. r ≡ p.given.value };
}

/// Main, which leads the run of its input, with its seat at its barrier. Contracts see it as what no step changes.
#[derive(Drop)]
pub(crate) struct TiedMain<'a> {
    main: Main,
    input: &'a Input<'a>,
    barrier: &'a Barrier<WorkerParcel>,
}

impl<'a> Model for TiedMain<'a> {
    ghost use Rattle.vg_dispatch.specs.Standing.{barrier_id};
    ghost use Rattle.vg_threads.specs.Leads.{IsMain};
    ghost use Rattle.vg_threads.specs.Ties.{MainTie};

    ghost Value = { MainTie };

    ghost view = { λ t. record { plan = t.input.now.plan.now; capture = t.input.now.capture.now; barrier = barrier_id t.barrier.now } };

    ghost invariant = { λ t. IsMain t.input.now.plan.now t.input.now.capture.now t.barrier.now t.main };
}

impl<'a> TiedMain<'a> {
    /// Ties main to what it leads.
    pub(crate) fn new(
        main: Main,
        input: &'a Input<'a>,
        barrier: &'a Barrier<WorkerParcel>,
    ) -> TiedMain<'a>
        requires { IsMain input.now.plan.now input.now.capture.now barrier.now main }
        ensures { result ≡ record { plan = input.entry.now.plan.now; capture = input.entry.now.capture.now; barrier = barrier_id barrier.entry.now } }
    {
        TiedMain {
            main,
            input,
            barrier,
        }
    }

    /// One step of main.
    pub(crate) fn step(self, alloc: Global) -> TiedMain<'a>
        ensures { result ≡ self.entry }
    {
        let TiedMain {
            main,
            input,
            barrier,
        } = self;
        TiedMain {
            main: main.step(alloc, input, barrier),
            input,
            barrier,
        }
    }

    /// What main does.
    pub(crate) fn stage(&self) -> Stage {
        self.main.stage()
    }

    /// Whether main has told the workers to stop, and all of them have left.
    pub(crate) fn is_over(&self) -> bool {
        self.main.is_over()
    }

    /// How far the workers had to go when main last gave them their parcels.
    pub(crate) fn way(&self) -> Way {
        self.main.way
    }

    /// Main.
    pub(crate) fn untied(self) -> Main
        ensures { IsTiedMain self.entry result }
    {
        let TiedMain {
            main,
            input: _,
            barrier: _,
        } = self;
        main
    }
}
