//! What the threads of a run are given, and what comes back.
ghost use Rattle.std.specs.Prelude.{◌≡◌, ◌≤◌, [], map, vec_len, vec_capacity};
ghost use Rattle.std.specs.List.{AllByRecursion};
ghost use Rattle.vg_dispatch.specs.Standing.{barrier_id};
ghost use Rattle.vg_threads.specs.Ties.{IsWorkerAt, AreTied, tie_of};

use crate::posts::Posts;
use crate::started::Started;
use crate::tied::{Tied, TiedMain};
use std::alloc::Global;
use std::sync::ledger::Ledger;
use vg_barrier::Barrier;
use vg_dispatch::{Input, Worker, WorkerParcel};
use vg_hands::{HandFrame, Handoff};
use vg_nodes::KindSet;
use vg_pool::{LockedPool, PoolLedger};

/// The workers of a run and main, with room for what becomes of them: no memory is taken for it while they
/// run.
#[derive(Drop)]
pub(crate) struct Team<'a, K: KindSet, H: Handoff<HandFrame>, T: PoolLedger, L: Ledger, R, G> {
    pub rt: &'a R,
    pub alloc: Global,
    pub gate: &'a G,
    pub posts: &'a Posts,
    pub main: TiedMain<'a>,
    pub workers: Vec<Tied<'a, K, H, T, L>>,
    /// Room for the workers, once they are started.
    pub started: Vec<Started<'a, K, H, T, L>>,
    /// Room for them, once they are joined.
    pub joined: Vec<Tied<'a, K, H, T, L>>,
    ghost rooms: { (started.items ≡ []) × (vec_len workers ≤ vec_capacity started) × (joined.items ≡ []) × (vec_len workers ≤ vec_capacity joined) },
    ghost posted: { vec_len posts.now.workers ≡ vec_len workers },
}

/// The workers and main, once all threads have ended.
#[derive(Drop)]
pub(crate) struct Joined<'a, K: KindSet, H: Handoff<HandFrame>, T: PoolLedger, L: Ledger> {
    pub workers: Vec<Tied<'a, K, H, T, L>>,
    pub main: TiedMain<'a>,
}

/// Ties the workers of a run to what they stand for.
pub(crate) fn tie_all<'a, K: KindSet, H: Handoff<HandFrame>, T: PoolLedger, L: Ledger>(
    workers: Vec<Worker<K, H, T, L>>,
    room: Vec<Tied<'a, K, H, T, L>>,
    input: &'a Input<'a>,
    barrier: &'a Barrier<WorkerParcel>,
    pool: &'a LockedPool<T, L>,
) -> Vec<Tied<'a, K, H, T, L>>
    requires room { (room.items ≡ []) × (vec_len workers ≤ vec_capacity room) }
    requires workers { AllByRecursion (IsWorkerAt K.meaning H.LOSSLESS input.now.plan.now input.now.capture.now input.now.options.now (barrier_id barrier.now)) workers.items }
    ensures { result.items ≡ map (tie_of input.entry.now.plan.now input.entry.now.capture.now input.entry.now.options.now (barrier_id barrier.entry.now)) workers.items }
{
    let mut tied = room;
    for worker in workers {
        tied.push_reserved(Tied::new(worker, input, barrier, pool));
    }
    tied
}

/// The workers that are tied so.
pub(crate) fn untie_all<'a, K: KindSet, H: Handoff<HandFrame>, T: PoolLedger, L: Ledger>(
    tied: Vec<Tied<'a, K, H, T, L>>,
    room: Vec<Worker<K, H, T, L>>,
) -> Vec<Worker<K, H, T, L>>
    requires room { (room.items ≡ []) × (vec_len tied ≤ vec_capacity room) }
    ensures { AreTied K.meaning H.LOSSLESS tied.entry.items result.items }
{
    let mut workers = room;
    for worker in tied {
        workers.push_reserved(worker.untied());
    }
    workers
}
