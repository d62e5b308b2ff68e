//! The workers of a run, in threads while main leads them.
ghost use Rattle.std.specs.Prelude.{◌≡◌, ◌≤◌, [], map, IfOk, vec_len, vec_capacity};
ghost use Rattle.std.specs.List.{AllByRecursion};
ghost use Rattle.vg_dispatch.specs.Standing.{barrier_id};
ghost use Rattle.vg_threads.specs.Leads.{IsMain};
ghost use Rattle.vg_threads.specs.Ties.{IsWorkerAt, AreTied, tie_of};

use crate::driving::run_team;
use crate::mains::Main;
use crate::posts::Posts;
use crate::started::Started;
use crate::teams::{Joined, Team, tie_all, untie_all};
use crate::tied::{Tied, TiedMain};
use std::alloc::Global;
use std::sync::Wait;
use std::sync::ledger::Ledger;
use std::thread::Threads;
use vg_barrier::Barrier;
use vg_dispatch::{Input, Worker, WorkerParcel};
use vg_hands::{HandFrame, Handoff};
use vg_model::Memory;
use vg_nodes::KindSet;
use vg_outside::Gate;
use vg_pool::{LockedPool, PoolLedger};

/// Room for so many: workers that are tied, started, joined and untied again. It is taken here, where no worker is, so that a want of memory
/// has nothing else to drop.
fn rooms_for<'a, K: KindSet, H: Handoff<HandFrame>, T: PoolLedger, L: Ledger>(
    alloc: Global,
    count: usize,
) -> Result<
    (
        Vec<Tied<'a, K, H, T, L>>,
        Vec<Started<'a, K, H, T, L>>,
        Vec<Tied<'a, K, H, T, L>>,
        Vec<Worker<K, H, T, L>>,
    ),
    Memory,
>
    ensures tied { IfOk result (λ rooms. (rooms.0.items ≡ []) × (count ≤ vec_capacity rooms.0)) }
    ensures started { IfOk result (λ rooms. (rooms.1.items ≡ []) × (count ≤ vec_capacity rooms.1)) }
    ensures joined { IfOk result (λ rooms. (rooms.2.items ≡ []) × (count ≤ vec_capacity rooms.2)) }
    ensures untied { IfOk result (λ rooms. (rooms.3.items ≡ []) × (count ≤ vec_capacity rooms.3)) }
{
    Ok((
        Vec::with_capacity(alloc, count)?,
        Vec::with_capacity(alloc, count)?,
        Vec::with_capacity(alloc, count)?,
        Vec::with_capacity(alloc, count)?,
    ))
}

/// Runs the workers in threads of their own while main leads them, until their threads have ended. All memory for what becomes of
/// them is taken before the first is started.
///
/// The workers come back in their order, each as what it was but for what its turns changed.
///
/// # Errors
///
/// [`Memory`] where memory runs out before the first is started.
pub fn run_workers<
    'a,
    K: KindSet + Send,
    H: Handoff<HandFrame> + Send,
    T: PoolLedger + Send,
    L: Ledger + Send,
    R: Wait + Threads + Sync,
    G: Gate,
>(
    rt: &'a R,
    alloc: Global,
    main: Main,
    workers: Vec<Worker<K, H, T, L>>,
    input: &'a Input<'a>,
    barrier: &'a Barrier<WorkerParcel>,
    pool: &'a LockedPool<T, L>,
    gate: &'a G,
    posts: &'a Posts,
) -> Result<(Main, Vec<Worker<K, H, T, L>>), Memory>
    requires posts { vec_len posts.now.workers ≡ vec_len workers }
    requires main { IsMain input.now.plan.now input.now.capture.now barrier.now main }
    requires workers { AllByRecursion (IsWorkerAt K.meaning H.LOSSLESS input.now.plan.now input.now.capture.now input.now.options.now (barrier_id barrier.now)) workers.items }
    ensures main { IfOk result (λ run. IsMain input.entry.now.plan.now input.entry.now.capture.now barrier.entry.now run.0) }
    ensures workers { IfOk result (λ run. AreTied K.meaning H.LOSSLESS
        (map (tie_of input.entry.now.plan.now input.entry.now.capture.now input.entry.now.options.now (barrier_id barrier.entry.now)) workers.items) run.1.items) }
{
    let Ok((tied, started, joined, room)) = rooms_for(alloc, workers.len()) else {
        return Err(Memory);
    };
    let workers = tie_all(workers, tied, input, barrier, pool);
    let Joined { workers, main } = run_team(Team {
        rt,
        alloc,
        gate,
        posts,
        main: TiedMain::new(main, input, barrier),
        workers,
        started,
        joined,
    });
    Ok((main.untied(), untie_all(workers, room)))
}
