//! A run with its workers in threads.
ghost use Rattle.std.specs.Prelude.{◌≡◌, IfOk, vec_len, map, flat_map};
ghost use Rattle.vg_ring.specs.Rests.{rest_ring};
ghost use Rattle.vg_plan.specs.Plan.{first_generation};
ghost use Rattle.vg_dispatch.specs.Progress.{AreInRange};
ghost use Rattle.vg_dispatch.specs.Standing.{barrier_id};
ghost use Rattle.vg_workers.specs.Crews.{IsCrew};
ghost use Rattle.vg_threads.specs.Leads.{IsMain};
ghost use Rattle.vg_workers.specs.Linked.{AreLinked};
ghost use Rattle.vg_engine.specs.Outcomes.{IsOutcome};

use crate::runs::{Outcome, Run, begin, end};
use std::alloc::Global;
use std::marker::Brand;
use std::sync::Wait;
use std::sync::ledger::{Blank, Ledger};
use std::thread::Threads;
use vg_barrier::Barrier;
use vg_dispatch::{Input, Links, Worker, WorkerParcel};
use vg_hands::{HandFrame, Handoff};
use vg_model::Memory;
use vg_nodes::KindSet;
use vg_outside::Gate;
use vg_pool::{LockedPool, PoolLedger};
use vg_threads::{posts_of, run_workers};

// Runs a capture on several workers in threads. Its buffers are counted in these two ledgers.
fn run_counted<
    K: KindSet + Send,
    H: Handoff<HandFrame> + Send,
    T: PoolLedger + Send,
    L: Ledger + Send,
    R: Wait + Threads + Sync,
    G: Gate,
>(
    rt: &R,
    alloc: Global,
    input: &Input<'_>,
    kinds: &K,
    links: Links<H>,
    gate: &G,
    taken: Blank,
    given: Blank,
) -> Result<Outcome, Memory>
    requires options { AreInRange input.now.options.now }
    requires links { AreLinked H.accepted H.ring H.slots input.now.options.now.workers input.now.options.now.queue links.workers.items }
    requires total { T.total ≡ input.now.options.now.buffers }
    requires taken { (taken.name ≡ T.name) × (taken.parts ≡ T.parts) × (taken.parts ≡ input.now.options.now.workers) }
    requires given { (given.name ≡ L.name) × (given.parts ≡ L.parts) × (given.parts ≡ input.now.options.now.workers) }
    ensures outcome { IfOk result (IsOutcome K.meaning H.LOSSLESS input.now.plan.now.graphs
        (first_generation input.now.plan.now.script input.now.capture.now) input.now.capture.now input.now.options.now) }
    ensures rings { IfOk result (λ outcome. map rest_ring outcome.rests ≡ flat_map (λ l. map H.ring l.outputs.items) links.workers.items) }
{
    let Run {
        pool,
        barrier,
        main,
        workers,
        room,
    } = begin::<K, H, T, L>(alloc, input, kinds, links, taken, given)?;
    let posts = posts_of(alloc, workers.len())?;
    let (main, workers) = run_workers(
        &*rt, alloc, main, workers, &*input, &barrier, &pool, &*gate, &posts,
    )?;
    let run = Run {
        pool,
        barrier,
        main,
        workers,
        room,
    };
    end(rt, alloc, run, input, gate)
}

/// Runs a capture on several workers, each in a thread of its own, while main asks them to park, gives them the next generation and
/// releases them.
///
/// Where the start of a thread is refused, main gives that worker its turns between its own steps. Which of the lawful choices the
/// run makes is up to the threads.
///
/// # Errors
///
/// [`Memory`] where memory runs out. Where it does so while the workers run, they are told to stop and joined first.
pub fn run_threads<
    K: KindSet + Send,
    H: Handoff<HandFrame> + Send,
    R: Wait + Threads + Sync,
    G: Gate,
>(
    rt: &R,
    alloc: Global,
    input: &Input<'_>,
    kinds: &K,
    links: Links<H>,
    gate: &G,
) -> Result<Outcome, Memory>
    requires options { AreInRange input.now.options.now }
    requires links { AreLinked H.accepted H.ring H.slots input.now.options.now.workers input.now.options.now.queue links.workers.items }
    ensures outcome { IfOk result (IsOutcome K.meaning H.LOSSLESS input.now.plan.now.graphs
        (first_generation input.now.plan.now.script input.now.capture.now) input.now.capture.now input.now.options.now) }
    ensures rings { IfOk result (λ outcome. map rest_ring outcome.rests ≡ flat_map (λ l. map H.ring l.outputs.items) links.workers.items) }
{
    let parts = u64::from(input.options.workers);
    run_counted::<K, H, Brand, Brand, R, G>(
        rt,
        alloc,
        input,
        kinds,
        links,
        gate,
        Blank::new(parts),
        Blank::new(parts),
    )
}
