//! A run.
ghost use Rattle.std.specs.Prelude.{◌≡◌, ◌≤◌, [], IfOk, length, map, flat_map};
ghost use Rattle.vg_ring.specs.Rests.{rest_ring};
ghost use Rattle.vg_plan.specs.Plan.{first_generation};
ghost use Rattle.vg_barrier.specs.Barrier.{IsSeatOf};
ghost use Rattle.vg_barrier.specs.Seats.{main_view};
ghost use Rattle.vg_dispatch.specs.Progress.{AreInRange};
ghost use Rattle.vg_dispatch.specs.Standing.{barrier_id};
ghost use Rattle.vg_workers.specs.Crews.{IsCrew, AreDone};
ghost use Rattle.vg_workers.specs.Ended.{HaveKept};
ghost use Rattle.vg_threads.specs.Leads.{IsLead, IsMain};
ghost use Rattle.vg_workers.specs.Linked.{AreLinked};
ghost use Rattle.vg_engine.specs.Orders.{AreTurns};
ghost use Rattle.vg_engine.specs.Outcomes.{IsOutcome};

use crate::leading::{follow, lead};
use crate::seats::{Seats, seats_of, workers_of};
use std::alloc::Global;
use std::marker::Brand;
use std::sync::Wait;
use std::sync::ledger::{Blank, Ledger};
use vg_barrier::{Barrier, MainSeat};
use vg_capture::know_few;
use vg_counters::{Counters, TraceLists};
use vg_dispatch::{FateList, Input, Links, SentList, Worker, WorkerParcel};
use vg_graph::Graph;
use vg_hands::{HandFrame, Handoff};
use vg_model::Memory;
use vg_nodes::KindSet;
use vg_outside::Gate;
use vg_pool::{LockedPool, Pool, PoolLedger, Settled};
use vg_ring::Rest;
use vg_threads::{Lead, Main};
use vg_workers::gather::{Gathered, gather};
use vg_workers::lists::room_for;
use vg_workers::{Ends, Rests, close_all, end_all, finish, have_ended};

/// What came of a run.
#[derive(Drop)]
pub struct Outcome {
    /// What became of the packets, by number.
    pub fates: FateList,
    /// The packets that were transmitted, by number.
    pub sent: SentList,
    /// Counts by node, error and interface, for as many of them as a graph may have.
    pub counts: Counters,
    /// The nodes that each of the first packets visited, by number: as many packets as the options say, or all where there are
    /// fewer.
    pub trace: TraceLists,
    /// How many buffers are in the pool at the end.
    pub buffers: u32,
    /// What the settlement of the pool came to, which counted them.
    pub settled: Settled,
    /// The graph of the last generation, without its routes.
    pub last: Graph,
    /// The closed queues, one from each worker to each other: by the worker from which, and then by the worker to which they lead. Each is
    /// of the ring that the links named.
    pub rests: Rests,
    /// Main's seat at the barrier of the run.
    pub seat: MainSeat<WorkerParcel>,
}

/// Room for what the end of a run puts together.
#[derive(Drop)]
pub(crate) struct Room<T: Ledger, L: Ledger> {
    pub ends: Ends<T, L>,
    pub rests: Vec<Rest<HandFrame>>,
}

/// Room for the end of a run on so many workers.
///
/// # Errors
///
/// [`Memory`] where memory runs out.
pub(crate) fn room_of<T: Ledger, L: Ledger>(
    alloc: Global,
    workers: u8,
) -> Result<Room<T, L>, Memory>
    ensures ends { IfOk result (λ room. HaveKept [] room.ends) }
    ensures rests { IfOk result (λ room. room.rests.items ≡ []) }
{
    let workers = workers as usize;
    Ok(Room {
        ends: Ends::with_room(alloc, workers)?,
        rests: room_for(alloc, workers * workers)?,
    })
}

/// What comes of a run whose workers have stopped and have nothing on its way.
///
/// # Errors
///
/// [`Memory`] where memory runs out, or ran out before the last generation was over.
pub(crate) fn conclude<K: KindSet, H: Handoff<HandFrame>, T: PoolLedger, L: Ledger>(
    alloc: Global,
    input: &Input<'_>,
    workers: Vec<Worker<K, H, T, L>>,
    lead: &Lead,
    seat: MainSeat<WorkerParcel>,
    barrier: &Barrier<WorkerParcel>,
    pool: LockedPool<T, L>,
    room: Room<T, L>,
) -> Result<Outcome, Memory>
    requires options { AreInRange input.now.options.now }
    requires ends { HaveKept [] room.ends }
    requires rests { room.rests.items ≡ [] }
    requires total { T.total ≡ input.now.options.now.buffers }
    requires parts { (T.parts ≡ input.now.options.now.workers) × (L.parts ≡ input.now.options.now.workers) }
    requires crew { IsCrew K.meaning H.LOSSLESS input.now.plan.now input.now.capture.now input.now.options.now (barrier_id barrier.now) workers.items }
    requires done { AreDone workers.items }
    requires lead { IsLead input.now.plan.now input.now.capture.now (main_view seat.seat).released (main_view seat.seat).stamp lead.now }
    ensures outcome { IfOk result (IsOutcome K.meaning H.LOSSLESS input.now.plan.now.graphs
        (first_generation input.now.plan.now.script input.now.capture.now) input.now.capture.now input.now.options.now) }
    ensures rings { IfOk result (λ outcome. map rest_ring outcome.rests ≡ flat_map (λ w. w.outputs) workers.items) }
{
    know_few(input.capture);
    let Room { ends, rests } = room;
    let ended = have_ended(&workers);
    let Ends {
        logs,
        sent,
        counters,
        traces,
        caches,
        inputs,
        outputs,
    } = end_all(workers, ends)?;
    let rests = close_all(outputs, inputs, rests)?;
    if !lead.is_ended() || !ended {
        return Err(Memory);
    }
    // The pool first, so that what is put together has its memory.
    let pool = pool.close(caches);
    let Some(settled) = pool.end() else {
        unreachable!()
    };
    let Gathered {
        fates,
        sent,
        counts,
        trace,
    } = gather(alloc, logs, sent, &counters, &traces)?;
    let last = lead.master.graph().copy(alloc)?;
    Ok(Outcome {
        fates,
        sent,
        counts,
        trace,
        buffers: settled.len(),
        settled,
        last,
        rests: Rests::from_vec(rests),
        seat,
    })
}

/// A run: main and the workers at their barrier, the pool of their buffers, and room for what comes of it.
#[derive(Drop)]
pub(crate) struct Run<K: KindSet, H: Handoff<HandFrame>, T: PoolLedger, L: Ledger> {
    pub pool: LockedPool<T, L>,
    pub barrier: Barrier<WorkerParcel>,
    pub main: Main,
    pub workers: Vec<Worker<K, H, T, L>>,
    pub room: Room<T, L>,
}

/// A run at its start: its pool is full, main is idle, and no worker has a packet. Its buffers are counted in these two ledgers.
///
/// # Errors
///
/// [`Memory`] where memory runs out.
pub(crate) fn begin<K: KindSet, H: Handoff<HandFrame>, T: PoolLedger, L: Ledger>(
    alloc: Global,
    input: &Input<'_>,
    kinds: &K,
    links: Links<H>,
    taken: Blank,
    given: Blank,
) -> Result<Run<K, H, T, L>, Memory>
    requires options { AreInRange input.now.options.now }
    requires links { AreLinked H.accepted H.ring H.slots input.now.options.now.workers input.now.options.now.queue links.workers.items }
    requires total { T.total ≡ input.now.options.now.buffers }
    requires taken { (taken.name ≡ T.name) × (taken.parts ≡ T.parts) × (taken.parts ≡ input.now.options.now.workers) }
    requires given { (given.name ≡ L.name) × (given.parts ≡ L.parts) × (given.parts ≡ input.now.options.now.workers) }
    ensures main { IfOk result (λ run. IsMain input.now.plan.now input.now.capture.now run.barrier run.main) }
    ensures crew { IfOk result (λ run. IsCrew K.meaning H.LOSSLESS input.now.plan.now input.now.capture.now input.now.options.now (barrier_id run.barrier) run.workers.items) }
    ensures rings { IfOk result (λ run. map (λ w. w.outputs) run.workers.items ≡ map (λ l. map H.ring l.outputs.items) links.workers.items) }
    ensures ends { IfOk result (λ run. HaveKept [] run.room.ends) }
    ensures rests { IfOk result (λ run. run.room.rests.items ≡ []) }
{
    let count = input.options.workers as usize;
    let (pool, caches) = Pool::<T, L>::new(alloc, input.options.buffers, count, taken, given)?;
    let pool = LockedPool::new(pool);
    let room = room_of(alloc, input.options.workers)?;
    let Seats {
        barrier,
        main,
        workers,
    } = seats_of(alloc, input)?;
    let workers = workers_of(alloc, input, kinds, links, caches, workers, &barrier)?;
    Ok(Run {
        pool,
        barrier,
        main,
        workers,
        room,
    })
}

/// What comes of a run: main and the workers have turns, one after the other, until each worker has stopped; then the workers take
/// the frames that are left in queues.
///
/// # Errors
///
/// [`Memory`] where memory runs out, or ran out before the last generation was over.
pub(crate) fn end<K: KindSet, H: Handoff<HandFrame>, T: PoolLedger, L: Ledger, R: Wait, G: Gate>(
    rt: &R,
    alloc: Global,
    run: Run<K, H, T, L>,
    input: &Input<'_>,
    gate: &G,
) -> Result<Outcome, Memory>
    requires options { AreInRange input.now.options.now }
    requires total { T.total ≡ input.now.options.now.buffers }
    requires parts { (T.parts ≡ input.now.options.now.workers) × (L.parts ≡ input.now.options.now.workers) }
    requires main { IsMain input.now.plan.now input.now.capture.now run.barrier run.main }
    requires crew { IsCrew K.meaning H.LOSSLESS input.now.plan.now input.now.capture.now input.now.options.now (barrier_id run.barrier) run.workers.items }
    requires ends { HaveKept [] run.room.ends }
    requires rests { run.room.rests.items ≡ [] }
    ensures outcome { IfOk result (IsOutcome K.meaning H.LOSSLESS input.now.plan.now.graphs
        (first_generation input.now.plan.now.script input.now.capture.now) input.now.capture.now input.now.options.now) }
    ensures rings { IfOk result (λ outcome. map rest_ring outcome.rests ≡ flat_map (λ w. w.outputs) run.workers.items) }
{
    let Run {
        pool,
        barrier,
        main,
        mut workers,
        room,
    } = run;
    let main = lead(rt, alloc, main, &mut workers, input, &barrier, &pool, gate);
    finish(rt, &mut workers, input, &barrier, &pool);
    let (seat, lead) = main.rest(rt, alloc, input, &barrier);
    conclude(alloc, input, workers, &lead, seat, &barrier, pool, room)
}

// Runs a capture, with these turns of main and the workers, and then by turns. Its buffers are counted in these two ledgers.
fn run_counted<K: KindSet, H: Handoff<HandFrame>, T: PoolLedger, L: Ledger, R: Wait, G: Gate>(
    rt: &R,
    alloc: Global,
    input: &Input<'_>,
    kinds: &K,
    links: Links<H>,
    gate: &G,
    turns: &[u8],
    taken: Blank,
    given: Blank,
) -> Result<Outcome, Memory>
    requires options { AreInRange input.now.options.now }
    requires links { AreLinked H.accepted H.ring H.slots input.now.options.now.workers input.now.options.now.queue links.workers.items }
    requires turns { AreTurns input.now.options.now.workers turns.now }
    requires total { T.total ≡ input.now.options.now.buffers }
    requires taken { (taken.name ≡ T.name) × (taken.parts ≡ T.parts) × (taken.parts ≡ input.now.options.now.workers) }
    requires given { (given.name ≡ L.name) × (given.parts ≡ L.parts) × (given.parts ≡ input.now.options.now.workers) }
    ensures outcome { IfOk result (IsOutcome K.meaning H.LOSSLESS input.now.plan.now.graphs
        (first_generation input.now.plan.now.script input.now.capture.now) input.now.capture.now input.now.options.now) }
    ensures rings { IfOk result (λ outcome. map rest_ring outcome.rests ≡ flat_map (λ l. map H.ring l.outputs.items) links.workers.items) }
{
    let Run {
        pool,
        barrier,
        main,
        mut workers,
        room,
    } = begin::<K, H, T, L>(alloc, input, kinds, links, taken, given)?;
    let main = follow(
        rt,
        alloc,
        turns,
        main,
        &mut workers,
        input,
        &barrier,
        &pool,
        gate,
    );
    let run = Run {
        pool,
        barrier,
        main,
        workers,
        room,
    };
    end(rt, alloc, run, input, gate)
}

/// Runs a capture on several workers, on this thread.
///
/// Each byte of `turns` is a turn: `m` a step of main, a digit a turn of the worker with this number, and white space is nothing.
/// When they are used up, main and the workers by rising number have turns until each worker has stopped. So the turns decide which
/// of the lawful choices the run makes.
///
/// # Errors
///
/// [`Memory`] where memory runs out.
pub fn run_turns<K: KindSet, H: Handoff<HandFrame>, R: Wait, G: Gate>(
    rt: &R,
    alloc: Global,
    input: &Input<'_>,
    kinds: &K,
    links: Links<H>,
    gate: &G,
    turns: &[u8],
) -> Result<Outcome, Memory>
    requires options { AreInRange input.now.options.now }
    requires links { AreLinked H.accepted H.ring H.slots input.now.options.now.workers input.now.options.now.queue links.workers.items }
    requires turns { AreTurns input.now.options.now.workers turns.now }
    ensures outcome { IfOk result (IsOutcome K.meaning H.LOSSLESS input.now.plan.now.graphs
        (first_generation input.now.plan.now.script input.now.capture.now) input.now.capture.now input.now.options.now) }
    ensures rings { IfOk result (λ outcome. map rest_ring outcome.rests ≡ flat_map (λ l. map H.ring l.outputs.items) links.workers.items) }
{
    let parts = u64::from(input.options.workers);
    run_counted::<K, H, Brand, Brand, R, G>(
        rt,
        alloc,
        input,
        kinds,
        links,
        gate,
        turns,
        Blank::new(parts),
        Blank::new(parts),
    )
}
