//! Main and the workers at a barrier of their own.
ghost use Rattle.std.specs.Prelude.{◌≡◌, ◌≤◌, IfOk, length, map};
ghost use Rattle.std.specs.List.{AllByRecursion};
ghost use Rattle.vg_model.specs.Graph.{Graph};
ghost use Rattle.vg_model.specs.PoolBook.{empty_cache};
ghost use Rattle.vg_plan.specs.Plan.{windows};
ghost use Rattle.vg_dispatch.specs.Progress.{AreInRange};
ghost use Rattle.vg_dispatch.specs.Standing.{barrier_id};
ghost use Rattle.vg_workers.specs.Crews.{IsCrew};
ghost use Rattle.vg_threads.specs.Leads.{IsMain};
ghost use Rattle.vg_workers.specs.Linked.{AreLinked};
ghost use Rattle.vg_workers.specs.Places.{AllAt};
ghost use Rattle.vg_engine.specs.Seats.{IsFirstSeat, first_parcel};

use std::alloc::Global;
use std::sync::ledger::Ledger;
use vg_barrier::{Barrier, Running};
use vg_dispatch::{Input, Links, Stop, Worker, WorkerParcel};
use vg_fork::Fork;
use vg_hands::{HandFrame, Handoff};
use vg_model::Memory;
use vg_nodes::KindSet;
use vg_plan::Master;
use vg_pool::{Cache, PoolLedger};
use vg_process::Processes;
use vg_threads::{Lead, Main, Phase, Way, forks_of};
use vg_workers::lists::push;

/// A barrier with main and the seats of the workers, by number.
#[derive(Drop)]
pub(crate) struct Seats {
    pub barrier: Barrier<WorkerParcel>,
    pub main: Main,
    pub workers: Vec<Running<WorkerParcel>>,
}

// The parcel of a worker at the start, which draws the packet with its own number first.
fn parcel_of(fork: Fork, limit: u32, number: usize) -> WorkerParcel
    ensures { (graph : Graph) → fork ≡ record { graph = graph; generation = 0 } → result ≡ first_parcel graph limit number }
{
    WorkerParcel {
        fork,
        limit,
        next: number as u64,
        stop: Stop::No,
    }
}

// The parcels of so many workers.
fn parcels_of(
    alloc: Global,
    master: &Master,
    limit: u32,
    workers: usize,
) -> Result<Vec<WorkerParcel>, Memory>
    requires { 1 ≤ workers }
    ensures count { IfOk result (λ parcels. length parcels.items ≡ workers) }
    ensures each { IfOk result (λ parcels. AllAt (λ number parcel. parcel ≡ first_parcel master.now limit number) 0 parcels.items) }
{
    let mut parcels = Vec::new(alloc);
    for fork in forks_of(alloc, master, 0, workers, None)? {
        let number = parcels.len();
        push(&mut parcels, parcel_of(fork, limit, number))?;
    }
    Ok(parcels)
}

/// A barrier for the workers of a run, and main, which is idle.
///
/// # Errors
///
/// [`Memory`] where memory runs out.
pub(crate) fn seats_of(alloc: Global, input: &Input<'_>) -> Result<Seats, Memory>
    requires { AreInRange input.now.options.now }
    ensures main { IfOk result (λ seats. IsMain input.now.plan.now input.now.capture.now seats.barrier seats.main) }
    ensures count { IfOk result (λ seats. length seats.workers.items ≡ input.now.options.now.workers) }
    ensures seats { IfOk result (λ seats. AllAt (IsFirstSeat (windows input.now.plan.now input.now.capture.now) (barrier_id seats.barrier)) 0 seats.workers.items) }
{
    let script = input.plan.script();
    let book = input.plan.book(alloc, input.capture)?;
    let master = Master::new(alloc, input.plan)?;
    let processes = Processes::new(alloc, script)?;
    let workers = input.options.workers as usize;
    let parcels = parcels_of(alloc, &master, book.limit(0), workers)?;
    let parts = Barrier::new(alloc, input.plan.book(alloc, input.capture)?, parcels)?;
    let limit = u64::from(book.limit(0));
    let lead = Lead {
        book,
        processes,
        master,
        told: Stop::No,
        spare: None,
    };
    Ok(Seats {
        barrier: parts.barrier,
        main: Main {
            phase: Phase::Idle(parts.main),
            lead,
            way: Way { limit, left: limit },
        },
        workers: parts.workers,
    })
}

/// The workers of a run, each with its seat, its cache and its links.
///
/// # Errors
///
/// [`Memory`] where memory runs out.
pub(crate) fn workers_of<K: KindSet, H: Handoff<HandFrame>, T: PoolLedger, L: Ledger>(
    alloc: Global,
    input: &Input<'_>,
    kinds: &K,
    links: Links<H>,
    caches: Vec<Cache<T, L>>,
    seats: Vec<Running<WorkerParcel>>,
    barrier: &Barrier<WorkerParcel>,
) -> Result<Vec<Worker<K, H, T, L>>, Memory>
    requires options { AreInRange input.now.options.now }
    requires links { AreLinked H.accepted H.ring H.slots input.now.options.now.workers input.now.options.now.queue links.workers.items }
    requires counts { (length caches.items ≡ input.now.options.now.workers) × (length seats.items ≡ input.now.options.now.workers) }
    requires caches { AllByRecursion (λ cache. cache ≡ empty_cache) caches.items }
    requires seats { AllAt (IsFirstSeat (windows input.now.plan.now input.now.capture.now) (barrier_id barrier.now)) 0 seats.items }
    ensures crew { IfOk result (λ workers. IsCrew K.meaning H.LOSSLESS input.now.plan.now input.now.capture.now input.now.options.now (barrier_id barrier.now) workers.items) }
    ensures rings { IfOk result (λ workers. map (λ w. w.outputs) workers.items ≡ map (λ l. map H.ring l.outputs.items) links.workers.items) }
{
    let mut workers = Vec::new(alloc);
    let mut caches = caches.into_iter();
    let mut seats = seats.into_iter();
    for link in links.workers {
        let Some(cache) = caches.next() else {
            unreachable!()
        };
        let Some(seat) = seats.next() else {
            unreachable!()
        };
        let number = workers.len() as u8;
        let Ok(worker) = Worker::new(alloc, number, input, kinds, link, cache, seat) else {
            return Err(Memory);
        };
        push(&mut workers, worker)?;
    }
    Ok(workers)
}
