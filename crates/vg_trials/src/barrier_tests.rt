//! The barrier between main and its workers, over the parcels of a run.
ghost use Rattle.std.specs.Prelude.{◌≡◌, ◌<◌, ◌≤◌, ℕ, Some, IfOk, IfSome, OnOk, List, [], ◌∷◌, length, map, slice_get};
ghost use Rattle.vg_model.specs.Graph.{Graph};
ghost use Rattle.vg_model.specs.Valid.{IsValid};
ghost use Rattle.vg_script.specs.Events.{events, events_of};
ghost use Rattle.vg_plan.specs.Plan.{windows};
ghost use Rattle.vg_barrier.specs.Answers.{MayGive};
ghost use Rattle.vg_barrier.specs.Barrier.{IsSeatOf};
ghost use Rattle.vg_barrier.specs.Parcels.{AreFirst};
ghost use Rattle.vg_barrier.specs.Seats.{MayReturn, Whole, main_view};
ghost use Rattle.vg_dispatch.specs.Parcels.{Fits};
ghost use Rattle.vg_dispatch.specs.declared.parcels.Stop.TheVariants as stops;

use std::alloc::{AllocError, Global};
use std::process::Abort;
use std::test::Fail;
use vg_barrier::{
    Barrier, Check, Cleared, Clearing, Held, MainSeat, ParkedSeat, Parking, Running, Words,
};
use vg_capture::{Capture, Captured, Packets};
use vg_dispatch::{Stop, WorkerParcel};
use vg_fork::Fork;
use vg_model::{Bytes, Edits, Members, Memory, RouteTo};
use vg_plan::laws::events_are_made;
use vg_plan::{Book, Master, Plan};
use vg_script::{Block, Script, ScriptError, parse_script};

// A neighbor to which 10.0.0.0/8 goes; from 1,000 microseconds on there is a route for all else, which drops it.
const EAST: &[u8] = b"adjacency east interface pg0 dst 02:00:00:00:00:09\n\
    route 10.0.0.0/8 via east\n\
    at 1000\n\
    route 0.0.0.0/0 drop\n\
    end\n";

// The plan of that script.
fn east(alloc: Global) -> Result<Plan, ScriptError> {
    Plan::new(alloc, parse_script(alloc, EAST)?)
}

// A capture of these packets.
fn capture_of(rt: &impl Abort, alloc: Global, packets: &[Captured]) -> Result<Capture, AllocError>
    ensures { IfOk result (λ capture. capture.packets ≡ packets.now) }
{
    assert!(rt; packets.len() < 100);
    Ok(Capture {
        nanos: false,
        snaplen: 262_144,
        packets: Packets::of(alloc, packets)?,
    })
}

// The fork of main's graph, under this generation.
fn fork_of(alloc: Global, master: &Master, generation: u32) -> Result<Fork, Memory>
    ensures graph { IfOk result (λ fork. fork.graph ≡ master.now) }
    ensures generation { IfOk result (λ fork. fork.generation ≡ generation) }
    ensures valid { IfOk result (λ fork. IsValid fork.graph) }
{
    Fork::of(
        alloc,
        master.graph(),
        master.fib(),
        master.fib6(),
        generation,
    )
}

// A capture of empty packets at these times in microseconds.
fn capture_at(rt: &impl Abort, alloc: Global, times: &[u32]) -> Result<Capture, Fail> {
    let mut packets = Vec::new(alloc);
    for time in times {
        packets.push(Captured {
            seconds: 7,
            fraction: *time,
            original: 0,
            bytes: Bytes::from_vec(Vec::new(alloc)),
        })?;
    }
    Ok(capture_of(rt, alloc, packets.as_slice())?)
}

// A parcel of generation 0, with main's graph.
fn first_parcel(
    alloc: Global,
    master: &Master,
    limit: u32,
    next: u64,
) -> Result<WorkerParcel, Memory>
    ensures fork { IfOk result (λ parcel. parcel.fork ≡ record { graph = master.now; generation = 0 }) }
    ensures limit { IfOk result (λ parcel. parcel.limit ≡ limit) }
    ensures stop { IfOk result (λ parcel. parcel.stop ≡ stops.No) }
{
    Ok(WorkerParcel {
        fork: fork_of(alloc, master, 0)?,
        limit,
        next,
        stop: Stop::No,
    })
}

// The parcels of two workers: the one has drawn the packets below 2, and the other those below 3.
fn first_parcels(alloc: Global, master: &Master, limit: u32) -> Result<Vec<WorkerParcel>, Fail>
    ensures two { IfOk result (λ parcels. length parcels.items ≡ 2) }
    ensures first { IfOk result (λ parcels. (book : List (Graph × ℕ)) → slice_get book 0 ≡ Some (master.now, limit)
        → AreFirst Fits (λ parcel. parcel.fork.generation) book parcels.items) }
{
    let mut parcels = Vec::new(alloc);
    parcels.push(first_parcel(alloc, master, limit, 2)?)?;
    parcels.push(first_parcel(alloc, master, limit, 3)?)?;
    Ok(parcels)
}

// The limit of a generation in the book of a plan and a capture.
fn limit_of(plan: &Plan, capture: &Capture, book: &Book, generation: u32) -> u32
    requires book { book.now ≡ windows plan.now capture.now }
    requires within { generation < length book.now }
    ensures { (graph : Graph) → slice_get plan.now.graphs generation ≡ Some graph → slice_get book.now generation ≡ Some (graph, result) }
{
    book.limit(generation)
}

// Gives a parcel the next fork with its limit. The worker goes on at its mark, which is this one.
fn renew(rt: &impl Abort, parcel: &mut WorkerParcel, fork: Fork, limit: u32, mark: u64)
    ensures same { parcel.old.next ≡ mark }
    ensures new { parcel.new ≡ record { fork = fork; limit = limit; next = mark; stop = stops.No } }
{
    assert!(rt; parcel.next == mark);
    parcel.fork = fork;
    parcel.limit = limit;
    parcel.stop = Stop::No;
}

// The edits of a block that has one event.
fn edits_of(block: &Block) -> Option<&Edits>
    ensures { IfSome result (λ edits. map (λ event. event.edits) (events_of block.now) ≡ edits.now ∷ []) }
{
    match block {
        Block::At { edits, .. } => Some(edits),
        Block::Process { .. } => None,
    }
}

// The edits of a script's only event.
fn only_edits(script: &Script) -> Option<&Edits>
    ensures { IfSome result (λ edits. map (λ event. event.edits) (events script.now) ≡ edits.now ∷ []) }
{
    match script.blocks.as_slice() {
        [block] => edits_of(block),
        _ => None,
    }
}

// Makes the edits of the plan's only event.
fn make_event(
    rt: &impl Abort,
    alloc: Global,
    plan: &Plan,
    master: &mut Master,
) -> Result<(), ScriptError>
    requires { slice_get plan.now.graphs 0 ≡ Some master.old }
    ensures { OnOk result (slice_get plan.now.graphs 1 ≡ Some master.new) }
{
    events_are_made();
    let Some(edits) = only_edits(plan.script()) else {
        panic!(rt; "not one event")
    };
    master.apply(alloc, edits)
}

// The limits of the two generations, where the last of four packets is stamped before the change and comes after it.
fn assert_limits(rt: &impl Abort, early: u32, late: u32)
    ensures { (early ≡ 2) × (late ≡ 4) }
{
    assert!(rt; early == 2);
    assert!(rt; late == 4);
}

// The worker has come back from the first release, with a parcel of generation 1, and goes on at its mark.
fn assert_renewed(rt: &impl Abort, worker: Running<WorkerParcel>, mark: u64) {
    assert_eq!(rt; worker.stamp(), 1);
    let parcel = worker.into_parcel();
    assert_eq!(rt; parcel.fork.generation(), 1);
    assert_eq!(rt; parcel.limit, 4);
    assert_eq!(rt; parcel.next, mark);
    assert_eq!(rt; parcel.stop, Stop::No);
    assert_eq!(rt; parcel.fork.find(0x0b01_0203), Some(RouteTo::Drop));
    assert_eq!(rt;
        parcel.fork.find(0x0a01_0203),
        Some(RouteTo::Via(Members::one(0)))
    );
}

// The words of a barrier after one release.
fn assert_ended(rt: &impl Abort, words: Words) {
    assert_eq!(rt;
        words,
        Words {
            request: 2,
            arrivals: 0,
            generation: 1
        }
    );
}

// A barrier between main and two workers.
#[derive(Drop)]
struct Crew {
    barrier: Barrier<WorkerParcel>,
    main: MainSeat<WorkerParcel>,
    first: Running<WorkerParcel>,
    second: Running<WorkerParcel>,
}

// Main and the workers while main holds the barrier.
#[derive(Drop)]
struct Parked {
    held: Held<WorkerParcel>,
    first: ParkedSeat<WorkerParcel>,
    second: ParkedSeat<WorkerParcel>,
}

// Main and the workers once they run again.
#[derive(Drop)]
struct Freed {
    main: MainSeat<WorkerParcel>,
    first: Running<WorkerParcel>,
    second: Running<WorkerParcel>,
}

// A barrier for two parcels of generation 0.
fn crew_of(
    rt: &impl Abort,
    alloc: Global,
    book: Book,
    parcels: Vec<WorkerParcel>,
) -> Result<Crew, Memory>
    requires two { length parcels.items ≡ 2 }
    requires first { AreFirst Fits (λ parcel. parcel.fork.generation) book parcels.items }
    ensures seat { IfOk result (λ crew. IsSeatOf crew.main.seat crew.barrier) }
    ensures seats { IfOk result (λ crew. IsSeatOf crew.first.worker.seat crew.barrier × IsSeatOf crew.second.worker.seat crew.barrier) }
    ensures parcels { IfOk result (λ crew. MayGive crew.first × MayGive crew.second) }
    ensures book { IfOk result (λ crew. (main_view crew.main.seat).book ≡ book) }
    ensures main { IfOk result (λ crew. ((main_view crew.main.seat).made ≡ 2) × ((main_view crew.main.seat).released ≡ 0) × ((main_view crew.main.seat).stamp ≡ 0)) }
{
    let parts = Barrier::new(alloc, book, parcels)?;
    let mut workers = parts.workers;
    let Some(second) = workers.pop() else {
        panic!(rt; "no worker 1")
    };
    let Some(first) = workers.pop() else {
        panic!(rt; "no worker 0")
    };
    Ok(Crew {
        barrier: parts.barrier,
        main: parts.main,
        first,
        second,
    })
}

// Main asks both workers to park, and holds the barrier once they are.
fn park(
    rt: &impl Abort,
    barrier: &Barrier<WorkerParcel>,
    main: MainSeat<WorkerParcel>,
    first: Running<WorkerParcel>,
    second: Running<WorkerParcel>,
) -> Parked
    requires seat { IsSeatOf main.seat barrier.now × ((main_view main.seat).stamp ≡ 0) }
    requires seats { IsSeatOf first.worker.seat barrier.now × IsSeatOf second.worker.seat barrier.now }
    requires parcels { MayGive first × MayGive second }
    ensures seat { IsSeatOf result.held.main.seat barrier.now }
    ensures seats { IsSeatOf result.first.seat barrier.now × IsSeatOf result.second.seat barrier.now }
    ensures book { (main_view result.held.main.seat).book ≡ (main_view main.seat).book }
    ensures released { (main_view result.held.main.seat).released ≡ (main_view main.seat).released }
    ensures made { length result.held.parcels.items ≡ (main_view main.seat).made }
    ensures whole { Whole Fits (λ parcel. parcel.next) (λ parcel. parcel.fork.generation) (main_view result.held.main.seat) (main_view result.held.main.seat).released result.held.parcels.items }
{
    let asked = main.ask(barrier);
    let Check::Parked(first) = first.check(barrier) else {
        panic!(rt; "worker 0 runs")
    };
    let Parking::Wait { asked, seen } = asked.poll(barrier) else {
        panic!(rt; "main holds before worker 1 is parked")
    };
    assert_eq!(rt; seen, 1);
    let Check::Parked(first) = first.poll(barrier) else {
        panic!(rt; "worker 0 leaves before the release")
    };
    let Check::Parked(second) = second.check(barrier) else {
        panic!(rt; "worker 1 runs")
    };
    let Parking::All(held) = asked.poll(barrier) else {
        panic!(rt; "main doesn't hold")
    };
    Parked {
        held,
        first,
        second,
    }
}

// Main gives both parcels the next graph. Both workers have drawn their packets of generation 0.
fn renew_both(
    rt: &impl Abort,
    mut held: Held<WorkerParcel>,
    forks: (Fork, Fork),
    limit: u32,
) -> Held<WorkerParcel>
    requires two { length held.parcels.items ≡ 2 }
    requires none { (main_view held.main.seat).released ≡ 0 }
    requires whole { Whole Fits (λ parcel. parcel.next) (λ parcel. parcel.fork.generation) (main_view held.main.seat) (main_view held.main.seat).released held.parcels.items }
    requires drawn { IfSome (slice_get (main_view held.main.seat).book 0) (λ window. window.1 ≤ 2) }
    requires next { (forks.0.generation ≡ 1) × (forks.1.generation ≡ 1) }
    requires window { (slice_get (main_view held.main.seat).book 1 ≡ Some (forks.0.graph, limit)) × (slice_get (main_view held.main.seat).book 1 ≡ Some (forks.1.graph, limit)) }
    ensures seat { result.main.seat ≡ held.main.seat }
    ensures parcels { MayReturn Fits (λ parcel. parcel.next) (λ parcel. parcel.fork.generation) (main_view result.main.seat) result.parcels.items }
{
    renew(rt, held.parcel_mut(0), forks.0, limit, 2);
    renew(rt, held.parcel_mut(1), forks.1, limit, 3);
    held
}

// Both workers run again, and main is idle.
fn run_on(
    rt: &impl Abort,
    barrier: &Barrier<WorkerParcel>,
    clearing: Clearing<WorkerParcel>,
    first: ParkedSeat<WorkerParcel>,
    second: ParkedSeat<WorkerParcel>,
) -> Freed
    requires seat { IsSeatOf clearing.seat barrier.now }
    requires seats { IsSeatOf first.seat barrier.now × IsSeatOf second.seat barrier.now }
    ensures { IsSeatOf result.main.seat barrier.now }
{
    let Check::Run(first) = first.poll(barrier) else {
        panic!(rt; "worker 0 is parked")
    };
    let Cleared::Wait { clearing, seen } = clearing.poll(barrier) else {
        panic!(rt; "main is idle before worker 1 has left")
    };
    assert_eq!(rt; seen, 1);
    let Check::Run(second) = second.poll(barrier) else {
        panic!(rt; "worker 1 is parked")
    };
    let Cleared::Idle(main) = clearing.poll(barrier) else {
        panic!(rt; "main isn't idle")
    };
    Freed {
        main,
        first,
        second,
    }
}

// A barrier over the plan's book, with the limit of generation 1.
fn set_up(
    rt: &impl Abort,
    alloc: Global,
    plan: &Plan,
    capture: &Capture,
    master: &Master,
) -> Result<(Crew, u32), Fail>
    requires { slice_get plan.now.graphs 0 ≡ Some master.now }
    ensures seat { IfOk result (λ made. IsSeatOf made.0.main.seat made.0.barrier) }
    ensures seats { IfOk result (λ made. IsSeatOf made.0.first.worker.seat made.0.barrier × IsSeatOf made.0.second.worker.seat made.0.barrier) }
    ensures parcels { IfOk result (λ made. MayGive made.0.first × MayGive made.0.second) }
    ensures main { IfOk result (λ made. ((main_view made.0.main.seat).made ≡ 2) × ((main_view made.0.main.seat).released ≡ 0) × ((main_view made.0.main.seat).stamp ≡ 0)) }
    ensures drawn { IfOk result (λ made. IfSome (slice_get (main_view made.0.main.seat).book 0) (λ window. window.1 ≤ 2)) }
    ensures next { IfOk result (λ made. (graph : Graph) → slice_get plan.now.graphs 1 ≡ Some graph
        → slice_get (main_view made.0.main.seat).book 1 ≡ Some (graph, made.1)) }
{
    let book = plan.book(alloc, capture)?;
    assert!(rt; book.generations() == 2);
    let early = limit_of(plan, capture, &book, 0);
    let late = limit_of(plan, capture, &book, 1);
    assert_limits(rt, early, late);
    let parcels = first_parcels(alloc, master, early)?;
    let crew = crew_of(rt, alloc, book, parcels)?;
    Ok((crew, late))
}

// Main makes the event while it holds the barrier, and gives both parcels its graph.
fn give_next(
    rt: &impl Abort,
    alloc: Global,
    plan: &Plan,
    master: &mut Master,
    held: Held<WorkerParcel>,
    limit: u32,
) -> Result<Held<WorkerParcel>, Fail>
    requires graph { slice_get plan.now.graphs 0 ≡ Some master.old }
    requires two { length held.parcels.items ≡ 2 }
    requires none { (main_view held.main.seat).released ≡ 0 }
    requires whole { Whole Fits (λ parcel. parcel.next) (λ parcel. parcel.fork.generation) (main_view held.main.seat) (main_view held.main.seat).released held.parcels.items }
    requires drawn { IfSome (slice_get (main_view held.main.seat).book 0) (λ window. window.1 ≤ 2) }
    requires next { (graph : Graph) → slice_get plan.now.graphs 1 ≡ Some graph → slice_get (main_view held.main.seat).book 1 ≡ Some (graph, limit) }
    ensures seat { IfOk result (λ given. given.main.seat ≡ held.main.seat) }
    ensures parcels { IfOk result (λ given. MayReturn Fits (λ parcel. parcel.next) (λ parcel. parcel.fork.generation) (main_view given.main.seat) given.parcels.items) }
{
    make_event(rt, alloc, plan, master)?;
    let one = fork_of(alloc, master, 1)?;
    let other = fork_of(alloc, master, 1)?;
    Ok(renew_both(rt, held, (one, other), limit))
}

// The workers park, get their parcels renewed, and run on.
fn walk(
    rt: &impl Abort,
    alloc: Global,
    plan: &Plan,
    master: &mut Master,
    crew: Crew,
    limit: u32,
) -> Result<(), Fail>
    requires graph { slice_get plan.now.graphs 0 ≡ Some master.old }
    requires seat { IsSeatOf crew.main.seat crew.barrier }
    requires seats { IsSeatOf crew.first.worker.seat crew.barrier × IsSeatOf crew.second.worker.seat crew.barrier }
    requires parcels { MayGive crew.first × MayGive crew.second }
    requires main { ((main_view crew.main.seat).made ≡ 2) × ((main_view crew.main.seat).released ≡ 0) × ((main_view crew.main.seat).stamp ≡ 0) }
    requires drawn { IfSome (slice_get (main_view crew.main.seat).book 0) (λ window. window.1 ≤ 2) }
    requires next { (graph : Graph) → slice_get plan.now.graphs 1 ≡ Some graph → slice_get (main_view crew.main.seat).book 1 ≡ Some (graph, limit) }
{
    let Crew {
        barrier,
        main,
        first,
        second,
    } = crew;
    assert_eq!(rt; main.stamp(), 0);
    let parked = park(rt, &barrier, main, first, second);
    let held = give_next(rt, alloc, plan, master, parked.held, limit)?;
    let clearing = held.release(&barrier);
    let freed = run_on(rt, &barrier, clearing, parked.first, parked.second);
    assert_eq!(rt; freed.main.stamp(), 1);
    assert_renewed(rt, freed.first, 2);
    assert_renewed(rt, freed.second, 3);
    assert_ended(rt, barrier.end(freed.main));
    Ok(())
}

#[test]
fn two_workers_go_on_with_the_next_graph(rt: HostRuntime) -> Result<(), Fail> {
    let alloc = rt.alloc();
    let plan = east(alloc)?;
    let capture = capture_at(&rt, alloc, &[0, 999, 1000, 500])?;
    let mut master = Master::new(alloc, &plan)?;
    let (crew, limit) = set_up(&rt, alloc, &plan, &capture, &master)?;
    walk(&rt, alloc, &plan, &mut master, crew, limit)
}
