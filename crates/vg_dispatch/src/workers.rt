//! Workers.
ghost use Rattle.std.specs.Prelude.{ℕ, suc, slice_get, unwrap_or, ◌≡◌, ◌≢◌, ◌+◌, ◌<◌, ◌≤◌, ◌↔◌, [], None, Some, length, map, vec_capacity, IfOk, IfErr};
ghost use Rattle.std.specs.Bool.{IsTrue};
ghost use Rattle.std.specs.List.{AllByRecursion};
ghost use Rattle.vg_ring.specs.Ends.{taken, put, rx_ring, tx_ring};
ghost use Rattle.vg_barrier.specs.Seats.{worker_view};
ghost use Rattle.vg_barrier.specs.Answers.{MayGive};
ghost use Rattle.vg_journeys.specs.Accounts.{frames_with};
ghost use Rattle.vg_plan.specs.Plan.{windows, limit_of};
ghost use Rattle.vg_dispatch.specs.Progress.{AreInRange};
ghost use Rattle.vg_underway.specs.Peers.{by_worker};
ghost use Rattle.vg_underway.specs.Queues.{Queue};
ghost use Rattle.vg_dispatch.specs.Workers.{IsIdle, running_seat};
ghost use Rattle.vg_dispatch.specs.Standing.{run_of, IsWorkerOf, IsAtWork, IsSameWorker, barrier_of, barrier_id};
ghost use Rattle.vg_dispatch.specs.Turned.{Turns};
ghost use Rattle.vg_dispatch.specs.Rounds.{RoundsAt, IsRoundOf};
ghost use Rattle.vg_dispatch.specs.declared.parcels.Stop.TheVariants as stops;

use crate::gating::{may_draw, may_go, refill_for, tick_all, where_goes};
use crate::inputs::Input;
use crate::links::{Refused, WorkerLinks};
use crate::options::Options;
use crate::parcels::{Stop, WorkerParcel};
use crate::seats::looked;
use crate::turns::Turn;
use std::alloc::Global;
use std::marker::Model;
use std::sync::Wait;
use std::sync::ledger::Ledger;
use vg_barrier::{Barrier, Check, Running};
use vg_counters::{Counters, Trace};
use vg_fates::FateList;
use vg_fork::Fork;
use vg_frame::Frame;
use vg_hands::{HandFrame, Handoff};
use vg_model::Leg;
use vg_nodes::{KindSet, Sorted};
use vg_outside::Gate;
use vg_pool::{Cache, LockedPool, PoolLedger};
use vg_ring::{RingRx, RingTx};
use vg_underway::{
    Bounds, Counting, Incoming, Rooms, SentList, Station, Work, counting_of, own_of, place_of,
    queues_of, total_bytes,
};

// Where a worker's count of turns stands still.
const MOST_TURNS: u64 = 1 << 62;

/// A worker: it draws every packet whose number is its own by the count of workers, takes packets that others hand over, and
/// dispatches them through the graph of its parcel.
///
/// All its memory is taken by [`Worker::new`]. Between two turns no packet is on its way in it.
#[derive(Drop)]
pub struct Worker<K: KindSet, H: Handoff<HandFrame>, T: PoolLedger, L: Ledger> {
    number: u8,
    options: Options,
    kinds: K,
    // How many packets the capture has, and how many bytes they and the rooms that they are received with have together.
    packets: u32,
    bytes: usize,
    // The next packet that it draws; how many of its own packets there are from there on, and how many bytes they and their rooms
    // have together.
    mark: u64,
    own: u32,
    left: usize,
    // How many packets it has ever taken in frames.
    taken: u32,
    work: Work,
    // Empty but for the dispatch of a frame.
    sorted: Sorted,
    groups: Vec<Frame>,
    inputs: Vec<Incoming>,
    outputs: Vec<Counting<H>>,
    cache: Cache<T, L>,
    // `None` only within a turn.
    seat: Option<Check<WorkerParcel>>,
    turns: u64,
    stop: Stop,
    // None here, and with room for the ends of its queues.
    rx_room: Vec<RingRx<HandFrame>>,
    tx_room: Vec<RingTx<HandFrame>>,
}

/// What a worker has kept at the end.
#[derive(Drop)]
pub struct WorkerEnd<T: Ledger, L: Ledger> {
    /// What became of packets, in the order in which they ended.
    pub log: FateList,
    /// The packets that were transmitted, in the order in which they were.
    pub sent: SentList,
    /// Counts by node, error and interface.
    pub counters: Counters,
    /// The nodes that the traced packets visited.
    pub trace: Trace,
    pub cache: Cache<T, L>,
    /// Its ends of the queues from and to the other workers, by rising number.
    pub inputs: Vec<RingRx<HandFrame>>,
    pub outputs: Vec<RingTx<HandFrame>>,
}

impl<K: KindSet, H: Handoff<HandFrame>, T: PoolLedger, L: Ledger> Model for Worker<K, H, T, L> {
    ghost use Rattle.std.specs.Prelude.{◌≡◌, ◌≤◌, [], length, map, vec_capacity};
    ghost use Rattle.vg_underway.specs.SentEntries.{sent_by};
    ghost use Rattle.vg_dispatch.specs.Keeping.{IsKeeping};
    ghost use Rattle.vg_underway.specs.Peers.{by_worker};
    ghost use Rattle.vg_underway.specs.Outlets.{outlet_of, no_outlet, most_in_round};
    ghost use Rattle.vg_dispatch.specs.Workers.{WorkerBook, seat_in};

    ghost Value = { WorkerBook };

    ghost view = { λ w. record {
      number = w.number;
      options = w.options;
      packets = w.packets;
      bytes = w.bytes;
      mark = w.mark;
      own = w.own;
      left = w.left;
      taken = by_worker w.number [] (map (λ i. i.taken) w.inputs.items);
      put = by_worker w.number [] (map (λ o. H.accepted o.handoff) w.outputs.items);
      log = w.work.fates.items;
      sent = sent_by w.work.entries.items w.work.bytes.items;
      counts = w.work.counts;
      trace = w.work.trace;
      cache = w.cache;
      waits = map (λ i. i.waits) w.inputs.items;
      inputs = map (λ i. i.ring) w.inputs.items;
      outputs = map (λ o. H.ring o.handoff) w.outputs.items;
      rooms = map (λ o. H.free_room o.handoff) w.outputs.items;
      held = map (λ o. H.waiting o.handoff) w.outputs.items;
      outlets = by_worker w.number no_outlet (map (λ o. outlet_of H.end H.refusals H.waiting H.free_room H.closes (most_in_round w.options.workers) o.handoff) w.outputs.items);
      looks = by_worker w.number [] (map (λ i. i.trail) w.inputs.items);
      seat = seat_in w.seat;
      turns = w.turns;
      stop = w.stop;
    } };

    ghost invariant = { λ w. IsKeeping w.number w.options w.packets w.bytes w.mark w.own w.left w.taken w.work w.sorted w.groups.items w.inputs.items
        (map (λ o. H.accepted o.handoff) w.outputs.items) (map (λ o. H.slots o.handoff) w.outputs.items) w.cache
        × (w.rx_room.items ≡ []) × (length w.inputs.items ≤ vec_capacity w.rx_room)
        × (w.tx_room.items ≡ []) × (length w.outputs.items ≤ vec_capacity w.tx_room) };
}

impl<K: KindSet, H: Handoff<HandFrame>, T: PoolLedger, L: Ledger> Worker<K, H, T, L> {
    /// A worker with this number, which has drawn nothing yet, at this seat, with these links and this cache.
    ///
    /// It has room for the fates of all the packets of the capture and for their bytes and rooms, and for the packets that may be on their
    /// way in a round.
    ///
    /// # Errors
    ///
    /// [`Refused`], with the links and the cache as they were, where memory runs out.
    pub fn new(
        alloc: Global,
        number: u8,
        input: &Input<'_>,
        kinds: &K,
        links: WorkerLinks<H>,
        cache: Cache<T, L>,
        seat: Running<WorkerParcel>,
    ) -> Result<Worker<K, H, T, L>, Refused<H, T, L>>
        requires options { AreInRange input.now.options.now }
        requires number { number < input.now.options.now.workers }
        requires inputs { (length links.inputs.items + 1 ≡ input.now.options.now.workers) × AllByRecursion (λ rx. taken rx ≡ []) links.inputs.items }
        requires outputs { (length links.outputs.items + 1 ≡ input.now.options.now.workers)
            × AllByRecursion (λ tx. (H.accepted tx ≡ []) × (H.slots tx ≡ input.now.options.now.queue)) links.outputs.items }
        requires cache { (cache.len ≡ 0) × (cache.allocated ≡ 0) × (cache.freed ≡ 0) }
        requires seat { MayGive seat × ((worker_view seat.worker.seat).number ≡ number) × (seat.parcel.next ≡ number)
            × ((worker_view seat.worker.seat).book ≡ windows input.now.plan.now input.now.capture.now) }
        ensures worker { IfOk result (IsWorkerOf K.meaning H.LOSSLESS input.now.plan.now input.now.capture.now input.now.options.now) }
        ensures idle { IfOk result IsIdle }
        ensures seat { IfOk result (λ w. w.seat ≡ Some (running_seat seat)) }
        ensures number { IfOk result (λ w. w.number ≡ number) }
        ensures rings { IfOk result (λ w. (w.inputs ≡ map rx_ring links.inputs.items) × (w.outputs ≡ map H.ring links.outputs.items)) }
        ensures cache { IfOk result (λ w. w.cache ≡ cache) }
        ensures goes_on { IfOk result (λ w. w.stop ≡ stops.No) }
        ensures refused { IfErr result (λ refused. (refused.links ≡ links) × (refused.cache ≡ cache)) }
    {
        let packets = &input.capture.packets;
        let count = packets.len();
        let workers = input.options.workers;
        let traced = input.options.trace.min(count as u32);
        let Some(bytes) = total_bytes(packets) else {
            return Err(Refused { links, cache });
        };
        let Ok(rooms) = Rooms::new(alloc, workers as usize, count, bytes, traced) else {
            return Err(Refused { links, cache });
        };
        let own = own_of(packets, workers, number);
        let _plan = input.plan.generations();
        let WorkerLinks { inputs, outputs } = links;
        let Rooms {
            work,
            sorted,
            groups,
            inputs: input_room,
            outputs: output_room,
            rx_room,
            tx_room,
        } = rooms;
        Ok(Worker {
            number,
            options: *input.options,
            kinds: *kinds,
            packets: count as u32,
            bytes,
            mark: u64::from(number),
            own: own.count,
            left: own.bytes,
            taken: 0,
            work,
            sorted,
            groups,
            inputs: queues_of(inputs, input_room),
            outputs: counting_of(outputs, output_room),
            cache,
            seat: Some(Check::Run(seat)),
            turns: 0,
            stop: Stop::No,
            rx_room,
            tx_room,
        })
    }

    /// One turn. It takes no memory.
    ///
    /// A worker that has stopped does nothing. Any other enters the gate, and then checks its seat once, or polls it where it is
    /// parked. Where its parcel says stop, it has stopped. Where it runs, it makes a round: it lets its handoffs go on, takes a
    /// frame of each other worker, draws its next packets below its parcel's limit, dispatches until nothing is pending, and hands
    /// packets over in one frame for each handoff node and each worker.
    pub fn turn<R: Wait, G: Gate>(
        &mut self,
        rt: &R,
        input: &Input<'_>,
        barrier: &Barrier<WorkerParcel>,
        pool: &LockedPool<T, L>,
        gate: &G,
    ) -> Turn
        requires worker { IsWorkerOf K.meaning H.LOSSLESS input.now.plan.now input.now.capture.now input.now.options.now self.old }
        requires seat { barrier_of self.old.seat ≡ Some (barrier_id barrier.now) }
        ensures worker { IsWorkerOf K.meaning H.LOSSLESS input.now.plan.now input.now.capture.now input.now.options.now self.new }
        ensures same { IsSameWorker self.old self.new }
        ensures seat { barrier_of self.new.seat ≡ barrier_of self.old.seat }
        ensures turn { Turns self.old.stop (run_of K.meaning input.now.plan.now input.now.capture.now input.now.options.now) H.LOSSLESS result self.old self.new }
    {
        if self.stop != Stop::No {
            return Turn::Stopped;
        }
        gate.enter(self.number, self.turns);
        self.turns = self.turns.saturating_add(1).min(MOST_TURNS);
        let Some(seat) = self.seat.take() else {
            unreachable!()
        };
        match looked(seat, barrier) {
            Check::Parked(parked) => {
                self.seat = Some(Check::Parked(parked));
                Turn::Parked
            }
            Check::Run(running) => {
                let Running { worker, mut parcel } = running;
                if parcel.stop != Stop::No {
                    self.stop = parcel.stop;
                    self.seat = Some(Check::Run(Running { worker, parcel }));
                    return Turn::Stopped;
                }
                self.round(rt, input, pool, &parcel.fork, Some(parcel.limit));
                parcel.next = self.mark;
                self.seat = Some(Check::Run(Running { worker, parcel }));
                Turn::Ran
            }
        }
    }

    /// A round without a look at the seat, which draws nothing and takes no buffers of the pool: it takes the frames that others put
    /// before they stopped. It takes no memory.
    pub fn finish<R: Wait>(&mut self, rt: &R, input: &Input<'_>, pool: &LockedPool<T, L>)
        requires worker { IsWorkerOf K.meaning H.LOSSLESS input.now.plan.now input.now.capture.now input.now.options.now self.old }
        requires stopped { self.old.stop ≢ stops.No }
        ensures worker { IsWorkerOf K.meaning H.LOSSLESS input.now.plan.now input.now.capture.now input.now.options.now self.new }
        ensures same { IsSameWorker self.old self.new }
        ensures seat { self.new.seat ≡ self.old.seat }
        ensures stop { self.new.stop ≡ self.old.stop }
        ensures mark { self.new.mark ≡ self.old.mark }
        ensures turns { self.new.turns ≡ self.old.turns }
        ensures buffers { self.new.cache.taken ≡ self.old.cache.taken }
        ensures round { RoundsAt (run_of K.meaning input.now.plan.now input.now.capture.now input.now.options.now) H.LOSSLESS self.old.seat 0 self.old self.new }
    {
        let Some(Check::Run(running)) = self.seat.take() else {
            unreachable!()
        };
        self.round(rt, input, pool, &running.parcel.fork, None);
        self.seat = Some(Check::Run(running));
    }

    // A round under this fork: it draws packets below this limit, for which it may refill its cache; with no limit it draws none.
    fn round<R: Wait>(
        &mut self,
        rt: &R,
        input: &Input<'_>,
        pool: &LockedPool<T, L>,
        fork: &Fork,
        limit: Option<u32>,
    )
        requires work { IsAtWork K.meaning H.LOSSLESS input.now.plan.now input.now.capture.now input.now.options.now self.old }
        requires graph { slice_get input.now.plan.now.graphs fork.now.generation ≡ Some fork.now.graph }
        requires limit { (unwrap_or limit 0 ≤ limit_of input.now.plan.now.script input.now.capture.now fork.now.generation) × (unwrap_or limit 0 ≤ length input.now.capture.now.packets) }
        requires now { (earlier : ℕ) → suc earlier ≡ fork.now.generation → limit_of input.now.plan.now.script input.now.capture.now earlier ≤ self.old.mark }
        ensures work { IsAtWork K.meaning H.LOSSLESS input.now.plan.now input.now.capture.now input.now.options.now self.new }
        ensures same { IsSameWorker self.old self.new }
        ensures rest { (self.new.seat ≡ self.old.seat) × (self.new.turns ≡ self.old.turns) × (self.new.stop ≡ self.old.stop) }
        ensures buffers { limit ≡ None → self.new.cache.taken ≡ self.old.cache.taken }
        ensures round { IsRoundOf (run_of K.meaning input.now.plan.now input.now.capture.now input.now.options.now) H.LOSSLESS fork.now.graph fork.now.generation (unwrap_or limit 0) self.old self.new }
    {
        let station = Station {
            workers: self.options.workers,
            worker: self.number,
            slots: self.options.queue,
        };
        let leg = Leg {
            worker: self.number,
            generation: fork.generation(),
        };
        let room = 256 * self.options.workers as usize;
        tick_all(self.outputs.as_mut_slice());
        let goes = may_go(self.outputs.as_slice(), room, self.cache.len());
        let tried = where_goes(goes, self.inputs.len() as u32);
        let bounds = Bounds {
            packets: self.packets,
            bytes: self.bytes,
            own: self.own,
            left: self.left,
            taken: self.taken,
        };
        let came = self.work.take_frames::<K>(
            fork,
            station,
            leg,
            self.inputs.as_mut_slice(),
            tried as usize,
            bounds,
        );
        refill_for(rt, pool, &mut self.cache, limit.is_some());
        let draws = may_draw(goes, self.outputs.as_slice(), room);
        let most = where_goes(draws, self.options.burst);
        let drew = self.work.draw_own::<K, T, L>(
            fork,
            station,
            leg,
            self.mark,
            limit.unwrap_or(0),
            most,
            &input.capture.packets,
            &mut self.cache,
        );
        self.mark = drew.mark;
        self.own -= drew.count;
        self.left -= drew.bytes;
        self.taken += came.count;
        self.work.dispatch_all::<K, Counting<H>, T, L>(
            &self.kinds,
            fork,
            station,
            &mut self.sorted,
            self.groups.as_mut_slice(),
            self.outputs.as_mut_slice(),
            &mut self.cache,
        );
        pool.relieve(rt, &mut self.cache);
    }

    /// How many frames its handoff to that worker has accepted.
    pub fn accepted(&self, to: u8) -> u64
        requires { (to ≢ self.now.number) × (to < self.now.options.workers) }
        ensures { result ≡ length (frames_with to self.now.put) }
    {
        self.outputs[place_of(self.number, to)].accepted
    }

    /// How many frames of that worker it has taken.
    pub fn dispatched(&self, from: u8) -> u64
        requires { (from ≢ self.now.number) × (from < self.now.options.workers) }
        ensures { result ≡ length (frames_with from self.now.taken) }
    {
        self.inputs[place_of(self.number, from)].count()
    }

    /// Whether no frame waits in it, and its handoffs hold none back.
    pub fn idle(&self) -> bool
        ensures { IsTrue result ↔ IsIdle self.now }
    {
        for incoming in &self.inputs {
            if !incoming.is_idle() {
                return false;
            }
        }
        for output in &self.outputs {
            if output.held() != 0 {
                return false;
            }
        }
        true
    }

    /// Whether it has stopped, and why: [`Stop::No`] while it goes on.
    pub fn stop(&self) -> Stop
        ensures { result ≡ self.now.stop }
    {
        self.stop
    }

    /// The number of the next packet that it draws.
    pub fn mark(&self) -> u64
        ensures { result ≡ self.now.mark }
    {
        self.mark
    }

    /// What it has kept, and the ends of its queues.
    pub fn end(self) -> WorkerEnd<T, L>
        requires { IsIdle self }
        ensures log { result.log ≡ self.log }
        ensures sent { result.sent ≡ self.sent }
        ensures counts { result.counters ≡ self.counts }
        ensures trace { result.trace ≡ self.trace }
        ensures cache { result.cache ≡ self.cache }
        ensures inputs { map rx_ring result.inputs.items ≡ self.inputs }
        ensures taken { by_worker self.number [] (map taken result.inputs.items) ≡ self.taken }
        ensures outputs { map tx_ring result.outputs.items ≡ self.outputs }
        ensures put { by_worker self.number [] (map put result.outputs.items) ≡ self.put }
    {
        let Worker {
            number: _,
            options: _,
            kinds: _,
            packets: _,
            bytes: _,
            mark: _,
            own: _,
            left: _,
            taken: _,
            work,
            sorted: _,
            groups: _,
            inputs,
            outputs,
            cache,
            seat: _,
            turns: _,
            stop: _,
            rx_room,
            tx_room,
        } = self;
        let Work {
            memory: _,
            pending: _,
            fates,
            entries,
            bytes,
            counts,
            trace,
        } = work;
        WorkerEnd {
            log: fates.into_list(),
            sent: SentList::new(entries, bytes),
            counters: counts,
            trace,
            cache,
            inputs: into_inputs(inputs, rx_room),
            outputs: into_outputs(outputs, tx_room),
        }
    }
}

// The rings of queues from which no frame waits, in a list that has room for them.
fn into_inputs(inputs: Vec<Incoming>, mut room: Vec<RingRx<HandFrame>>) -> Vec<RingRx<HandFrame>>
    requires idle { AllByRecursion (λ (queue : Queue). queue.waits ≡ None) inputs.items }
    requires room { (room.items ≡ []) × (length inputs.items ≤ vec_capacity room) }
    ensures rings { map rx_ring result.items ≡ map (λ (queue : Queue). queue.ring) inputs.items }
    ensures taken { map taken result.items ≡ map (λ (queue : Queue). queue.taken) inputs.items }
{
    for incoming in inputs {
        room.push_reserved(incoming.into_ring());
    }
    room
}

// The rings of handoffs that hold nothing back, in a list that has room for them.
fn into_outputs<H: Handoff<HandFrame>>(
    outputs: Vec<Counting<H>>,
    mut room: Vec<RingTx<HandFrame>>,
) -> Vec<RingTx<HandFrame>>
    requires held { AllByRecursion (λ output. H.waiting output.handoff ≡ 0) outputs.items }
    requires room { (room.items ≡ []) × (length outputs.items ≤ vec_capacity room) }
    ensures rings { map tx_ring result.items ≡ map (λ output. H.ring output.handoff) outputs.items }
    ensures put { map put result.items ≡ map (λ output. H.accepted output.handoff) outputs.items }
{
    for output in outputs {
        room.push_reserved(output.into_ring());
    }
    room
}
