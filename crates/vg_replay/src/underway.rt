//! Packets that are being taken through, generation by generation.
ghost use Rattle.std.specs.Prelude.{◌≡◌, ◌↔◌, ◌+◌, ◌<◌, ◌≤◌, Some, None, length, drop, map, slice_get, IsTrue, IfOk, OnOk};
ghost use Rattle.std.specs.List.{AllByRecursion};
ghost use Rattle.vg_model.specs.Visit.{Visit};
ghost use Rattle.vg_model.specs.Journey.{Course, goes_together as goes_together_with, end_of};
ghost use Rattle.vg_model.specs.Valid.{AreBytes};
ghost use Rattle.vg_plan.specs.Plan.{windows, IsGeneration};
ghost use Rattle.vg_replay.specs.Counts.{CanCount};
ghost use Rattle.vg_replay.specs.Courses.{in_hand};
ghost use Rattle.vg_replay.specs.Legs.{outcome_of};
ghost use Rattle.vg_replay.specs.Replays.{task_of, IsInput};
ghost use Rattle.vg_replay.specs.Trips.{IsKeptOf};
ghost use Rattle.vg_replay.specs.Walks.{IsHere, MayWalk, MayGo};

use crate::counting::count;
use crate::inputs::Input;
use crate::legs::Outcome;
use crate::schedules::Schedule;
use crate::times::starts_at;
use crate::trips::{Trip, Trips};
use crate::walkers::Walker;
use std::alloc::{AllocError, Global};
use vg_capture::know_few;
use vg_counters::Counters;
use vg_fork::Fork;
use vg_model::limits::{MOST_INTERFACES, MOST_NODES};
use vg_model::lists::know_bytes;
use vg_model::{Leg, Memory};
use vg_nodes::KindSet;
use vg_plan::{Book, Plan};

/// Packets that are being taken through: how far each has come, when its next leg is due, and what is counted of those that are
/// through. The packets before `stuck` are on their way; where there is a packet with that number, it has no journey.
#[derive(Drop)]
pub(crate) struct Underway {
    pub trips: Trips,
    pub schedule: Schedule,
    pub counts: Counters,
    pub walker: Walker,
    pub stuck: u32,
}

// Whether a count of a refusing queue and the end of the last leg go together.
fn goes_together(accepted: Option<u64>, outcome: Outcome) -> bool
    ensures { result ≡ goes_together_with accepted (outcome_of outcome) }
{
    match outcome {
        Outcome::Handed { .. } => accepted.is_some(),
        Outcome::Sent { .. } | Outcome::Dropped { .. } => accepted.is_none(),
    }
}

// The graphs of all generations are valid and keep the limits.
fn know_graphs(plan: &Plan)
    ensures { AllByRecursion IsGeneration plan.now.graphs }
{
    let _generations = plan.generations();
}

// Takes a packet through its next leg, the first one under a generation. Whether it has one.
fn take_leg<K: KindSet>(
    walker: &mut Walker,
    kinds: &K,
    fork: &Fork,
    input: &Input<'_>,
    number: u32,
    trip: &Trip<'_>,
) -> Result<bool, AllocError>
    requires input { IsInput input.now }
    requires number { number < length input.now.capture.now.packets }
    requires graph { slice_get input.now.plan.now.graphs fork.now.generation ≡ Some fork.now.graph }
    requires few { length trip.now.legs < 4 }
    requires here { IsHere (task_of K.meaning input.now) input.now.traced fork.now.generation number trip.now }
    ensures { IfOk result (MayWalk (task_of K.meaning input.now) number trip.now (in_hand walker.new)) }
{
    know_graphs(input.plan);
    if trip.legs().is_empty() {
        let bytes = input.capture.packets.bytes(number as usize);
        return walker.begin(kinds, fork, input.workers, number, bytes);
    }
    walker.take_up(trip)?;
    walker.step(kinds, fork, input.workers)
}

// Takes a packet on, as far as its choice goes under a generation, and tells whether the nodes that it visited are to be kept. `None`
// where its choice fits no journey.
fn go_on<K: KindSet>(
    walker: &mut Walker,
    kinds: &K,
    fork: &Fork,
    input: &Input<'_>,
    number: u32,
    trip: &Trip<'_>,
) -> Result<Option<bool>, AllocError>
    requires input { IsInput input.now }
    requires number { number < length input.now.capture.now.packets }
    requires graph { slice_get input.now.plan.now.graphs fork.now.generation ≡ Some fork.now.graph }
    requires here { IsHere (task_of K.meaning input.now) input.now.traced fork.now.generation number trip.now }
    ensures { IfOk result (MayGo (task_of K.meaning input.now) input.now.traced fork.now.generation number trip.now (in_hand walker.new)) }
{
    know_graphs(input.plan);
    know_bytes(input.capture.packets.bytes(number as usize));
    let line = input.lines.get(number as usize);
    let legs = line.legs.as_slice();
    if !take_leg(walker, kinds, fork, input, number, trip)? {
        return Ok(None);
    }
    'legs: for k in trip.legs().len() + 1..legs.len() {
        if legs[k].generation != fork.generation() {
            return Ok(Some(true));
        }
        if !walker.step(kinds, fork, input.workers)? {
            return Ok(None);
        }
    }
    if !goes_together(line.congested, walker.outcome) {
        return Ok(None);
    }
    Ok(Some((number as usize) < input.traced))
}

// Whether the next leg of a packet is of this generation.
fn is_due(legs: &[Leg], trip: &Trip<'_>, generation: u32) -> bool
    ensures { IsTrue result ↔ (slice_get (map (λ leg. leg.generation) legs.now) (length trip.now.legs) ≡ Some generation) }
{
    match legs.get(trip.legs().len()) {
        Some(leg) => leg.generation == generation,
        None => false,
    }
}

impl Underway {
    ghost use Rattle.vg_replay.specs.Underway.{IsNew, IsScheduled, IsDue, AreUnderway, Keeps};

    // No packet, for so many generations.
    pub(crate) fn new(alloc: Global, generations: u32) -> Result<Underway, Memory>
        ensures { IfOk result (IsNew generations) }
    {
        let schedule = Schedule::new(alloc, generations)?;
        Ok(Underway {
            trips: Trips::new(alloc),
            schedule,
            counts: Counters::new(alloc, MOST_NODES as u16, MOST_INTERFACES as u16)?,
            walker: Walker::new(alloc)?,
            stuck: 0,
        })
    }

    // Puts the packets into the schedule, up to the first whose generations don't begin with that of its time, fall, or aren't there.
    pub(crate) fn begin(&mut self, input: &Input<'_>, book: &Book) -> Result<(), AllocError>
        requires input { IsInput input.now }
        requires book { book.now ≡ windows input.now.plan.now input.now.capture.now }
        requires new { IsNew (length input.now.plan.now.graphs) self.old }
        ensures { (visit : Visit) → OnOk result (AreUnderway (task_of visit input.now) input.now.traced (IsScheduled 0 self.new.schedule) self.new) }
    {
        'packets: for number in 0..input.capture.count() {
            let line = input.lines.get(number as usize);
            let legs = line.legs.as_slice();
            if !starts_at(input, book, number, legs) {
                return Ok(());
            }
            know_bytes(input.capture.packets.bytes(number as usize));
            self.schedule.put(legs[0].generation, number)?;
            self.trips.begin(number)?;
            self.stuck = number + 1;
        }
        Ok(())
    }

    // Keeps how far the packet that was walked has come, with the nodes that it visited or without: it waits for the generation of its
    // next leg, or is counted.
    fn keep(&mut self, number: u32, with_visits: bool, legs: &[Leg]) -> Result<(), AllocError>
        requires number { number < length self.old.trips }
        requires generations { AllByRecursion (λ leg. leg.generation < length self.old.schedule) legs.now }
        requires count { slice_get (map (λ leg. leg.generation) legs.now) (length self.old.walker.legs) ≡ None
            → CanCount self.old.walker.visits.items (end_of (outcome_of self.old.walker.outcome)) self.old.counts }
        ensures { OnOk result ((trip : Course) × IsKeptOf with_visits number (in_hand self.old.walker) trip
            × Keeps (slice_get (map (λ leg. leg.generation) legs.now) (length trip.legs)) number trip self.old self.new) }
    {
        self.trips.keep(number, &self.walker, with_visits)?;
        match legs.get(self.walker.legs.as_slice().len()) {
            Some(leg) => self.schedule.put(leg.generation, number),
            None => {
                count(
                    &mut self.counts,
                    self.walker.visits.as_slice(),
                    self.walker.outcome,
                );
                Ok(())
            }
        }
    }

    // Takes the packet on whose number stands at a place of these.
    fn take_on<K: KindSet>(
        &mut self,
        input: &Input<'_>,
        kinds: &K,
        fork: &Fork,
        numbers: &[u32],
        place: usize,
    ) -> Result<(), AllocError>
        requires input { IsInput input.now }
        requires graph { slice_get input.now.plan.now.graphs fork.now.generation ≡ Some fork.now.graph }
        requires place { place < length numbers.now }
        requires underway { AreUnderway (task_of K.meaning input.now) input.now.traced (IsDue fork.now.generation (drop place numbers.now) self.old.schedule) self.old }
        ensures { OnOk result (AreUnderway (task_of K.meaning input.now) input.now.traced (IsDue fork.now.generation (drop (place + 1) numbers.now) self.new.schedule) self.new) }
    {
        let number = numbers[place];
        if number >= self.stuck {
            return Ok(());
        }
        let line = input.lines.get(number as usize);
        let legs = line.legs.as_slice();
        let trip = self.trips.get(number as usize);
        if !is_due(legs, &trip, fork.generation()) {
            return Ok(());
        }
        know_graphs(input.plan);
        know_few(input.capture);
        match go_on(&mut self.walker, kinds, fork, input, number, &trip)? {
            Some(with_visits) => self.keep(number, with_visits, legs),
            None => {
                self.stuck = number;
                Ok(())
            }
        }
    }

    // Takes packets on that are due in a generation.
    pub(crate) fn take_all<K: KindSet>(
        &mut self,
        input: &Input<'_>,
        kinds: &K,
        fork: &Fork,
        numbers: &[u32],
    ) -> Result<(), AllocError>
        requires input { IsInput input.now }
        requires graph { slice_get input.now.plan.now.graphs fork.now.generation ≡ Some fork.now.graph }
        requires underway { AreUnderway (task_of K.meaning input.now) input.now.traced (IsDue fork.now.generation numbers.now self.old.schedule) self.old }
        ensures { OnOk result (AreUnderway (task_of K.meaning input.now) input.now.traced (IsScheduled (fork.now.generation + 1) self.new.schedule) self.new) }
    {
        'numbers: for place in 0..numbers.len() {
            self.take_on(input, kinds, fork, numbers, place)?;
        }
        Ok(())
    }
}
