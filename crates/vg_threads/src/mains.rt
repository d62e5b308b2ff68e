//! Main's steps.
ghost use Rattle.vg_barrier.specs.Seats.{main_view};
ghost use Rattle.vg_threads.specs.Leads.{IsMain, IsLead};

use crate::decisions::Lead;
use std::alloc::Global;
use std::sync::Wait;
use vg_barrier::{Asked, Barrier, Cleared, Clearing, MainSeat, Parking};
use vg_dispatch::{Input, Stop, WorkerParcel};

/// The most that main asks the workers to park.
const MOST_ASKED: u64 = 1 << 62;

/// What main does.
#[derive(Drop)]
pub enum Phase {
    /// All workers run.
    Idle(MainSeat<WorkerParcel>),
    /// It has asked the workers to park.
    Asked(Asked<WorkerParcel>),
    /// It has released the workers.
    Clearing(Clearing<WorkerParcel>),
}

/// What main does, without what it has for it.
#[derive(Clone, Copy, PartialEq, Eq)]
pub(crate) enum Stage {
    /// All workers run.
    Idle,
    /// It has asked the workers to park.
    Asked,
    /// It has released the workers.
    Clearing,
}

/// How often main looks how far the workers are, at most, for each packet that they had to pass.
const LOOKS: u64 = 64;

/// How far the workers had to go when main last gave them their parcels.
#[derive(Clone, Copy)]
pub struct Way {
    /// The limit below which they draw packets.
    pub limit: u64,
    /// How many numbers below this limit the worker that was farthest behind had still to pass.
    pub left: u64,
}

impl Way {
    /// How often main looks how far the workers are before it asks them to park though they are not through: the farther they had to
    /// go, the longer it waits.
    pub(crate) fn pause(self) -> u64 {
        self.left.saturating_add(1).saturating_mul(LOOKS)
    }
}

// How far the workers with these parcels have to go.
fn way_of(parcels: &Vec<WorkerParcel>) -> Way {
    let mut way = Way { limit: 0, left: 0 };
    for parcel in parcels {
        let limit = u64::from(parcel.limit);
        way.limit = way.limit.max(limit);
        way.left = way.left.max(limit.saturating_sub(parcel.next));
    }
    way
}

/// Main, between its steps.
#[derive(Drop)]
pub struct Main {
    pub phase: Phase,
    pub lead: Lead,
    pub way: Way,
}

impl Main {
    /// One step: where main is idle it asks the workers to park; once all are it decides what they do next, and releases them; and
    /// once all have left it is idle again. Where they were told to stop an idle main does nothing.
    pub fn step(self, alloc: Global, input: &Input, barrier: &Barrier<WorkerParcel>) -> Main
        requires { IsMain input.now.plan.now input.now.capture.now barrier.now self }
        ensures { IsMain input.now.plan.now input.now.capture.now barrier.now result }
    {
        let Main {
            phase,
            mut lead,
            mut way,
        } = self;
        let phase = match phase {
            Phase::Idle(seat) => {
                if lead.told != Stop::No || seat.stamp() >= MOST_ASKED {
                    Phase::Idle(seat)
                } else {
                    Phase::Asked(seat.ask(barrier))
                }
            }
            Phase::Asked(asked) => match asked.poll(barrier) {
                Parking::Wait { asked, seen: _ } => Phase::Asked(asked),
                Parking::All(held) => {
                    let held = lead.decide(alloc, input, held);
                    way = way_of(&held.parcels);
                    Phase::Clearing(held.release(barrier))
                }
            },
            Phase::Clearing(clearing) => match clearing.poll(barrier) {
                Cleared::Wait { clearing, seen: _ } => Phase::Clearing(clearing),
                Cleared::Idle(seat) => Phase::Idle(seat),
            },
        };
        Main { phase, lead, way }
    }

    /// What main does.
    pub(crate) fn stage(&self) -> Stage {
        match self.phase {
            Phase::Idle(_) => Stage::Idle,
            Phase::Asked(_) => Stage::Asked,
            Phase::Clearing(_) => Stage::Clearing,
        }
    }

    /// Whether main has told the workers to stop, and all of them have left.
    pub(crate) fn is_over(&self) -> bool {
        self.stage() == Stage::Idle && self.lead.told != Stop::No
    }

    /// Main's seat once it is idle, and what it leads by.
    pub fn rest<R: Wait>(
        self,
        rt: &R,
        alloc: Global,
        input: &Input,
        barrier: &Barrier<WorkerParcel>,
    ) -> (MainSeat<WorkerParcel>, Lead)
        requires { IsMain input.now.plan.now input.now.capture.now barrier.now self }
        ensures { IsLead input.now.plan.now input.now.capture.now (main_view result.0.seat).released (main_view result.0.seat).stamp result.1 }
    {
        let mut main = self;
        for _ in rt.forever() {
            let Main { phase, lead, way } = main;
            match phase {
                Phase::Idle(seat) => return (seat, lead),
                phase => main = Main { phase, lead, way }.step(alloc, input, barrier),
            }
        }
        unreachable!()
    }
}
