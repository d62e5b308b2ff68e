//! The packet that is walked.
ghost use Rattle.std.specs.Prelude.{◌≡◌, ◌%◌, ◌<◌, length, IfOk, OnOk};
ghost use Rattle.vg_model.specs.Journey.{first_leg as first_leg_of};
ghost use Rattle.vg_model.specs.Packet.{fresh};
ghost use Rattle.vg_model.specs.Valid.{IsValid};
ghost use Rattle.vg_replay.specs.Courses.{in_hand, MayBegin, MayGoOn};

use crate::chains::Chain;
use crate::legs::{LegAt, Outcome, first_leg, know_possible, leg_from};
use crate::trips::{Trip, copied};
use std::alloc::{AllocError, Global};
use vg_fork::Fork;
use vg_model::start::HANDOFF_DEQUEUE;
use vg_model::{Leg, Legs, Memory};
use vg_nodes::KindSet;

/// The packet that is walked: in its buffer, with the legs that it has done, how the last of them ended, and the nodes that it visited.
#[derive(Drop)]
pub(crate) struct Walker {
    pub buffer: Chain,
    pub legs: Legs,
    pub outcome: Outcome,
    pub visits: Vec<u16>,
}

impl Walker {
    // No packet yet.
    pub(crate) fn new(alloc: Global) -> Result<Walker, Memory> {
        Ok(Walker {
            buffer: Chain::new(alloc)?,
            legs: Legs::new(),
            outcome: Outcome::Sent { interface: 0 },
            visits: Vec::new(alloc),
        })
    }

    // Takes a packet of the capture through its first leg. Whether it has one.
    pub(crate) fn begin<K: KindSet>(
        &mut self,
        kinds: &K,
        fork: &Fork,
        workers: u8,
        number: u32,
        bytes: &[u8],
    ) -> Result<bool, AllocError>
        requires valid { IsValid fork.now.graph }
        requires workers { 0 < workers }
        ensures { IfOk result (MayBegin (first_leg_of K.meaning fork.now.graph workers (number % workers) (fresh number bytes.now))
            (record { worker = number % workers; generation = fork.now.generation }) (in_hand self.new)) }
    {
        let worker = (number % workers as u32) as u8;
        let at = LegAt {
            workers,
            worker,
            number: 1,
        };
        self.visits.clear();
        let begun = first_leg(
            kinds,
            fork,
            at,
            number,
            bytes,
            &mut self.buffer,
            &mut self.visits,
        )?;
        let Some(outcome) = begun else {
            return Ok(false);
        };
        self.outcome = outcome;
        let mut legs = Legs::new();
        legs.push(Leg {
            worker,
            generation: fork.generation(),
        });
        self.legs = legs;
        Ok(true)
    }

    // Takes up a packet that waited.
    pub(crate) fn take_up(&mut self, trip: &Trip<'_>) -> Result<(), AllocError>
        ensures { OnOk result (in_hand self.new ≡ trip.now) }
    {
        trip.load(&mut self.buffer);
        self.legs = copied(trip.legs());
        self.outcome = trip.outcome();
        self.visits.clear();
        self.visits.extend_from_slice(trip.visits())
    }

    // Takes the packet through its next leg, where it was handed over. Whether it has one.
    pub(crate) fn step<K: KindSet>(
        &mut self,
        kinds: &K,
        fork: &Fork,
        workers: u8,
    ) -> Result<bool, AllocError>
        requires valid { IsValid fork.now.graph }
        requires workers { 0 < workers }
        requires few { length self.old.legs < 4 }
        ensures { IfOk result (MayGoOn K.meaning fork.now.graph workers fork.now.generation (in_hand self.old) (in_hand self.new)) }
    {
        let Outcome::Handed { node, worker } = self.outcome else {
            return Ok(false);
        };
        let at = LegAt {
            workers,
            worker,
            number: self.legs.as_slice().len() as u8 + 1,
        };
        know_possible(&self.buffer);
        let next = leg_from(
            kinds,
            fork,
            at,
            HANDOFF_DEQUEUE,
            node,
            &mut self.buffer,
            &mut self.visits,
        )?;
        let Some(outcome) = next else {
            return Ok(false);
        };
        self.outcome = outcome;
        self.legs.push(Leg {
            worker,
            generation: fork.generation(),
        });
        Ok(true)
    }
}
