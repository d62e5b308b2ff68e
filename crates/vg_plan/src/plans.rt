//! Plans: the generations of a script, and when each begins.
ghost use Rattle.std.specs.Prelude.{◌≡◌, ◌+◌, ◌<◌, ◌≤◌, IfOk, IfErr, OnOk, Ok, Some, length, slice_get, vec_len};
ghost use Rattle.vg_model.specs.Generations.{after_groups};
ghost use Rattle.vg_script.specs.Events.{events, generation_at};
ghost use Rattle.vg_script.specs.Generations.{generations_of};
ghost use Rattle.vg_script.specs.Lawful.{IsLawful};
ghost use Rattle.vg_plan.specs.Plan.{graphs_of, limit_of, limits_of, windows, IsGeneration, IsPlan};
ghost use Rattle.vg_plan.specs.Progress.{AreMade};
ghost use Rattle.vg_plan.specs.Run.{groups_of};
ghost use Rattle.vg_plan.specs.Times.{AreTimes};
ghost use Rattle.vg_plan.specs.Refusals.{IsRefusalOf};

use crate::books::Book;
use crate::events::{Run, in_order, times_of};
use crate::masters::{Master, out_of_memory};
use crate::windows::{due, front};
use std::alloc::{AllocError, Global};
use std::marker::Model;
use vg_capture::Capture;
use vg_model::Memory;
use vg_script::{Script, ScriptError};

/// The plan of a script: its generations and their times. Of the graphs it keeps that of generation 0 alone.
///
/// Times are capture times in microseconds, counted from the first packet.
#[derive(Drop)]
pub struct Plan {
    script: Script,
    // The graph and the routes of generation 0.
    first: Master,
    // The times of the events, in their order.
    times: Vec<u64>,
}

impl Model for Plan {
    ghost use Rattle.vg_plan.specs.Plan.{Planned};

    ghost Value = { Planned };

    ghost use Rattle.vg_plan.specs.View.{planned, IsKept};

    ghost view = { planned };

    ghost invariant = { IsKept };
}

impl Plan {
    /// The plan of a script. All generations are made once, one after the other.
    ///
    /// # Errors
    ///
    /// The line and the cause of the first edit that is refused, in the order of the edits outside blocks and then the
    /// events; line 0 and `Memory` where memory runs out.
    pub fn new(alloc: Global, script: Script) -> Result<Plan, ScriptError>
        requires { IsLawful script }
        ensures script { IfOk result (λ plan. plan.script ≡ script) }
        ensures made { IfOk result (λ plan. generations_of script ≡ Ok plan.graphs) }
        ensures refused { IfErr result (IsRefusalOf (generations_of script)) }
    {
        let Made { first, times } = make_all(alloc, &script)?;
        Ok(Plan {
            script,
            first,
            times,
        })
    }

    // The graph and the routes of generation 0.
    pub(crate) fn first(&self) -> &Master
        ensures { slice_get self.now.graphs 0 ≡ Some result.now }
    {
        &self.first
    }

    /// The script.
    pub fn script(&self) -> &Script
        ensures script { result.now ≡ self.now.script }
        ensures plan { IsPlan self.now }
    {
        &self.script
    }

    /// How many generations there are: one more than events.
    pub fn generations(&self) -> u32
        ensures events { result ≡ length (events self.now.script) + 1 }
        ensures graphs { result ≡ length self.now.graphs }
        ensures plan { IsPlan self.now }
    {
        self.times.len() as u32 + 1
    }

    /// The generation at a time: the number of events up to it.
    pub fn generation_of(&self, time: u64) -> u32
        ensures { result ≡ generation_at (events self.now.script) time }
    {
        self.times.partition_point(|event| *event <= time) as u32
    }

    /// The limit of a generation: how many of a capture's packets begin in it or an earlier one. These are its first
    /// packets.
    pub fn limit(&self, generation: u32, capture: &Capture) -> u32
        requires { generation < length self.now.graphs }
        ensures { result ≡ limit_of self.now.script capture.now generation }
    {
        let packets = &capture.packets;
        match self.times.get(generation as usize) {
            Some(event) => {
                let due = due(packets, capture.nanos, *event);
                front(packets, 0, capture.nanos, due) as u32
            }
            None => capture.count(),
        }
    }

    // The limits of all generations, in one pass over the events and the packets.
    fn limits(&self, alloc: Global, capture: &Capture) -> Result<Vec<u32>, AllocError>
        ensures limits { IfOk result (λ limits. limits.items ≡ limits_of self.now capture.now) }
        ensures few { IfOk result (λ limits. vec_len limits ≤ 1000) }
    {
        let packets = &capture.packets;
        let mut limits = Vec::with_capacity(alloc, self.times.len() + 1)?;
        let mut early = 0;
        for event in &self.times {
            let due = due(packets, capture.nanos, *event);
            early = front(packets, early, capture.nanos, due);
            limits.push(early as u32)?;
        }
        limits.push(capture.count())?;
        Ok(limits)
    }

    /// The generations with their limits for a capture.
    ///
    /// # Errors
    ///
    /// [`Memory`] where memory runs out.
    pub fn book(&self, alloc: Global, capture: &Capture) -> Result<Book, Memory>
        ensures { IfOk result (λ book. book ≡ windows self.now capture.now) }
    {
        let limits = self.limits(alloc, capture)?;
        Ok(Book::of(self, limits))
    }
}

// What is kept of all generations: the first, and the times of the events that make the others.
#[derive(Drop)]
struct Made {
    first: Master,
    times: Vec<u64>,
}

// Makes all generations of a script, one after the other, and keeps the first.
fn make_all(alloc: Global, script: &Script) -> Result<Made, ScriptError>
    requires { IsLawful script.now }
    ensures made { OnOk result (IsPlan (record { script = script.now; graphs = graphs_of script.now })) }
    ensures first { IfOk result (λ made. slice_get (graphs_of script.now) 0 ≡ Some made.first) }
    ensures times { IfOk result (λ made. AreTimes script.now made.times.items) }
    ensures refused { IfErr result (IsRefusalOf (generations_of script.now)) }
{
    let Ok(runs) = in_order(alloc, script) else {
        return Err(out_of_memory());
    };
    let Ok(mut first) = Master::start(alloc) else {
        return Err(out_of_memory());
    };
    first.make(&script.start)?;
    make_events(alloc, &first, runs.as_slice())?;
    match times_of(alloc, &runs) {
        Ok(times) => Ok(Made { first, times }),
        Err(_) => Err(out_of_memory()),
    }
}

// Makes the generations of these events behind the first, one after the other, and keeps none.
fn make_events(alloc: Global, first: &Master, runs: &[Run<'_>]) -> Result<(), ScriptError>
    requires { IsGeneration first.now }
    ensures made { OnOk result (AreMade (after_groups (Ok first.now) (groups_of runs.now))) }
    ensures refused { IfErr result (IsRefusalOf (after_groups (Ok first.now) (groups_of runs.now))) }
{
    if runs.is_empty() {
        return Ok(());
    }
    let Ok(mut master) = first.copy(alloc, None) else {
        return Err(out_of_memory());
    };
    for run in runs {
        master.make(run.edits)?;
    }
    Ok(())
}
