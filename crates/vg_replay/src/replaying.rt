//! Packets that are taken through their choices once more.
ghost use Rattle.std.specs.Prelude.{◌≡◌, ◌+◌, ◌-◌, ◌<◌, Some, length, slice_get, IfOk, IfErr};
ghost use Rattle.vg_replay.specs.Replays.{task_of, IsInput, AreReplayed, IsRefusal};
ghost use Rattle.vg_replay.specs.Underway.{IsScheduled, IsNeverDue, AreUnderway};

use crate::inputs::Input;
use crate::trips::Trips;
use crate::underway::Underway;
use std::alloc::Global;
use vg_counters::Counters;
use vg_fork::Fork;
use vg_model::Memory;
use vg_nodes::KindSet;
use vg_plan::{Generations, Master};

/// What comes of packets that are taken through their choices.
#[derive(Drop)]
pub struct Replayed {
    /// How each packet went, by number.
    pub trips: Trips,
    /// The visits of nodes, their drops, and the transmits of interfaces.
    pub counts: Counters,
    /// The graph of the last generation.
    pub last: Master,
}

/// Why packets can't be taken through their choices.
#[derive(Clone, Copy, Debug, PartialEq, Eq)]
pub enum ReplayError {
    /// This is the first packet that has no journey under its choice, or whose generations don't begin with that of its time, fall, or
    /// aren't there.
    Choices(u32),
    /// Memory ran out.
    Memory,
}

// The fork of a generation, in the memory of an earlier one as far as it goes.
fn fork_of(
    alloc: Global,
    before: Option<Fork>,
    master: &Master,
    generation: u32,
) -> Result<Fork, Memory>
    ensures { IfOk result (λ fork. fork ≡ record { graph = master.now; generation = generation }) }
{
    let graph = master.graph();
    let (fib, fib6) = (master.fib(), master.fib6());
    match before {
        Some(fork) => fork.renewed(alloc, graph, fib, fib6, generation),
        None => Fork::of(alloc, graph, fib, fib6, generation),
    }
}

// Takes the packets on that are due in a generation, and hands back the fork by which they went.
fn pass<K: KindSet>(
    alloc: Global,
    input: &Input<'_>,
    kinds: &K,
    underway: &mut Underway,
    fork: Option<Fork>,
    master: &Master,
    generation: u32,
) -> Result<Option<Fork>, Memory>
    requires input { IsInput input.now }
    requires graph { slice_get input.now.plan.now.graphs generation ≡ Some master.now }
    requires underway { AreUnderway (task_of K.meaning input.now) input.now.traced (IsScheduled generation underway.old.schedule) underway.old }
    ensures { IfOk result (λ fork. AreUnderway (task_of K.meaning input.now) input.now.traced (IsScheduled (generation + 1) underway.new.schedule) underway.new) }
{
    let numbers = underway.schedule.take(generation);
    if numbers.is_empty() {
        return Ok(fork);
    }
    let fork = fork_of(alloc, fork, master, generation)?;
    underway.take_all(input, kinds, &fork, numbers.as_slice())?;
    Ok(Some(fork))
}

// Takes the packets on, generation by generation. Gives the last graph beside them.
fn pass_all<K: KindSet>(
    alloc: Global,
    input: &Input<'_>,
    kinds: &K,
    underway: &mut Underway,
) -> Result<Master, Memory>
    requires input { IsInput input.now }
    requires underway { AreUnderway (task_of K.meaning input.now) input.now.traced (IsScheduled 0 underway.old.schedule) underway.old }
    ensures underway { IfOk result (λ last. AreUnderway (task_of K.meaning input.now) input.now.traced IsNeverDue underway.new) }
    ensures last { IfOk result (λ last. slice_get input.now.plan.now.graphs (length input.now.plan.now.graphs - 1) ≡ Some last) }
{
    let mut generations = Generations::of(alloc, input.plan)?;
    let mut fork = pass(alloc, input, kinds, underway, None, generations.master(), 0)?;
    'generations: for generation in 1..input.plan.generations() {
        generations = generations.advance()?;
        fork = pass(
            alloc,
            input,
            kinds,
            underway,
            fork,
            generations.master(),
            generation,
        )?;
    }
    Ok(generations.into_master())
}

// Takes the packets through.
fn go_through<K: KindSet>(
    alloc: Global,
    input: &Input<'_>,
    kinds: &K,
) -> Result<(Underway, Master), Memory>
    requires { IsInput input.now }
    ensures underway { IfOk result (λ through. AreUnderway (task_of K.meaning input.now) input.now.traced IsNeverDue through.0) }
    ensures last { IfOk result (λ through. slice_get input.now.plan.now.graphs (length input.now.plan.now.graphs - 1) ≡ Some through.1) }
{
    let book = input.plan.book(alloc, input.capture)?;
    let mut underway = Underway::new(alloc, input.plan.generations())?;
    underway.begin(input, &book)?;
    let last = pass_all(alloc, input, kinds, &mut underway)?;
    Ok((underway, last))
}

/// Takes the packets of a capture through the generations of a plan, each under the choice that its line names. Each leg is walked once.
///
/// # Errors
///
/// [`ReplayError::Choices`] exactly where some packet has no journey under its choice, or its generations don't begin with that of its
/// time, fall, or aren't there: with the number of the first such packet. [`ReplayError::Memory`] where memory runs out.
pub fn replay<K: KindSet>(
    alloc: Global,
    input: &Input<'_>,
    kinds: &K,
) -> Result<Replayed, ReplayError>
    requires { IsInput input.now }
    ensures replayed { IfOk result (AreReplayed (task_of K.meaning input.now) input.now.traced) }
    ensures refused { IfErr result (IsRefusal (task_of K.meaning input.now)) }
{
    match go_through(alloc, input, kinds) {
        Ok((underway, _)) if underway.stuck < input.capture.count() => {
            Err(ReplayError::Choices(underway.stuck))
        }
        Ok((underway, last)) => Ok(Replayed {
            trips: underway.trips,
            counts: underway.counts,
            last,
        }),
        Err(_) => Err(ReplayError::Memory),
    }
}
