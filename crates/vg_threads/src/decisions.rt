//! What main decides while it holds the barrier.
ghost use Rattle.std.specs.Prelude.{◌≡◌, ◌+◌, ◌<◌, ◌≤◌, true, IfOk, All, length, map};
ghost use Rattle.std.specs.List.{AllByRecursion};
ghost use Rattle.vg_plan.specs.Plan.{windows};
ghost use Rattle.vg_barrier.specs.Seats.{main_view, first_of, Whole, MayReturn};
ghost use Rattle.vg_dispatch.specs.Parcels.{Fits};
ghost use Rattle.vg_dispatch.specs.declared.parcels.Stop.TheVariants as stops;
ghost use Rattle.vg_fork.specs.Forked.{Forked};
ghost use Rattle.vg_threads.specs.Leads.{IsLead};
ghost use Rattle.vg_threads.specs.Turns.{IsAt};
ghost use Rattle.vg_threads.specs.Renewals.{renewed, told as told_to, parcel_mark, parcel_generation};

use crate::events::make_next;
use crate::forks::forks_of;
use std::alloc::Global;
use std::mem::replace;
use vg_barrier::Held;
use vg_dispatch::{Input, Stop, WorkerParcel};
use vg_fork::Fork;
use vg_model::Memory;
use vg_plan::{Book, Master};
use vg_process::Processes;

/// What main leads the workers by.
#[derive(Drop)]
pub struct Lead {
    /// The limit of each generation.
    pub book: Book,
    /// The events behind the generation that the workers have.
    pub processes: Processes,
    /// The graph of this generation.
    pub master: Master,
    /// What the workers are told, as main last released them.
    pub told: Stop,
    /// A fork that no worker has any more: the next ones are made in its memory.
    pub spare: Option<Fork>,
}

// Gives a parcel this fork for the one that it had, which comes back, and lets its worker draw packets below this limit.
fn renew(parcel: &mut WorkerParcel, fork: Fork, limit: u32) -> Fork
    ensures parcel { parcel.new ≡ renewed fork limit parcel.old }
    ensures had { result ≡ parcel.old.fork }
{
    parcel.limit = limit;
    parcel.stop = Stop::No;
    replace(&mut parcel.fork, fork)
}

// Tells the worker of a parcel to stop.
fn tell(parcel: &mut WorkerParcel, stop: Stop)
    ensures { parcel.new ≡ told_to stop parcel.old }
{
    parcel.stop = stop;
}

// Gives all workers a generation: each its fork, and all the limit. Of the forks that they had one comes back.
fn renew_all(held: &mut Held<WorkerParcel>, forks: Vec<Fork>, limit: u32) -> Option<Fork>
    requires { length forks.items ≡ length held.old.parcels.items }
    ensures main { held.new.main ≡ held.old.main }
    ensures parcels { (fork : Forked) → AllByRecursion (λ f. f ≡ fork) forks.items → held.new.parcels.items ≡ map (renewed fork limit) held.old.parcels.items }
{
    let mut spare = None;
    let mut k = 0;
    for fork in forks {
        spare = Some(renew(held.parcel_mut(k), fork, limit));
        k += 1;
    }
    spare
}

// Tells all workers to stop.
fn tell_all(held: &mut Held<WorkerParcel>, stop: Stop)
    ensures main { held.new.main ≡ held.old.main }
    ensures parcels { held.new.parcels.items ≡ map (told_to stop) held.old.parcels.items }
{
    for k in 0..held.parcels.len() {
        tell(held.parcel_mut(k), stop);
    }
}

// Whether each worker has drawn all packets below its limit.
fn all_drawn(parcels: &Vec<WorkerParcel>) -> bool
    ensures { result ≡ true → All (λ p. p.limit ≤ p.next) parcels.now.items }
{
    parcels
        .iter()
        .all(|parcel| u64::from(parcel.limit) <= parcel.next)
}

impl Lead {
    /// Whether the workers were told to stop because the last generation is over.
    pub fn is_ended(&self) -> bool
        ensures { result ≡ true → self.now.told ≡ stops.End }
    {
        self.told == Stop::End
    }

    // Makes the next event, and a fork of the graph behind it for each worker.
    fn next_forks(
        &mut self,
        alloc: Global,
        input: &Input,
        generation: u32,
        workers: usize,
    ) -> Result<Vec<Fork>, Memory>
        requires within { generation < length input.now.plan.now.graphs }
        requires workers { 1 ≤ workers }
        requires at { (past : _) → past + 1 ≡ generation → IsAt input.now.plan.now past self.old.processes self.old.master }
        requires some { 1 ≤ generation }
        ensures at { IfOk result (λ forks. IsAt input.now.plan.now generation self.new.processes self.new.master) }
        ensures count { IfOk result (λ forks. length forks.items ≡ workers) }
        ensures forks { IfOk result (λ forks. AllByRecursion (λ f. f ≡ record { graph = self.new.master; generation = generation }) forks.items) }
        ensures book { self.new.book ≡ self.old.book }
        ensures told { self.new.told ≡ self.old.told }
    {
        // A reader tells what the plan keeps.
        let _script = input.plan.script();
        make_next(alloc, &mut self.processes, &mut self.master)?;
        let spare = self.spare.take();
        forks_of(alloc, &self.master, generation, workers, spare)
    }

    /// Decides what the workers do next: where a worker hasn't drawn all its packets of their generation, they go on with it. Else
    /// they stop where it is the last one, and go on with the next one otherwise. Where memory runs out before each has its fork of
    /// the next one, they keep those that they have, and stop.
    pub fn decide(
        &mut self,
        alloc: Global,
        input: &Input,
        held: Held<WorkerParcel>,
    ) -> Held<WorkerParcel>
        requires going { self.old.told ≡ stops.No }
        requires book { (main_view held.main.seat).book ≡ windows input.now.plan.now input.now.capture.now }
        requires whole { Whole Fits parcel_mark parcel_generation (main_view held.main.seat) (main_view held.main.seat).released held.parcels.items }
        requires lead { IsLead input.now.plan.now input.now.capture.now (main_view held.main.seat).released (main_view held.main.seat).stamp self.old }
        ensures seat { result.main ≡ held.main }
        ensures parcels { MayReturn Fits parcel_mark parcel_generation (main_view held.main.seat) result.parcels.items }
        ensures lead { IsLead input.now.plan.now input.now.capture.now (first_of parcel_generation result.parcels.items) ((main_view held.main.seat).stamp + 1) self.new }
    {
        let mut held = held;
        if !all_drawn(&held.parcels) {
            return held;
        }
        let generations = input.plan.generations();
        let next = held.parcel(0).fork.generation() + 1;
        if next == generations {
            self.told = Stop::End;
            tell_all(&mut held, Stop::End);
            return held;
        }
        match self.next_forks(alloc, input, next, held.parcels.len()) {
            Ok(forks) => self.spare = renew_all(&mut held, forks, self.book.limit(next)),
            Err(Memory) => {
                self.told = Stop::Lacking;
                tell_all(&mut held, Stop::Lacking);
            }
        }
        held
    }
}
