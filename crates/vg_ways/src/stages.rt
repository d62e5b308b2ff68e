//! The generations that packets go through, made one after the other and kept as long as packets may need them.
ghost use Rattle.std.specs.Prelude.{◌≡◌, ◌+◌, ◌<◌, ◌≤◌, ℕ, [], None, Some, IfOk, IfSome, IsSome, OnOk, OnErr, is_some, length, nat_lt, not, ◌&&◌, slice_get, option_map};
ghost use Rattle.vg_ways.specs.Counts.{all_edits, with_sets, with_sets6};
ghost use Rattle.vg_plan.specs.Run.{seen};
ghost use Rattle.vg_ways.specs.Events.{event_of, time_of};
ghost use Rattle.vg_ways.specs.Known.{AreKnown};
ghost use Rattle.vg_ways.specs.LinesView.{line_in, line6_in};
ghost use Rattle.vg_ways.specs.Stages.{kept_at, AreForgotten, IsStageOf, IsStageWith};

use crate::lines::RouteLines;
use crate::prefixes::Known;
use std::alloc::{AllocError, Global};
use std::marker::Model;
use vg_fork::Fork;
use vg_model::Memory;
use vg_plan::events::{Run, in_order};
use vg_plan::{Generations, Master, Plan};
use vg_story::Stage;

/// The generations of a plan, made one after the other. Each is kept until it is forgotten. They are seen as the plan and those that are kept.
#[derive(Drop)]
pub struct Stages<'a> {
    alloc: Global,
    plan: &'a Plan,
    events: Vec<Run<'a>>,
    // The generations from the one made last on; none where memory ran out.
    later: Option<Generations<'a>>,
    lines: RouteLines,
    made: Vec<Option<Stage>>,
    // None before this one is kept.
    kept_from: usize,
}

impl<'a> Model for Stages<'a> {
    ghost use Rattle.vg_ways.specs.Stages.{Shown};
    ghost use Rattle.vg_ways.specs.StagesView.{view_of, AreStages};

    ghost Value = { Shown };

    ghost view = { view_of };

    ghost invariant = { AreStages };
}

// The fork of a generation.
fn fork_of(alloc: Global, master: &Master, generation: u32) -> Result<Fork, Memory>
    ensures { IfOk result (λ fork. fork.graph ≡ master.now) }
{
    Fork::of(
        alloc,
        master.graph(),
        master.fib(),
        master.fib6(),
        generation,
    )
}

// A generation as packets meet it.
fn stage_of(
    alloc: Global,
    master: &Master,
    lines: &RouteLines,
    generation: u32,
) -> Result<Stage, Memory>
    ensures { IfOk result (IsStageWith master.now (line_in lines.now) (line6_in lines.now)) }
{
    let fork = fork_of(alloc, master, generation)?;
    let routes = lines.index(master.fib().routes())?;
    let routes6 = lines.index6(master.fib6().routes())?;
    Ok(Stage {
        fork,
        routes,
        routes6,
    })
}

// Forgets what is kept at the places from one to another.
fn forget_between(made: &mut Vec<Option<Stage>>, from: usize, before: usize)
    requires from { from ≤ before }
    requires before { before ≤ length made.old.items }
    ensures { AreForgotten from before made.old.items made.new.items }
{
    for place in from..before {
        made[place] = None;
    }
}

impl<'a> Stages<'a> {
    /// With the first generation made.
    ///
    /// # Errors
    ///
    /// [`Memory`] where memory runs out.
    pub fn new(alloc: Global, plan: &'a Plan) -> Result<Stages<'a>, Memory>
        ensures plan { IfOk result (λ stages. stages.plan ≡ plan.entry.now) }
        ensures first { IfOk result (λ stages. (length stages.kept ≡ 1) × IsSome (kept_at stages 0)) }
    {
        let _generations = plan.generations();
        let script = plan.script();
        let events = in_order(alloc, script)?;
        let later = Generations::of(alloc, plan)?;
        let lines = RouteLines::first(alloc, script)?;
        let first = stage_of(alloc, later.master(), &lines, 0)?;
        let mut made = Vec::new(alloc);
        made.push(Some(first))?;
        Ok(Stages {
            alloc,
            plan,
            events,
            later: Some(later),
            lines,
            made,
            kept_from: 0,
        })
    }

    // The event that began a generation; `None` for the first.
    fn event(&self, generation: u32) -> Option<Run<'a>>
        ensures { option_map seen result ≡ event_of self.now.plan.script generation }
    {
        if generation == 0 {
            return None;
        }
        let place = generation as usize - 1;
        if place < self.events.len() {
            Some(self.events[place])
        } else {
            None
        }
    }

    /// The line of the event that began a generation; `None` for the first.
    pub fn line(&self, generation: u32) -> Option<u32>
        ensures { result ≡ option_map (λ event. event.line) (event_of self.now.plan.script generation) }
    {
        match self.event(generation) {
            Some(event) => Some(event.line),
            None => None,
        }
    }

    /// The time of the event that began a generation, in microseconds from the first packet; 0 for the first.
    pub fn time(&self, generation: u32) -> u64
        ensures { result ≡ time_of self.now.plan.script generation }
    {
        match self.event(generation) {
            Some(event) => event.time,
            None => 0,
        }
    }

    // How many generations the plan has.
    pub(crate) fn generations(&self) -> u32
        ensures { result ≡ length self.now.plan.graphs }
    {
        self.plan.generations()
    }

    // The prefixes of all routes that there ever are, in the order in which they are first set.
    pub(crate) fn prefixes(&self, alloc: Global) -> Result<Known, AllocError>
        ensures { IfOk result (AreKnown (with_sets [] (all_edits self.now.plan.script)) (with_sets6 [] (all_edits self.now.plan.script))) }
    {
        let mut known = Known::new(alloc);
        known.put_all(&self.plan.script().start)?;
        for event in self.events.as_slice() {
            known.put_all(event.edits)?;
        }
        Ok(known)
    }

    /// How many generations were made.
    pub fn made(&self) -> usize
        ensures { result ≡ length self.now.kept }
    {
        self.made.len()
    }

    // Makes one generation more.
    fn make_next(&mut self) -> Result<(), Memory>
        requires { length self.old.kept < length self.old.plan.graphs }
        ensures plan { self.new.plan ≡ self.old.plan }
        ensures more { OnOk result (length self.new.kept ≡ length self.old.kept + 1) }
        ensures last { OnOk result (IsSome (kept_at self.new (length self.old.kept))) }
    {
        let _generations = self.plan.generations();
        let Some(later) = self.later.take() else {
            return Err(Memory);
        };
        let place = self.made.len();
        let later = later.advance()?;
        self.lines.put_all(self.events[place - 1].edits)?;
        let stage = stage_of(self.alloc, later.master(), &self.lines, place as u32)?;
        self.made.push(Some(stage))?;
        self.later = Some(later);
        Ok(())
    }

    // Makes generations until this one is made.
    fn make_up_to(&mut self, generation: u32) -> Result<(), Memory>
        requires { generation < length self.old.plan.graphs }
        ensures plan { self.new.plan ≡ self.old.plan }
        ensures kept { OnOk result (length self.old.kept ≤ generation → IsSome (kept_at self.new generation)) }
    {
        while self.made.len() <= generation as usize {
            self.make_next()?;
        }
        Ok(())
    }

    // Makes generations until this one is made, and keeps none before it.
    fn make_only(&mut self, generation: u32) -> Result<(), Memory>
        requires generation { generation < length self.old.plan.graphs }
        requires kept { generation < length self.old.kept → IsSome (kept_at self.old generation) }
        ensures plan { self.new.plan ≡ self.old.plan }
        ensures kept { OnOk result (IsSome (kept_at self.new generation)) }
        ensures none { OnOk result ((before : ℕ) → before < generation → kept_at self.new before ≡ None) }
    {
        self.forget(generation);
        while self.made.len() <= generation as usize {
            self.make_next()?;
            self.forget(generation);
        }
        Ok(())
    }

    // The same, from the first generation on.
    fn make_again(&mut self, generation: u32) -> Result<(), Memory>
        requires { generation < length self.old.plan.graphs }
        ensures plan { self.new.plan ≡ self.old.plan }
        ensures kept { OnOk result (IsSome (kept_at self.new generation)) }
        ensures none { OnOk result ((before : ℕ) → before < generation → kept_at self.new before ≡ None) }
    {
        *self = Stages::new(self.alloc, self.plan)?;
        self.make_only(generation)
    }

    // Whether a generation was made and forgotten.
    fn is_forgotten(&self, generation: u32) -> bool
        ensures { result ≡ (nat_lt generation (length self.now.kept) && not (is_some (kept_at self.now generation))) }
    {
        (generation as usize) < self.made() && self.get(generation).is_none()
    }

    /// Sees to it that a generation is kept, and none before it. One that was forgotten is made again, and so are all before it, one after the
    /// other.
    ///
    /// # Errors
    ///
    /// [`Memory`] where memory runs out.
    pub fn advance_to(&mut self, generation: u32) -> Result<(), Memory>
        requires { generation < length self.old.plan.graphs }
        ensures plan { self.new.plan ≡ self.old.plan }
        ensures kept { OnOk result (IsSome (kept_at self.new generation)) }
        ensures none { OnOk result ((before : ℕ) → before < generation → kept_at self.new before ≡ None) }
    {
        if self.is_forgotten(generation) {
            return self.make_again(generation);
        }
        self.make_only(generation)
    }

    /// Sees to it that a generation is kept, with those between it and the ones that are kept. One that was forgotten is made again, and then none
    /// before it is kept.
    ///
    /// # Errors
    ///
    /// [`Memory`] where memory runs out.
    pub fn reach(&mut self, generation: u32) -> Result<(), Memory>
        requires { generation < length self.old.plan.graphs }
        ensures plan { self.new.plan ≡ self.old.plan }
        ensures kept { OnOk result (IsSome (kept_at self.new generation)) }
    {
        if self.get(generation).is_some() {
            return Ok(());
        }
        if generation as usize >= self.made() {
            return self.make_up_to(generation);
        }
        self.make_again(generation)
    }

    /// Forgets the generations before this one, and no other.
    pub fn forget(&mut self, before: u32)
        ensures plan { self.new.plan ≡ self.old.plan }
        ensures len { length self.new.kept ≡ length self.old.kept }
        ensures none { (generation : ℕ) → generation < before → kept_at self.new generation ≡ None }
        ensures others { (generation : ℕ) → before ≤ generation → kept_at self.new generation ≡ kept_at self.old generation }
    {
        let before = self.made.len().min(before as usize).max(self.kept_from);
        forget_between(&mut self.made, self.kept_from, before);
        self.kept_from = before;
    }

    /// A generation, where it is kept.
    pub fn get(&self, generation: u32) -> Option<&Stage>
        ensures kept { is_some result ≡ is_some (kept_at self.now generation) }
        ensures stage { IfSome result (λ stage. IsStageOf self.now.plan generation stage.now) }
    {
        let place = generation as usize;
        if place < self.made.len() {
            self.made[place].as_ref()
        } else {
            None
        }
    }
}
