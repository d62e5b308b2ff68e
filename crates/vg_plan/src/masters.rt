//! The graph and the routes that main edits, event by event.
ghost use Rattle.std.specs.Prelude.{◌≡◌, ◌≢◌, ◌⊎◌, ◌<◌, ◌∷◌, [], IfOk, IfErr, OnOk, OnErr, MatchOption, MatchResult, Ok, Some, None, slice_get, length};
ghost use Rattle.vg_model.specs.Start.{start_graph};
ghost use Rattle.vg_model.specs.Valid.{IsRouteWithin};
ghost use Rattle.std.specs.List.{AllByRecursion};
ghost use Rattle.vg_model.specs.Edit.{adjacency_named, apply, apply_all, members_of, target_of, with_route, with_route6, without_route, without_route6};
ghost use Rattle.vg_model.specs.Members.{AreMembers};
ghost use Rattle.vg_graph.specs.Refusals.{IsGraphEdit, cause_of as cause_of_graph};
ghost use Rattle.vg_script.specs.Causes.{cause_of};
ghost use Rattle.vg_plan.specs.Refusals.{IsCauseOf, IsRefusalOf, out_of_memory as memory_ran_out};
ghost use Rattle.vg_model.specs.Graph.{with_routes};

use crate::plans::Plan;
use std::alloc::Global;
use std::marker::Model;
use std::mem::replace;
use vg_fib::{Fib, Fib6, FibError};
use vg_graph::{Graph, GraphError};
use vg_model::{Edit, EditLine, Edits, Members, Memory, Name, Prefix, Prefix6, RouteTo, RouteWord};
use vg_script::{ScriptCause, ScriptError};

/// A graph and its tables of routes: one whole graph, which is valid.
#[derive(Drop)]
pub struct Master {
    graph: Graph,
    fib: Fib,
    fib6: Fib6,
    // The tables before the last event, for their memory.
    spare: Option<(Fib, Fib6)>,
}

impl Model for Master {
    ghost use Rattle.vg_model.specs.Graph.{Graph as WholeGraph};

    ghost Value = { WholeGraph };

    ghost use Rattle.vg_plan.specs.Plan.{IsGeneration};
    ghost use Rattle.vg_plan.specs.Master.{whole};

    ghost view = { whole };

    ghost invariant = { λ master. IsGeneration (whole master) };
}

// Why a script is refused where the graph refuses an edit.
fn graph_cause(error: GraphError) -> ScriptCause
    ensures { MatchOption (cause_of_graph error) (result ≡ ScriptCause.Memory) (λ cause. result ≡ cause_of cause) }
{
    match error {
        GraphError::DoubleName => ScriptCause::DoubleName,
        GraphError::UnknownNode => ScriptCause::UnknownNode,
        GraphError::UnknownSlot => ScriptCause::UnknownSlot,
        GraphError::BadTarget => ScriptCause::BadTarget,
        GraphError::Cycle => ScriptCause::Cycle,
        GraphError::TooMany => ScriptCause::TooMany,
        GraphError::UnknownInterface => ScriptCause::UnknownInterface,
        GraphError::Memory => ScriptCause::Memory,
    }
}

/// The refusal where memory runs out, which names no line.
pub fn out_of_memory() -> ScriptError
    ensures { result ≡ memory_ran_out }
{
    ScriptError {
        line: 0,
        cause: ScriptCause::Memory,
    }
}

// The refusal of the edit on this line; no line is named where memory ran out.
fn refusal(line: u32, cause: ScriptCause) -> ScriptError
    ensures memory { cause ≡ ScriptCause.Memory → result ≡ memory_ran_out }
    ensures edit { cause ≢ ScriptCause.Memory → result ≡ record { line = line; cause = cause } }
    ensures either { (result ≡ memory_ran_out) ⊎ ((cause ≢ ScriptCause.Memory) × (result ≡ record { line = line; cause = cause })) }
{
    match cause {
        ScriptCause::Memory => out_of_memory(),
        _ => ScriptError { line, cause },
    }
}

impl Master {
    ghost use Rattle.vg_plan.specs.Plan.{IsGeneration};

    /// The graph and the routes of a plan's generation 0.
    ///
    /// # Errors
    ///
    /// [`Memory`] where memory runs out.
    pub fn new(alloc: Global, plan: &Plan) -> Result<Master, Memory>
        ensures { IfOk result (λ master. slice_get plan.now.graphs 0 ≡ Some master) }
    {
        plan.first().copy(alloc, None)
    }

    // The graph that a run starts from, without routes.
    pub(crate) fn start(alloc: Global) -> Result<Master, Memory>
        ensures { IfOk result (λ master. master ≡ start_graph) }
    {
        Ok(Master {
            graph: Graph::start(alloc)?,
            fib: Fib::new(alloc)?,
            fib6: Fib6::new(alloc)?,
            spare: None,
        })
    }

    /// The graph, without its routes.
    pub fn graph(&self) -> &Graph
        ensures graph { with_routes result.now self.now.routes self.now.routes6 ≡ self.now }
        ensures generation { IsGeneration self.now }
    {
        &self.graph
    }

    /// The IPv4 routes.
    pub fn fib(&self) -> &Fib
        ensures routes { result.now ≡ self.now.routes }
        ensures generation { IsGeneration self.now }
    {
        &self.fib
    }

    /// The IPv6 routes.
    pub fn fib6(&self) -> &Fib6
        ensures routes { result.now ≡ self.now.routes6 }
        ensures generation { IsGeneration self.now }
    {
        &self.fib6
    }

    // An equal master. Its tables are made in the memory of others where there are some.
    pub(crate) fn copy(&self, alloc: Global, spare: Option<(Fib, Fib6)>) -> Result<Master, Memory>
        ensures { IfOk result (λ copy. copy ≡ self.now) }
    {
        let (fib, fib6) = match spare {
            Some((fib, fib6)) => (fib.renewed(&self.fib)?, fib6.renewed(&self.fib6)?),
            None => (self.fib.copy()?, self.fib6.copy()?),
        };
        Ok(Master {
            graph: self.graph.copy(alloc)?,
            fib,
            fib6,
            spare: None,
        })
    }

    /// Makes the edits, in their order: the group of one event. After a refusal the master is as it was.
    ///
    /// # Errors
    ///
    /// The line and the cause of the first edit that is refused, as the definitions of edits have it; line 0 and
    /// [`ScriptCause::Memory`] where memory runs out. The edits of an accepted plan's next event are never refused:
    /// there this comes for want of memory alone.
    pub fn apply(&mut self, alloc: Global, edits: &Edits) -> Result<(), ScriptError>
        ensures made { OnOk result (apply_all self.old edits.now ≡ Ok self.new) }
        ensures refused { IfErr result (IsRefusalOf (apply_all self.old edits.now)) }
        ensures same { OnErr result (self.new ≡ self.old) }
    {
        if let [only] = edits.as_slice() {
            return self.make_one(only);
        }
        let spare = self.spare.take();
        let Ok(mut after) = self.copy(alloc, spare) else {
            return Err(out_of_memory());
        };
        after.make(edits)?;
        let Master { fib, fib6, .. } = replace(self, after);
        self.spare = Some((fib, fib6));
        Ok(())
    }

    // Makes the edit of a group that has no other, in place: an edit that is refused changes nothing.
    fn make_one(&mut self, only: &EditLine) -> Result<(), ScriptError>
        ensures made { OnOk result (apply_all self.old (only.now ∷ []) ≡ Ok self.new) }
        ensures refused { IfErr result (IsRefusalOf (apply_all self.old (only.now ∷ []))) }
        ensures same { OnErr result (self.new ≡ self.old) }
    {
        if let Err(cause) = self.edit(&only.edit) {
            return Err(refusal(only.line, cause));
        }
        Ok(())
    }

    // Makes the edits, in their order. After a refusal those before it are made.
    pub(crate) fn make(&mut self, edits: &Edits) -> Result<(), ScriptError>
        ensures made { OnOk result (apply_all self.old edits.now ≡ Ok self.new) }
        ensures generation { OnOk result (IsGeneration self.new) }
        ensures refused { IfErr result (IsRefusalOf (apply_all self.old edits.now)) }
    {
        for edit in edits.as_slice() {
            if let Err(cause) = self.edit(&edit.edit) {
                return Err(refusal(edit.line, cause));
            }
        }
        // A reader tells what the graph keeps.
        let _graph = self.graph();
        Ok(())
    }

    // The master as the edit makes it. After a refusal it is as it was.
    fn edit(&mut self, edit: &Edit) -> Result<(), ScriptCause>
        ensures done { OnOk result (apply self.old edit.now ≡ Ok self.new) }
        ensures refused { IfErr result (IsCauseOf (apply self.old edit.now)) }
        ensures same { OnErr result (self.new ≡ self.old) }
    {
        match edit {
            Edit::Route { prefix, to } => self.set_route(*prefix, to),
            Edit::Unroute { prefix } => self.remove_route(*prefix),
            Edit::Route6 { prefix, to } => self.set_route6(*prefix, to),
            Edit::Unroute6 { prefix } => self.remove_route6(*prefix),
            _ => self.edit_graph(edit),
        }
    }

    // The number of the adjacency of this name.
    fn adjacency(&self, name: &Name) -> Result<u16, ScriptCause>
        ensures number { MatchResult result (λ number. adjacency_named self.now name.now ≡ Some number)
            (λ cause. (adjacency_named self.now name.now ≡ None) × (cause ≡ ScriptCause.UnknownAdjacency)) }
        ensures within { IfOk result (λ number. number < length self.now.adjacencies) }
    {
        match self.graph.adjacency(name) {
            Some(number) => Ok(number),
            None => Err(ScriptCause::UnknownAdjacency),
        }
    }

    // The numbers of the adjacencies of these names.
    fn members(&self, names: &[Name]) -> Result<Members, ScriptCause>
        requires { AreMembers names.now }
        ensures members { MatchResult result (λ members. members_of self.now names.now ≡ Ok members) (IsCauseOf (members_of self.now names.now)) }
        ensures within { IfOk result (AllByRecursion (λ number. number < length self.now.adjacencies)) }
    {
        let mut members = Members::one(self.adjacency(&names[0])?);
        for i in 1..names.len() {
            members.push(self.adjacency(&names[i])?);
        }
        Ok(members)
    }

    // Where a route leads, with its adjacencies by number.
    fn target(&self, to: &RouteWord) -> Result<RouteTo, ScriptCause>
        ensures target { MatchResult result (λ target. target_of self.now to.now ≡ Ok target) (IsCauseOf (target_of self.now to.now)) }
        ensures within { IfOk result (IsRouteWithin (length self.now.adjacencies)) }
    {
        match to {
            RouteWord::Via(names) => Ok(RouteTo::Via(self.members(names.as_slice())?)),
            RouteWord::Local => Ok(RouteTo::Local),
            RouteWord::Drop => Ok(RouteTo::Drop),
        }
    }

    fn set_route(&mut self, prefix: Prefix, to: &RouteWord) -> Result<(), ScriptCause>
        ensures done { OnOk result (with_route self.old prefix to.now ≡ Ok self.new) }
        ensures refused { IfErr result (IsCauseOf (with_route self.old prefix to.now)) }
        ensures same { OnErr result (self.new ≡ self.old) }
    {
        let target = self.target(to)?;
        match self.fib.set(prefix, target) {
            Ok(()) => Ok(()),
            Err(FibError::TooMany) => Err(ScriptCause::TooMany),
            Err(FibError::Memory) => Err(ScriptCause::Memory),
        }
    }

    fn remove_route(&mut self, prefix: Prefix) -> Result<(), ScriptCause>
        ensures done { OnOk result (without_route self.old prefix ≡ Ok self.new) }
        ensures refused { IfErr result (IsCauseOf (without_route self.old prefix)) }
        ensures same { OnErr result (self.new ≡ self.old) }
    {
        match self.fib.remove(prefix) {
            Ok(()) => Ok(()),
            Err(_) => Err(ScriptCause::NoRoute),
        }
    }

    fn set_route6(&mut self, prefix: Prefix6, to: &RouteWord) -> Result<(), ScriptCause>
        ensures done { OnOk result (with_route6 self.old prefix to.now ≡ Ok self.new) }
        ensures refused { IfErr result (IsCauseOf (with_route6 self.old prefix to.now)) }
        ensures same { OnErr result (self.new ≡ self.old) }
    {
        let target = self.target(to)?;
        match self.fib6.set(prefix, target) {
            Ok(()) => Ok(()),
            Err(FibError::TooMany) => Err(ScriptCause::TooMany),
            Err(FibError::Memory) => Err(ScriptCause::Memory),
        }
    }

    fn remove_route6(&mut self, prefix: Prefix6) -> Result<(), ScriptCause>
        ensures done { OnOk result (without_route6 self.old prefix ≡ Ok self.new) }
        ensures refused { IfErr result (IsCauseOf (without_route6 self.old prefix)) }
        ensures same { OnErr result (self.new ≡ self.old) }
    {
        match self.fib6.remove(prefix) {
            Ok(()) => Ok(()),
            Err(_) => Err(ScriptCause::NoRoute),
        }
    }

    fn edit_graph(&mut self, edit: &Edit) -> Result<(), ScriptCause>
        requires { IsGraphEdit edit.now }
        ensures done { OnOk result (apply self.old edit.now ≡ Ok self.new) }
        ensures refused { IfErr result (IsCauseOf (apply self.old edit.now)) }
        ensures same { OnErr result (self.new ≡ self.old) }
    {
        let answer = self.graph.apply(edit);
        // A reader tells what the graph keeps.
        let _nodes = self.graph.nodes();
        match answer {
            Ok(()) => Ok(()),
            Err(error) => Err(graph_cause(error)),
        }
    }
}
