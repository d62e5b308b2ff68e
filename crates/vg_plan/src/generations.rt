//! The generations of a plan, one after the other.
ghost use Rattle.std.specs.Prelude.{◌≡◌, ◌≤◌, Some, IfOk, drop, length, slice_get};

use crate::events::{Run, in_order};
use crate::masters::Master;
use crate::plans::Plan;
use std::alloc::Global;
use std::marker::Model;
use vg_model::Memory;

/// The graphs of a plan from one generation on. Only the first of them stands in memory: each is made of the one before it, by the
/// edits of its event, as it is reached.
///
/// It is seen as the list of these graphs.
#[derive(Drop)]
pub struct Generations<'a> {
    runs: Vec<Run<'a>>,
    // How many of the runs are made.
    made: usize,
    master: Master,
}

impl<'a> Model for Generations<'a> {
    ghost use Rattle.std.specs.Prelude.{List};
    ghost use Rattle.vg_model.specs.Graph.{Graph as WholeGraph};

    ghost Value = { List WholeGraph };

    ghost use Rattle.vg_plan.specs.Left.{graphs_left, IsLeft};

    ghost view = { λ g. graphs_left g.master g.made g.runs.items };

    ghost invariant = { λ g. IsLeft g.master g.made g.runs.items };
}

impl<'a> Generations<'a> {
    /// All generations of a plan.
    ///
    /// # Errors
    ///
    /// [`Memory`] where memory runs out.
    pub fn of(alloc: Global, plan: &'a Plan) -> Result<Generations<'a>, Memory>
        ensures { IfOk result (λ generations. generations ≡ plan.now.graphs) }
    {
        let runs = in_order(alloc, plan.script())?;
        Ok(Generations {
            runs,
            made: 0,
            master: Master::new(alloc, plan)?,
        })
    }

    /// The graph and the routes of the first of them.
    pub fn master(&self) -> &Master
        ensures { slice_get self.now 0 ≡ Some result.now }
    {
        &self.master
    }

    /// The graph and the routes of the first of them, alone.
    pub fn into_master(self) -> Master
        ensures { slice_get self.entry 0 ≡ Some result }
    {
        self.master
    }

    /// The generations from the next one on. Its edits are made in place.
    ///
    /// # Errors
    ///
    /// [`Memory`] where memory runs out.
    pub fn advance(self) -> Result<Generations<'a>, Memory>
        requires { 2 ≤ length self }
        ensures { IfOk result (λ later. later ≡ drop 1 self.entry) }
    {
        let Generations {
            runs,
            made,
            mut master,
        } = self;
        let edits = runs[made].edits;
        match master.make(edits) {
            Ok(()) => Ok(Generations {
                runs,
                made: made + 1,
                master,
            }),
            // The plan made these edits before: only memory can be wanting.
            Err(_) => Err(Memory),
        }
    }
}
