//! Books: the generations of a plan with their limits for a capture.
ghost use Rattle.std.specs.Prelude.{◌≡◌, ◌<◌, ◌≤◌, Some, length, slice_get, option_map, vec_len, zip};

use crate::plans::Plan;
use std::marker::Model;
use std::snapshot::Snapshot;

/// The generations of a plan, each with its limit: how many of a capture's packets begin in it or an earlier one.
///
/// It is seen as the list of their graphs and limits; it keeps the limits alone.
#[derive(Drop)]
pub struct Book {
    limits: Vec<u32>,
    plan: Snapshot<Plan>,
}

impl Model for Book {
    ghost use Rattle.std.specs.Prelude.{ℕ, List};
    ghost use Rattle.vg_model.specs.Graph.{Graph as WholeGraph};

    ghost Value = { List (WholeGraph × ℕ) };

    ghost use Rattle.vg_plan.specs.BookView.{windows_of, IsBook};

    ghost view = { windows_of };

    ghost invariant = { IsBook };
}

impl Book {
    // The book of a plan with these limits.
    pub(crate) fn of(plan: &Plan, limits: Vec<u32>) -> Book
        requires each { vec_len limits ≡ length plan.now.graphs }
        requires few { vec_len limits ≤ 1000 }
        ensures { result ≡ zip plan.now.graphs limits.items }
    {
        Book {
            limits,
            plan: Snapshot::of(plan),
        }
    }

    /// How many generations there are.
    pub fn generations(&self) -> u32
        ensures { result ≡ length self.now }
    {
        self.limits.len() as u32
    }

    /// The limit of a generation.
    pub fn limit(&self, generation: u32) -> u32
        requires { generation < length self.now }
        ensures { option_map (λ window. window.1) (slice_get self.now generation) ≡ Some result }
    {
        self.limits[generation as usize]
    }
}
