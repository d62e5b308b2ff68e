//! What is left in a queue that is closed.
ghost use Rattle.std.specs.Prelude.{◌≡◌, ◌++◌, true, length, drop};
ghost use Rattle.std.specs.Arc.{arc_value};
ghost use Rattle.crossbeam_queue.specs.Passes.{view, IsPassOf};

use crate::logs::{Line, LinePass, Take};
use std::alloc::Global;
use std::sync::{Arc, Wait};

/// The items that were put and not taken, once both ends are gone.
#[derive(Drop)]
pub struct Rest<T: Drop> {
    pub(crate) line: Arc<Line<T>, Global>,
    pub(crate) pass: LinePass<T>,
    ghost seated: { IsPassOf (arc_value line) pass },
    ghost both: { ((view pass).puts ≡ true) × ((view pass).takes ≡ true) },
    ghost prefix: { (view pass).put ≡ (view pass).taken ++ drop (length (view pass).taken) (view pass).put },
}

impl<T: Drop> Rest<T> {
    ghost use Rattle.std.specs.Prelude.{[], ◌∷◌, IfNone, IfSome};
    ghost use Rattle.vg_queue.specs.Rests.{all_put, left};

    /// The oldest item that is left. `None` comes exactly at their end.
    pub fn next<R: Wait>(&mut self, rt: &R) -> Option<T>
        ensures item { IfSome result (λ item. left self.old ≡ item ∷ left self.new) }
        ensures none { IfNone result ((left self.old ≡ []) × (left self.new ≡ [])) }
        ensures put { all_put self.new ≡ all_put self.old }
    {
        self.line.pop_as::<Take, R>(rt, &mut self.pass)
    }
}
