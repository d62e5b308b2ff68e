//! How a visit of a node ends in most cases.
ghost use Rattle.std.specs.Prelude.{◌≡◌};

use vg_model::{DropError, Step};

/// The step over slot 0 of a node.
pub const NEXT: Step = Step::Next { slot: 0 };

/// The step of a drop with this error.
#[inline]
pub fn dropped(error: DropError) -> Step
    ensures { result ≡ Step.Dropped error }
{
    Step::Dropped { error }
}
