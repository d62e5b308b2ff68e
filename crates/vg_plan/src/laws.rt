//! Laws of plans: each is a function whose contract is the law.
ghost use Rattle.vg_plan.specs.Plan.{Planned, IsPlan, FirstIsMade, EventsAreMade, LimitsAreFronts, DropsAreOne};

/// The edits of a plan can all be made, in their order: those outside blocks make generation 0 of the start graph, and those
/// of each event make its generation of the one before.
pub fn events_are_made()
    ensures first { (plan : Planned) → IsPlan plan → FirstIsMade plan }
    ensures next { (plan : Planned) → IsPlan plan → EventsAreMade plan }
{}

/// The packets whose numbers are below a generation's limit are those that begin in it or an earlier one.
pub fn limits_are_fronts()
    ensures { LimitsAreFronts }
{}

/// In each generation one node alone is of the kind that drops, since scripts make no nodes of that kind. So a drop at another node
/// than `error-drop` is one at a node of another kind: whether a visit of `error-drop` is counted behind it doesn't hang on which
/// of the two is asked.
pub fn the_node_that_drops_is_one()
    ensures { (plan : Planned) → IsPlan plan → DropsAreOne plan }
{}
