//! What is counted of a packet that is through.
ghost use Rattle.std.specs.Prelude.{◌++◌};
ghost use Rattle.vg_model.specs.declared.fates.End.{End};
ghost use Rattle.vg_model.specs.declared.fates.End.TheVariants as ends;
ghost use Rattle.vg_model.specs.Journey.{end_of};
ghost use Rattle.vg_model.specs.Count.{drop_visit};
ghost use Rattle.vg_replay.specs.Counts.{CanVisit, CanEnd, CanCount, AddsVisits, Adds};
ghost use Rattle.vg_replay.specs.Legs.{outcome_of};

use crate::legs::Outcome;
use vg_counters::Counters;
use vg_model::DropError;
use vg_model::start::ERROR_DROP;

// Counts visits of nodes.
fn count_visits(counts: &mut Counters, visits: &[u16])
    requires { CanVisit visits.now counts.old }
    ensures { AddsVisits visits.now counts.old counts.new }
{
    for node in visits {
        counts.visit(*node, 1);
    }
}

// Counts a drop, and the visit of the node that drops where another one decided it.
fn count_drop(counts: &mut Counters, node: u16, error: DropError)
    requires { CanEnd (ends.Dropped node error) counts.old }
    ensures { Adds (drop_visit (ends.Dropped node error)) (ends.Dropped node error) counts.old counts.new }
{
    let _nodes = counts.nodes();
    counts.dropped(node, error);
    if node != ERROR_DROP {
        counts.visit(ERROR_DROP, 1);
    }
}

// Counts how a packet ended.
fn count_end(counts: &mut Counters, outcome: Outcome)
    requires { CanEnd (end_of (outcome_of outcome)) counts.old }
    ensures { Adds (drop_visit (end_of (outcome_of outcome))) (end_of (outcome_of outcome)) counts.old counts.new }
{
    match outcome {
        Outcome::Sent { interface } => counts.sent(interface),
        Outcome::Dropped { node, error } => count_drop(counts, node, error),
        Outcome::Handed { node, .. } => count_drop(counts, node, DropError::Congestion),
    }
}

/// Counts the nodes that a packet visited, and how it ended.
pub(crate) fn count(counts: &mut Counters, visits: &[u16], outcome: Outcome)
    requires { CanCount visits.now (end_of (outcome_of outcome)) counts.old }
    ensures { Adds (visits.now ++ drop_visit (end_of (outcome_of outcome))) (end_of (outcome_of outcome)) counts.old counts.new }
{
    count_visits(counts, visits);
    count_end(counts, outcome);
}
