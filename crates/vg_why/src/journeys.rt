//! How packets went.
ghost use Rattle.std.specs.Prelude.{◌≡◌, ◌<◌, List, length};
ghost use Rattle.vg_model.specs.Journey.{Journey, end_of as end_of_journey};
ghost use Rattle.vg_model.specs.Visit.{Visit};
ghost use Rattle.vg_replay.specs.Legs.{outcome_of};
ghost use Rattle.vg_why.specs.Journeys.{IsGone};
ghost use Rattle.vg_why.specs.Trips.{gone_of, AreTrips, AreLegsUnder, AreUnder};

use vg_model::{DropError, End, Memory};
use vg_replay::{Input, Outcome, Trips};
use vg_ways::{Stages, Went};

// How a packet ended: the packet of a refused push was dropped by the node that handed it over.
fn end_of(outcome: Outcome) -> End
    ensures { result ≡ end_of_journey (outcome_of outcome) }
{
    match outcome {
        Outcome::Sent { interface } => End::Tx { interface },
        Outcome::Dropped { node, error } => End::Dropped { node, error },
        Outcome::Handed { node, .. } => End::Dropped {
            node,
            error: DropError::Congestion,
        },
    }
}

/// How a packet went, by what a replay has of it.
pub(crate) fn went_of<'a>(input: &Input<'a>, trips: &'a Trips, number: u32) -> Went<'a>
    requires number { number < length trips.now }
    requires packets { number < length input.now.capture.now.packets }
    requires lines { number < length input.now.lines.now }
    requires under { AreUnder (length input.now.plan.now.graphs) trips.now }
    ensures gone { (visit : Visit) (js : List Journey) → AreTrips (gone_of visit input.now js) input.now.lines.now trips.now
        → IsGone (gone_of visit input.now js) number result }
    ensures under { AreLegsUnder (length input.now.plan.now.graphs) result.legs.now }
{
    let place = number as usize;
    let trip = trips.get(place);
    Went {
        number,
        bytes: input.capture.packets.bytes(place),
        legs: trip.legs(),
        visits: trip.visits(),
        end: end_of(trip.outcome()),
        accepted: input.lines.get(place).congested,
    }
}

/// Makes generations until that of a packet's first leg is made, and keeps none before it: no later packet meets one of them.
pub(crate) fn advance_to(stages: &mut Stages<'_>, went: &Went<'_>) -> Result<(), Memory>
    requires under { AreLegsUnder (length stages.old.plan.graphs) went.now.legs.now }
    ensures plan { stages.new.plan ≡ stages.old.plan }
{
    match went.legs.first() {
        Some(leg) => stages.advance_to(leg.generation),
        None => Ok(()),
    }
}
