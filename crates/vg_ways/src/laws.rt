//! Laws of ways and of counts: each is a function whose contract is the law.
ghost use Rattle.vg_ways.specs.Legs.{JourneysAreShown};
ghost use Rattle.vg_ways.specs.Logs.{CountsAddUp, LeftAreSent};

/// What is counted under each generation adds up to what is counted of all entries.
pub fn counts_add_up()
    ensures { CountsAddUp }
{}

/// What is counted of a packet as transmitted to neighbors and to none is what is counted as transmitted on interfaces.
pub fn left_are_sent()
    ensures { LeftAreSent }
{}

/// Where the legs and the visits of a journey are shown, each leg's under the graph of its generation, the packet comes out as that of the
/// journey: so what is shown of a packet is its journey under its choice.
pub fn journeys_are_shown()
    ensures { JourneysAreShown }
{}
