//! Laws of scripts: each is a function whose contract is the law.
ghost use Rattle.vg_script.specs.EventOrder.{EventsAreInOrder, EventsAreOfBlocks, EventsAreCounted, EventsAreStrictlyInOrder, OrderIsUnique, EventsAreFew, EventsAreSoon};
ghost use Rattle.vg_script.specs.RoundTrip.{ReadsBack, ReadsLawful};

/// A lawful script that was printed is read back: the same edits and blocks, now on the lines 1, 2 and so on. Its text may
/// have at most 262,144 bytes.
pub fn printed_is_read_back()
    ensures { ReadsBack }
{}

/// What is read is a lawful script.
pub fn read_is_lawful()
    ensures { ReadsLawful }
{}

/// The events of a script are those of its blocks, as many as these ask for, by time, then by the line of the block, then by
/// occurrence. No two events of a lawful script stand in one place, so this is the only order of them.
pub fn events_are_in_order()
    ensures blocks { EventsAreOfBlocks }
    ensures count { EventsAreCounted }
    ensures order { EventsAreInOrder }
    ensures strict { EventsAreStrictlyInOrder }
    ensures only { OrderIsUnique }
{}

/// A lawful script has at most 999 events, each at a time of at most 999,000,000,000,000.
pub fn events_are_few()
    ensures count { EventsAreFew }
    ensures time { EventsAreSoon }
{}
