//! A law of counts: a function whose contract is the law.
ghost use Rattle.vg_why.specs.Reported.{CountsAreReported};

/// A report that a check accepts is that of its packets' journeys. The printed counts add up to those of such a report: over all generations,
/// packets, interfaces and drops.
pub fn counts_are_reported()
    ensures { CountsAreReported }
{}
