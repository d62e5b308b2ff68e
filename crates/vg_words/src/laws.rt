//! Laws of command words: each is a function whose contract is the law.
ghost use Rattle.vg_words.specs.Ranges.{LoadsInRange, RunsInRange};

/// The options of a run that words ask for are in their ranges.
pub fn runs_are_in_range()
    ensures { RunsInRange }
{}

/// The packets and the workers of a load that words ask for are in their ranges.
pub fn loads_are_in_range()
    ensures { LoadsInRange }
{}
