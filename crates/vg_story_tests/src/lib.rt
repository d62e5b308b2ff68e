//! Tests of what is shown of packets' visits and ways, over the built libraries. They stand in a crate of tests alone, since a crate that has
//! tests is proved twice.
//!
//! In which order to read: `checks`, `story`, `ways`.
#![tactic(auto)]

#[cfg(test)]
mod checks;
#[cfg(test)]
mod story;
#[cfg(test)]
mod ways;
