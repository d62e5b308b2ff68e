//! Tests of what workers hand packets over by: steps, ring and queue, barrier, handed and held frames, a module for each crate, over the
//! built libraries. They stand in a crate of tests alone, since a crate that has tests is proved twice.
//!
//! In which order to read: `checks`, `steps`, `ring`, `queue`, `barrier`, `hands`, `backlog`.
#![tactic(auto)]

#[cfg(test)]
mod backlog;
#[cfg(test)]
mod barrier;
#[cfg(test)]
mod checks;
#[cfg(test)]
mod hands;
#[cfg(test)]
mod queue;
#[cfg(test)]
mod ring;
#[cfg(test)]
mod steps;
