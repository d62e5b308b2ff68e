//! Tests of what a worker has by itself: buffers and chains of them, frames, forks, nodes and counters, a module for each crate, over the
//! built libraries. They stand in a crate of tests alone, since a crate that has tests is proved twice.
//!
//! In which order to read: `checks`, `pool` with `chains`, `frame`, `fork`, `nodes`, `counters`.
#![tactic(auto)]

#[cfg(test)]
mod chains;
#[cfg(test)]
mod checks;
#[cfg(test)]
mod counters;
#[cfg(test)]
mod fork;
#[cfg(test)]
mod frame;
#[cfg(test)]
mod nodes;
#[cfg(test)]
mod pool;
