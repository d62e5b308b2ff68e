//! The parts of a report: what was counted and what became of packets, by the names of a graph's interfaces and nodes.
#![tactic(auto)]

mod parts;

pub use parts::{errors, interfaces, lines, nodes, traces};
