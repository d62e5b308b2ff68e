//! A script's blocks as processes on a timer wheel, which give the next event.
//!
//! In which order to read: `states` with `copies`, `timers` with `queue`, `schedule`.
#![tactic(auto)]

mod copies;
mod queue;
mod schedule;
mod states;
mod timers;

pub use schedule::{Due, Processes};
