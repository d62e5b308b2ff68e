//! Takes packets through the generations of a plan once more, under the choices in a report's lines. The line of a packet names the
//! generation of each of its legs, and, where its last push was refused, how many frames the refusing queue had accepted.
//!
//! [`replay`] has no frames, queues or threads: which worker a leg is on follows from where the packet was handed over. Packets are
//! taken generation by generation, so that one fork is there at a time; a packet whose next leg is of a later generation waits.
//!
//! In which order to read: `inputs`, `times`, `legs` with `walkers` and `chains`, `trips`, `underway` with `schedules`, `counting`,
//! `replaying`.
#![tactic(auto)]

mod chains;
mod counting;
mod inputs;
pub mod legs;
pub mod replaying;
mod schedules;
mod times;
pub mod trips;
mod underway;
mod walkers;

pub use inputs::Input;
pub use legs::Outcome;
pub use replaying::{ReplayError, Replayed, replay};
pub use trips::{Trip, Trips, copied};
