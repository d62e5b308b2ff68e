//! The plan of a script: its generations, their times, and the graph that main edits.
//!
//! A script's edits outside blocks make generation 0 of the start graph. Each run of a block's group is an event, and makes
//! the next generation. A packet begins in the generation of the events up to its time, so that each generation has a
//! limit: the number of the first packet that begins in a later one.
//!
//! In which order to read: `masters`, `events`, `generations`, `windows`, `plans` with `books`, `laws`.
#![tactic(auto)]

mod books;
pub mod events;
mod generations;
pub mod laws;
pub mod masters;
pub mod plans;
mod windows;

pub use books::Book;
pub use generations::Generations;
pub use masters::Master;
pub use plans::Plan;
