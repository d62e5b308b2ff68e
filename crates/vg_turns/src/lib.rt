//! Turns files: they say in which order main and the workers of a run make their steps.
//!
//! Each `m` lets main make a step and each digit the worker that it numbers; white space only parts them. Any other byte is a fault, a
//! digit that no worker has too, and so is each byte past the first 1,048,576.
//!
//! ```text
//! let mut turns = Turns::read(b"0m 01m", 2)?;
//! turns.next()  // worker 0, main, worker 0, worker 1, main, and then None
//! ```
//!
//! [`Turns`] lies over the bytes of the file, so reading takes no memory.
#![tactic(auto)]

mod reading;
mod steps;

pub use reading::{MOST_BYTES, Turns};
pub use steps::Step;
