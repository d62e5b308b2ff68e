//! What became of packets, as workers log it and as a report reads it: most fates in 16 bytes each, every one whole.
#![tactic(auto)]

pub mod logs;

pub use logs::{FateList, FateLog, FateRef};
