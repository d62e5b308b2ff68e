//! Tests of runs, of the workers and of their barrier: what several crates come to together. It is tests alone.
//!
//! In which order to read: `run_tests`, `frame_tests`, `chain_tests`, `thread_tests`, `barrier_tests`.
#![tactic(auto)]

#[cfg(test)]
mod barrier_tests;
#[cfg(test)]
mod chain_tests;
#[cfg(test)]
mod frame_tests;
#[cfg(test)]
mod run_tests;
#[cfg(test)]
mod thread_tests;
