//! Tests of scripts, over the built library: their statements, how each word may be spelled, and how they are written. They stand in a crate
//! of tests alone, since a crate that has tests is proved twice.
//!
//! In which order to read: `script`.
#![tactic(auto)]

#[cfg(test)]
mod script;
