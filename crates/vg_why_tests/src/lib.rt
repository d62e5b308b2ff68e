//! Tests of why packets went where they went, over the built libraries. They stand in a crate of tests alone, since a crate that has tests is
//! proved twice.
#![tactic(auto)]

#[cfg(test)]
mod calls;
