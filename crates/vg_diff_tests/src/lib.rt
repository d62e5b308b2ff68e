//! Tests of the comparison with another router, over the built libraries. They stand in a crate of tests alone, since a crate that has tests
//! is proved twice.
#![tactic(auto)]

#[cfg(test)]
mod calls;
#[cfg(test)]
mod router;
