//! Tests of the replay of a report and of the checker, a module for each, over the built libraries. They stand in a crate of tests alone,
//! since a crate that has tests is proved twice.
#![tactic(auto)]

#[cfg(test)]
mod check;
#[cfg(test)]
mod replay;
