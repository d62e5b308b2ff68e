//! Tests of values and tables, graphs, plans and processes, a module for each crate, over the built libraries. They stand in a crate of
//! tests alone, since a crate that has tests is proved twice.
//!
//! In which order to read: `checks`, `model`, `graph`, `fib`, `fib6`, `plan`, `plan_routes`, `process`.
#![tactic(auto)]

#[cfg(test)]
mod checks;
#[cfg(test)]
mod fib;
#[cfg(test)]
mod fib6;
#[cfg(test)]
mod graph;
#[cfg(test)]
mod model;
#[cfg(test)]
mod plan;
#[cfg(test)]
mod plan_routes;
#[cfg(test)]
mod process;
