//! Tests of the words of a call, of turns, of sentences for people, of files and of rows, a module for each crate, over the built
//! libraries. They stand in a crate of tests alone, since a crate that has tests is proved twice.
//!
//! In which order to read: `words`, `outside`, `turns`, `explain`, `rows`.
#![tactic(auto)]

#[cfg(test)]
mod explain;
#[cfg(test)]
mod outside;
#[cfg(test)]
mod rows;
#[cfg(test)]
mod turns;
#[cfg(test)]
mod words;
