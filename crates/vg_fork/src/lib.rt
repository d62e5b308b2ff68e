//! A worker's own graph: one generation of the whole graph, by numbers, with its IPv4 routes in a trie and its IPv6 routes in spans.
//!
//! A [`Fork`] is made once for each generation, and all memory is taken then. Its readers look up a place of an array,
//! [`Fork::target`] at most three, and [`Fork::target6`] some fifty; none of them takes memory or a lock. They lend the target, so that
//! one of its adjacencies can be picked where the list lies.
#![tactic(auto)]

pub mod forks;

pub use forks::Fork;
