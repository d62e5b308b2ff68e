//! The graph of nodes, interfaces and adjacencies that packets go through, and its edits.
//!
//! In which order to read: `nodes`, `addresses`, `lists`, `graphs` with `errors` and `search`, `start`.
#![tactic(auto)]

mod addresses;
pub mod errors;
pub mod graphs;
mod lists;
mod nodes;
mod search;
mod start;

pub use errors::GraphError;
pub use graphs::Graph;
