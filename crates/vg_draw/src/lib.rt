//! The drawing of a generation's graph in the DOT language of Graphviz, with what a report counted.
//!
//! In which order to read: `drawing`, `lines` with `words`, `counts`, `shares`, `prefixes`, `ways`; then `laws`.
#![tactic(auto)]

mod counts;
pub mod drawing;
pub mod laws;
mod lines;
pub mod prefixes;
mod shares;
mod ways;
mod words;

pub use drawing::draw;
pub use prefixes::Routes;
