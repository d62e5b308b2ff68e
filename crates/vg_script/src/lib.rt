//! Scripts: the text that says how the graph is edited, read and printed.
//!
//! A script is lines of words. Outside blocks stand the edits that are made before the first packet; an `at` or a `process`
//! begins a block, whose edits are made while packets go through the graph.
//!
//! In which order to read: `scripts` with `lists`, `statements`, `words` with `parts`, `classes` with `address6`, `reader`, `reading` with
//! `errors`; then `writing` and `laws`.
#![tactic(auto)]

mod address6;
mod classes;
pub mod errors;
pub mod laws;
pub mod lists;
mod parts;
mod reader;
mod reading;
pub mod scripts;
mod statements;
mod words;
mod writing;

pub use errors::{ScriptCause, ScriptError};
pub use lists::{Blocks, Groups};
pub use reading::{LARGEST_SCRIPT, parse_script};
pub use scripts::{Block, Script};
pub use writing::print_script;
