//! The words of the command line: what they ask for.
//!
//! In which order to read: `commands`, `reading` with `checks` and `numbers`, `check_words`; then `laws`.
#![tactic(auto)]

mod check_words;
mod checks;
pub mod commands;
pub mod laws;
mod numbers;
mod reading;

pub use commands::{Check, Command, Run};
pub use reading::read_words;
