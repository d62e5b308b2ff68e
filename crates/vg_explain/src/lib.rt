//! Sentences for people: what a refused call found, and what to do. They go to the standard error, and change nothing of what a program
//! answers or prints.
//!
//! In which order to read: `explaining`, `commands`, `captures`, `scripts` with `statements`, `marks` and `nodes`, `text`; `keeping` by itself.
#![tactic(auto)]

mod captures;
mod commands;
mod explaining;
mod keeping;
mod marks;
mod nodes;
mod scripts;
mod statements;
mod text;

pub use captures::{LOOKED_AT, capture_fault};
pub use commands::{USAGE, asks_for_help, file_named, turns_named, words_fault};
pub use explaining::{Called, explain, explain_not_utf8, explain_vgd};
pub use keeping::Keeping;
pub use scripts::script_fault;
pub use text::{report_fault, turns_fault, verdict};
