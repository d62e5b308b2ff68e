//! What `vgdiff` reads, finds and prints: how the packets that another router put out differ from those of a run.
//!
//! In which order to read: `top`, `words` with `prefixes`, `input` with `numbers`, `differences`, `orders` with `flows`, `lines` with `rows`, `texts`
//! and `classes`, `answers`; then `linux` with `addresses` and `reach`, `refusals`, `printing`; `explaining` by itself.
#![tactic(auto)]

pub mod addresses;
pub mod answers;
pub mod classes;
pub mod differences;
pub mod explaining;
pub mod flows;
pub mod input;
pub mod lines;
pub mod linux;
pub mod numbers;
pub mod orders;
pub mod prefixes;
pub mod printing;
pub mod reach;
pub mod refusals;
pub mod rows;
pub mod texts;
pub mod top;
pub mod words;

pub use explaining::explain_diff;
pub use top::diff_run;
