//! What a run puts out, as definitions and laws, and a checker: whether a report and a savefile are what a run may have put out.
//!
//! A report's packet lines name what the run chose: the generation of each leg, and how many frames a full queue had accepted.
//! [`check`] takes each packet once through the generations that its line names, and so finds what a run of any number of
//! workers had to put out, without a worker, a queue or a thread.
//!
//! In which order to read: `verdicts`, `checks`, `agreement` with `reporting`, `pushes`, `saves`; then `laws`.
#![tactic(auto)]

mod agreement;
pub mod checks;
pub mod laws;
mod pushes;
mod reporting;
mod saves;
pub mod verdicts;

pub use checks::check;
pub use verdicts::Verdict;
