//! The top call: [`vgd_run`] does what the words after the program's name ask for, over a folder, a sink and a gate.
//!
//! A run sends the packets of a capture through the graphs of a script, a load does so with packets of its own, and a check says whether
//! a run may have put out a savefile and a report. Its laws are in [`laws`].
//!
//! In which order to read: `top`, `run`, `reporting`, `lossless`, `checking`, `load`; `dues` and `done` say what a call answers, `laws`
//! what follows.
#![tactic(auto)]

mod checking;
mod done;
mod dues;
pub mod laws;
mod load;
mod lossless;
mod reporting;
mod run;
mod top;

pub use done::{Done, RunEnd};
pub use load::{Counts, run_both};
pub use top::vgd_run;
