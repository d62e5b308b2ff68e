//! The files of a call: how they are loaded and read, why a call is refused, and how its text is printed.
//!
//! [`load_files`] loads the capture, the script and the turns file of a run, and [`read_files`] says what they say, or why they are
//! refused; [`load_checked`] loads what a check reads. [`Refusal`] has the exit status and the line of each refusal, and [`print`]
//! writes a whole text to a sink. [`KINDS`] are the kinds of nodes that runs and checks visit.
//!
//! In which order to read: `kinds`, `loading`, `reading`, `checking`, `refusals`, `printing`.
#![tactic(auto)]

mod checking;
mod kinds;
mod loading;
mod printing;
mod reading;
mod refusals;

pub use checking::{CheckFiles, load_checked};
pub use kinds::{KINDS, VgdKinds};
pub use loading::{Files, load_files};
pub use printing::print;
pub use reading::{Input, read_files, read_script};
pub use refusals::{Refusal, Stop};
