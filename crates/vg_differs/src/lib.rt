//! Where a check differs: the first record of a savefile, and the first line of a report, that is another than what its packets come to.
//!
//! [`judge`] checks a call's files, as `vg_files` loads them, and finds it by the verdict; [`find_difference`] finds it of what is read already.
//! [`print_finding`] writes a [`sentence`] on it to the standard error.
//!
//! In which order to read: `checked`, `places`, `lines`, `records`, `saved`, `wanted`, `finding`, `judging`; then `sentences`.
#![tactic(auto)]

pub mod checked;
pub mod finding;
pub mod judging;
pub mod lines;
pub mod places;
pub mod records;
pub mod saved;
mod sentences;
pub mod wanted;

pub use checked::Checked;
pub use finding::{Finding, find_difference};
pub use judging::{Judged, judge};
pub use lines::OtherLine;
pub use places::first_difference;
pub use records::{Fault, Part, Spot};
pub use saved::OtherFile;
pub use sentences::{print_finding, sentence};
