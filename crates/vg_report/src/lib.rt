//! The report of a run as text: the pool's length at the end, the counts of interfaces, nodes and errors,
//! each packet's fate, and the traces. `specs/Text` says which text, `specs/Lawful` which reports may be.
//!
//! In which order to read: `reports` with `lists`, `pieces`, `laying`, `writing`; then `kinds`, `words` with `parts`, `lines`, `reading` with `errors`; then
//! `laws`.
#![tactic(auto)]

pub mod errors;
mod kinds;
pub mod laws;
mod laying;
mod lines;
pub mod lists;
mod parts;
mod pieces;
mod reading;
pub mod reports;
mod words;
mod writing;

pub use errors::{ReportCause, ReportError};
pub use lists::{ErrorCounts, NameCounts, Names, PacketLines, TraceLines};
pub use reading::read_report;
pub use reports::{EndRef, LegsRef, LineRef, PacketEnd, PacketLine, Report};
pub use writing::write_report;
