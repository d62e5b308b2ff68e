//! Savefiles, in the format of pcap-savefile(5): read into packets with the first fault named, and written record by record; the time of each
//! packet.
//!
//! In which order to read: `layout`, `captures`, `records`, `reading` with `errors`; then `times`, `writing` and `laws`.
#![tactic(auto)]

pub mod captures;
pub mod errors;
pub mod laws;
mod layout;
mod reading;
mod records;
pub mod times;
mod writing;

pub use captures::{Capture, Captured, Marks, Packets, Sent, Stretch, know_few};
pub use errors::CaptureError;
pub use layout::{LARGEST_FILE, LONGEST_RECORD};
pub use reading::read_capture;
pub use writing::{Savefile, write_capture};
