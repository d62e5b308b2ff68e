//! What a check is given.

use vg_capture::Capture;
use vg_plan::Plan;

/// What a check is given: a savefile and a report, and what they are held against.
#[derive(Clone, Copy)]
pub struct Checked<'a> {
    /// The generations and their times.
    pub plan: &'a Plan,
    /// The packets.
    pub capture: &'a Capture,
    /// How many frames a handoff queue has.
    pub queue: u64,
    /// The bytes of the savefile.
    pub tx: &'a [u8],
    /// The text of the report.
    pub report: &'a [u8],
}
