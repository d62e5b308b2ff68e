//! What packets are taken through.

use vg_capture::Capture;
use vg_plan::Plan;
use vg_report::PacketLines;

/// What packets are taken through: the generations of a plan, on so many workers, each packet under the choices that its line names.
#[derive(Clone, Copy)]
pub struct Input<'a> {
    /// The generations and their times.
    pub plan: &'a Plan,
    /// The packets.
    pub capture: &'a Capture,
    /// How many workers there are, 1 to 8.
    pub workers: u8,
    /// A line for each packet. Its legs' generations and its count are the choices; its legs' workers and its end are not read.
    pub lines: &'a PacketLines,
    /// Of how many packets, the first ones, the nodes visited are kept.
    pub traced: usize,
}
