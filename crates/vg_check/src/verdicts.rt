//! What the checker answers.

use vg_report::ReportCause;

/// What the checker answers: the first of its points that fails, in this order, or `Yes`.
#[derive(Clone, Copy, Debug, PartialEq, Eq)]
pub enum Verdict {
    /// The report and the savefile are just what lawful choices make.
    Yes,
    /// The text is no report: the first line that can't stand where it stands, and its cause, which is never want of memory.
    Report { line: u32, cause: ReportCause },
    /// The report's buffers are out of range for its workers, or its generations or packets are not the plan's and the capture's.
    Head,
    /// This packet's line names a choice that can't be, and no earlier packet's does: by it the packet has no journey, or its generations
    /// begin with another than that of its time, fall, or aren't there.
    Choices(u32),
    /// This is the first packet whose line names a count of a full queue that is below the queue's slots, or above the number of
    /// packets that went over that queue.
    Queue(u32),
    /// The text is not that of the report of the journeys under its choices.
    Text,
    /// The savefile is not that of these journeys.
    Tx,
}
