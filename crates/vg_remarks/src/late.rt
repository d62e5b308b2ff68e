//! The events behind the last packet.
ghost use Rattle.std.specs.Prelude.{◌≡◌, IfOk};
ghost use Rattle.vg_plan.specs.Run.{seen};
ghost use Rattle.vg_script.specs.Lawful.{IsLawful};
ghost use Rattle.vg_remarks.specs.Found.{IsFound};
ghost use Rattle.vg_remarks.specs.Late.{is_behind as behind, last_time as time_of_last_packet, late_events as events_behind, late_of};

use crate::found::Found;
use std::alloc::{AllocError, Global};
use vg_capture::Capture;
use vg_plan::events::{Run, in_order};
use vg_script::Script;

/// An event behind the last packet.
#[derive(Clone, Copy, Debug, PartialEq, Eq)]
pub struct LateEvent {
    /// The line on which its block begins, counted from 1.
    pub line: u32,
    /// When it comes, in microseconds from the first packet.
    pub time: u64,
    /// The time of the last packet, where there is one.
    pub last: Option<u64>,
}

// The time of the last packet in microseconds, where there is one.
fn last_time(capture: &Capture) -> Option<u64>
    ensures { result ≡ time_of_last_packet capture.now }
{
    match capture.count() {
        0 => None,
        packets => Some(capture.time(packets - 1)),
    }
}

// Whether a time is later than the last packet's.
fn is_behind(last: Option<u64>, time: u64) -> bool
    ensures { result ≡ behind last time }
{
    match last {
        None => true,
        Some(last) => last < time,
    }
}

// What is remarked of an event: that it is later than the last packet.
fn late(last: Option<u64>, run: &Run<'_>) -> Option<LateEvent>
    ensures { result ≡ late_of last (seen run.now) }
{
    if is_behind(last, run.time) {
        Some(LateEvent {
            line: run.line,
            time: run.time,
            last,
        })
    } else {
        None
    }
}

/// The events behind the last packet, in their order; all of them where there is no packet.
///
/// # Errors
///
/// [`AllocError`] where memory runs out.
pub fn late_events(
    alloc: Global,
    capture: &Capture,
    script: &Script,
) -> Result<Found<LateEvent>, AllocError>
    requires { IsLawful script.now }
    ensures { IfOk result (IsFound (events_behind capture.now script.now)) }
{
    let runs = in_order(alloc, script)?;
    let mut found = Found::none();
    if runs.is_empty() {
        return Ok(found);
    }
    let last = last_time(capture);
    for run in runs.as_slice() {
        found = found.with(late(last, run));
    }
    Ok(found)
}
