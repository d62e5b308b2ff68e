//! The remarks on a run.
ghost use Rattle.std.specs.Prelude.{◌≡◌, IfOk, length};
ghost use Rattle.vg_script.specs.Lawful.{IsLawful};
ghost use Rattle.vg_remarks.specs.Remarks.{AreRemarks};

use crate::addresses::Known;
use crate::found::Found;
use crate::late::{LateEvent, late_events};
use crate::packets::{Ends, Unforwarded, ends_of};
use crate::statements::{idle_filters, led, statements};
use std::alloc::{AllocError, Global};
use vg_capture::Capture;
use vg_report::Report;
use vg_script::Script;

/// What is remarked of a run: of each kind how many there are, and the first. They are of one size, whatever the run was.
#[derive(Clone, Copy, Debug, PartialEq, Eq)]
pub struct Remarks {
    /// How many packets were dropped, each since a queue to another worker was full.
    pub congested: usize,
    /// The events behind the last packet, in their order.
    pub late: Found<LateEvent>,
    /// The lines of the script that give an interface a filter which no packet comes to: those outside blocks, then those in blocks.
    pub filters: Found<u32>,
    /// The packets that were transmitted though a router does not forward to their destinations, by number.
    pub unforwarded: Found<Unforwarded>,
}

/// The remarks on a run over a capture and a script, by its report. The packets are gone over once, and nothing that is taken of memory is
/// kept.
///
/// # Errors
///
/// [`AllocError`] where memory runs out.
pub fn remarks_on(
    alloc: Global,
    capture: &Capture,
    script: &Script,
    report: &Report,
) -> Result<Remarks, AllocError>
    requires lawful { IsLawful script.now }
    requires one_run { length report.now.packets ≡ length capture.now.packets }
    ensures { IfOk result (AreRemarks capture.now script.now report.now) }
{
    let lines = statements(alloc, script)?;
    let led = led(alloc, lines.as_slice())?;
    let known = Known::of(alloc, led.as_slice())?;
    let late = late_events(alloc, capture, script)?;
    let Ends {
        congested,
        unforwarded,
    } = ends_of(&known, &capture.packets, &report.packets);
    Ok(Remarks {
        congested,
        late,
        filters: idle_filters(lines.as_slice()),
        unforwarded,
    })
}
