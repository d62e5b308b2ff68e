//! Where what a check was given differs from what it wants.
ghost use Rattle.std.specs.Prelude.{◌≡◌, ◌≤◌, ◌+◌, length, IfOk, MatchOption};
ghost use Rattle.vg_plan.specs.Plan.{IsPlan};
ghost use Rattle.vg_script.specs.Events.{events};
ghost use Rattle.vg_check.specs.Verdicts.{IsVerdict};
ghost use Rattle.vg_differs.specs.Findings.{accepted_of as accepted_in, case_checked, HasWays, IsFound, IsOtherSaved, IsOtherText, IsSaved, IsText};
ghost use Rattle.vg_differs.specs.Ways.{AreWays};
ghost use Rattle.vg_report.specs.Reading as reading;

use crate::checked::Checked;
use crate::lines::{OtherLine, other_line};
use crate::saved::{OtherFile, other_file};
use crate::wanted::wanted_report_text;
use std::alloc::Global;
use vg_capture::Capture;
use vg_check::Verdict;
use vg_model::Memory;
use vg_nodes::KindSet;
use vg_plan::Plan;
use vg_replay::{Input, Replayed, replay};
use vg_report::{PacketLines, Report, read_report};

/// Where what a check was given differs from what it wants.
#[derive(Drop)]
pub enum Finding {
    /// The line of this packet, the first such, names a choice that can't be: it came at this time, in microseconds, and this generation was due.
    Choices {
        number: u32,
        time: u64,
        due: u32,
    },
    /// The line of this packet, the first such, names a count of a queue of so many slots that can't have been full.
    Queue {
        number: u32,
        accepted: Option<u64>,
        slots: u64,
    },
    /// A line of the report is another.
    Text(OtherLine),
    /// A byte of the savefile is another.
    Tx(OtherFile),
}

// What holds of each plan, and how many packets a capture has.
fn know_plan(plan: &Plan, capture: &Capture)
    ensures plan { IsPlan plan.now }
    ensures events { length plan.now.graphs ≡ length (events plan.now.script) + 1 }
    ensures few { length capture.now.packets ≤ 65536 }
{
    let _generations = plan.generations();
    let _packets = capture.packets.len();
}

// The report of a text that is one.
fn report_of(alloc: Global, text: &[u8]) -> Result<Report, Memory>
    ensures { IfOk result (λ report. reading.report_of text.now ≡ Ok report) }
{
    match read_report(alloc, text) {
        Ok(report) => Ok(report),
        Err(_) => Err(Memory),
    }
}

// The report of a check, and what came of its packets: their ways are known to be there.
fn ways<K: KindSet>(
    alloc: Global,
    checked: &Checked<'_>,
    kinds: &K,
) -> Result<(Report, Replayed), Memory>
    requires { HasWays (case_checked K.meaning checked.now) }
    ensures { IfOk result (λ found. AreWays (case_checked K.meaning checked.now) found.0 found.1) }
{
    let report = report_of(alloc, checked.report)?;
    know_plan(checked.plan, checked.capture);
    let input = Input {
        plan: checked.plan,
        capture: checked.capture,
        workers: report.workers,
        lines: &report.packets,
        traced: report.traces.as_slice().len(),
    };
    match replay(alloc, &input, kinds) {
        Ok(replayed) => Ok((report, replayed)),
        Err(_) => Err(Memory),
    }
}

// The first line of the report that is another than the one of the packets' ways.
fn other_text<K: KindSet>(
    alloc: Global,
    checked: &Checked<'_>,
    kinds: &K,
) -> Result<Option<OtherLine>, Memory>
    requires { HasWays (case_checked K.meaning checked.now) }
    ensures { IfOk result (λ line. MatchOption line (IsText (case_checked K.meaning checked.now)) (IsOtherText (case_checked K.meaning checked.now))) }
{
    let (report, replayed) = ways(alloc, checked, kinds)?;
    let wanted = wanted_report_text(alloc, &report, &replayed)?;
    let line = other_line(alloc, checked.report, wanted.as_slice())?;
    Ok(line)
}

// Where the savefile first is another than the one of the packets' ways.
fn other_saved<K: KindSet>(
    alloc: Global,
    checked: &Checked<'_>,
    kinds: &K,
) -> Result<Option<OtherFile>, Memory>
    requires { HasWays (case_checked K.meaning checked.now) }
    ensures { IfOk result (λ other. MatchOption other (IsSaved (case_checked K.meaning checked.now)) (IsOtherSaved (case_checked K.meaning checked.now))) }
{
    let (_, replayed) = ways(alloc, checked, kinds)?;
    let other = other_file(alloc, checked.capture, &replayed.trips, checked.tx)?;
    Ok(other)
}

// The count of a full queue that a packet's line names.
fn accepted_of(lines: &PacketLines, number: u32) -> Option<u64>
    ensures { result ≡ accepted_in lines.now number }
{
    let number = number as usize;
    if number < lines.len() {
        lines.get(number).congested
    } else {
        None
    }
}

/// Where what a check was given differs from what it wants, by its verdict. None where the verdict is yes, where the text is no report, or where its
/// head doesn't fit.
///
/// # Errors
///
/// [`Memory`] where memory runs out.
pub fn find_difference<K: KindSet>(
    alloc: Global,
    checked: &Checked<'_>,
    kinds: &K,
    verdict: Verdict,
) -> Result<Option<Finding>, Memory>
    requires { IsVerdict (case_checked K.meaning checked.now) verdict }
    ensures { IfOk result (IsFound (case_checked K.meaning checked.now) verdict) }
{
    match verdict {
        Verdict::Choices(number) => {
            let time = checked.capture.time(number);
            Ok(Some(Finding::Choices {
                number,
                time,
                due: checked.plan.generation_of(time),
            }))
        }
        Verdict::Queue(number) => {
            let report = report_of(alloc, checked.report)?;
            Ok(Some(Finding::Queue {
                number,
                accepted: accepted_of(&report.packets, number),
                slots: checked.queue,
            }))
        }
        Verdict::Text => match other_text(alloc, checked, kinds)? {
            Some(line) => Ok(Some(Finding::Text(line))),
            None => Ok(None),
        },
        Verdict::Tx => match other_saved(alloc, checked, kinds)? {
            Some(other) => Ok(Some(Finding::Tx(other))),
            None => Ok(None),
        },
        Verdict::Yes | Verdict::Head | Verdict::Report { .. } => Ok(None),
    }
}
