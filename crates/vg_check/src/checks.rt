//! The check.
ghost use Rattle.std.specs.Prelude.{◌≡◌, ◌↔◌, ◌+◌, ◌≤◌, Ok, Err, length, IsTrue, IfOk};
ghost use Rattle.std.specs.List.{AllByRecursion};
ghost use Rattle.vg_plan.specs.Plan.{IsPlan};
ghost use Rattle.vg_report.specs.Lawful.{IsLawful};
ghost use Rattle.vg_script.specs.Events.{events};
ghost use Rattle.vg_check.specs.Points.{IsHead};
ghost use Rattle.vg_check.specs.Verdicts.{IsVerdict, IsAccepted, IsReadAs, case_of};

use crate::agreement::is_reported;
use crate::pushes::first_unlawful;
use crate::saves::is_saved;
use crate::verdicts::Verdict;
use std::alloc::Global;
use vg_capture::Capture;
use vg_model::Memory;
use vg_model::limits::{FRAME_SIZE, MOST_BUFFERS};
use vg_nodes::KindSet;
use vg_plan::Plan;
use vg_replay::{Input, ReplayError, replay};
use vg_report::{Report, ReportCause, read_report};

// Whether a report's head fits a plan and a capture.
fn is_head(plan: &Plan, capture: &Capture, report: &Report) -> bool
    requires { IsLawful report.now }
    ensures { IsTrue result ↔ IsHead plan.now capture.now report.now }
{
    FRAME_SIZE as u32 * u32::from(report.workers) + FRAME_SIZE as u32 <= report.buffers
        && report.buffers <= MOST_BUFFERS
        && report.generations == plan.generations()
        && report.packets.len() == capture.count() as usize
}

// The report of a text, or the refusal of it.
fn read(alloc: Global, text: &[u8]) -> Result<Result<Report, Verdict>, Memory>
    ensures { IfOk result (IsReadAs text.now) }
{
    match read_report(alloc, text) {
        Ok(report) => Ok(Ok(report)),
        Err(error) => match error.cause {
            ReportCause::Memory => Err(Memory),
            cause => Ok(Err(Verdict::Report {
                line: error.line,
                cause,
            })),
        },
    }
}

// What holds of each plan, and how many packets a capture has.
fn know_plan(plan: &Plan, capture: &Capture)
    ensures plan { IsPlan plan.now }
    ensures events { length plan.now.graphs ≡ length (events plan.now.script) + 1 }
    ensures few { length capture.now.packets ≤ 65536 }
{
    let _generations = plan.generations();
    let _packets = capture.packets.len();
}

// The verdict.
fn verdict<K: KindSet>(
    alloc: Global,
    plan: &Plan,
    capture: &Capture,
    queue: u64,
    kinds: &K,
    tx: &[u8],
    text: &[u8],
) -> Result<Verdict, Memory>
    ensures { IfOk result (IsVerdict (case_of K.meaning plan.now capture.now queue tx.now text.now)) }
{
    let report = match read(alloc, text)? {
        Ok(report) => report,
        Err(verdict) => return Ok(verdict),
    };
    if !is_head(plan, capture, &report) {
        return Ok(Verdict::Head);
    }
    know_plan(plan, capture);
    let input = Input {
        plan,
        capture,
        workers: report.workers,
        lines: &report.packets,
        traced: report.traces.as_slice().len(),
    };
    let replayed = match replay(alloc, &input, kinds) {
        Ok(replayed) => replayed,
        Err(ReplayError::Choices(number)) => return Ok(Verdict::Choices(number)),
        Err(ReplayError::Memory) => return Err(Memory),
    };
    let trips = &replayed.trips;
    if let Some(number) = first_unlawful(queue, &report.packets, trips) {
        return Ok(Verdict::Queue(number));
    }
    let reported = is_reported(alloc, &report, &replayed)?;
    if !reported {
        return Ok(Verdict::Text);
    }
    let saved = is_saved(alloc, capture, trips, tx)?;
    if !saved {
        return Ok(Verdict::Tx);
    }
    Ok(Verdict::Yes)
}

/// Checks a report and a savefile against a plan and a capture, with so many frames in a handoff queue.
///
/// It answers `Yes` exactly where lawful choices of the plan and the capture make both, and else the first of its points that fails. So
/// what any run puts out is accepted; that some order of turns leads to the choices isn't asked. Each packet is walked once, and one generation is kept at a time.
///
/// The kinds may be any. Where a node drops a packet by congestion itself, no queue was full and there is no count to name, so no lawful
/// report has such a line.
///
/// # Errors
///
/// [`Memory`] where memory runs out.
pub fn check<K: KindSet>(
    alloc: Global,
    plan: &Plan,
    capture: &Capture,
    queue: u64,
    kinds: &K,
    tx: &[u8],
    report: &[u8],
) -> Result<Verdict, Memory>
    ensures verdict { IfOk result (IsVerdict (case_of K.meaning plan.now capture.now queue tx.now report.now)) }
    ensures yes { IfOk result (λ verdict. (verdict ≡ Verdict.Yes) ↔ IsAccepted (case_of K.meaning plan.now capture.now queue tx.now report.now)) }
{
    verdict(alloc, plan, capture, queue, kinds, tx, report)
}
